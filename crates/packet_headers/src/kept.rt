// A packet whose header's length is kept.
ghost use Rattle.std.specs.Prelude.{◌≡◌, ◌<◌, ◌≤◌, length};
ghost use Rattle.packet_headers.specs.Written.{CanWrite};
ghost use Rattle.packet_headers.specs.Kept.{header_length, with_entry, band_at, CanPut};

use crate::entry::Entry;
use crate::packet::{Packet, PacketBand};
use crate::writing::header::header_len;
use arrayvec::ArrayVec;
use std::marker::Model;

/// A packet and the number of bytes of its header, kept while the entries of its blocks change
/// (ISO/IEC 15444-1, B.10). A change costs one new header, and never the old one again. In a contract
/// it is its packet.
///
/// Bands count from 0 in the packet's order, and places from 0 in raster order. The packet can be
/// written, before and after each change, under the conditions of `header_len`. No call refuses or
/// takes memory.
#[derive(Drop)]
pub struct KeptPacket {
    packet: Packet,
    /// the bytes of its header
    len: u32,
}

impl Model for KeptPacket {
    ghost use Rattle.std.specs.Prelude.{◌≡◌};
    ghost use Rattle.packet_headers.specs.declared.packet.Packet.{Packet};
    ghost use Rattle.packet_headers.specs.Written.{CanWrite};
    ghost use Rattle.packet_headers.specs.Kept.{header_length};

    ghost Value = { Packet };

    ghost view = { λ s. s.packet };

    ghost invariant = { λ s. CanWrite s.packet × (s.len ≡ header_length s.packet) };
}

impl KeptPacket {
    /// Keeps a packet, whose header's length is counted once.
    pub fn of(packet: Packet) -> KeptPacket
        requires { CanWrite packet }
        ensures { result ≡ packet }
    {
        let len = header_len(&packet);
        KeptPacket { packet, len }
    }

    /// The packet.
    pub fn packet(&self) -> &Packet
        ensures packet { result.now ≡ self.now }
        ensures can_write { CanWrite result.now }
    {
        &self.packet
    }

    /// The number of bytes of its header, as `header_len` of the packet returns it.
    pub fn len(&self) -> u32
        ensures { result ≡ header_length self.now }
    {
        self.len
    }

    /// The number of bytes of the header that the packet would have with this entry at a place of one
    /// of its bands.
    pub fn with(&self, band: u8, place: u8, entry: Entry) -> u32
        requires { CanPut self.now band place entry }
        ensures value { result ≡ header_length (with_entry self.now band place entry) }
        ensures few { result ≤ 449 }
    {
        let mut packet = copy_of(&self.packet);
        put_entry(&mut packet, band, place, entry);
        header_len(&packet)
    }

    /// Puts the entry at the place, and counts the new header.
    pub fn set(&mut self, band: u8, place: u8, entry: Entry)
        requires { CanPut self.old band place entry }
        ensures { self.new ≡ with_entry self.old band place entry }
    {
        put_entry(&mut self.packet, band, place, entry);
        self.len = header_len(&self.packet);
    }

    /// Puts the entry at the place, where the number of bytes of the new header is known: it is what
    /// `with` returned for this entry. Nothing is counted.
    pub fn set_counted(&mut self, band: u8, place: u8, entry: Entry, len: u32)
        requires place { CanPut self.old band place entry }
        requires len { len ≡ header_length (with_entry self.old band place entry) }
        ensures { self.new ≡ with_entry self.old band place entry }
    {
        put_entry(&mut self.packet, band, place, entry);
        self.len = len;
    }
}

/// Puts an entry at a place of one of a packet's bands.
fn put_entry(packet: &mut Packet, band: u8, place: u8, entry: Entry)
    requires band { band < length packet.old.bands.items }
    requires place { place < length (band_at packet.old band).entries.items }
    ensures { packet.new ≡ with_entry packet.old band place entry }
{
    let bands = packet.bands.as_mut_slice();
    let entries = bands[band as usize].entries.as_mut_slice();
    entries[place as usize] = entry;
}

/// A copy of a packet.
fn copy_of(packet: &Packet) -> Packet
    ensures { result ≡ packet.now }
{
    let mut bands = ArrayVec::new();
    for band in packet.bands.as_slice() {
        bands.push(copy_of_band(band));
    }
    Packet { bands }
}

/// A copy of a band.
fn copy_of_band(band: &PacketBand) -> PacketBand
    ensures { result ≡ band.now }
{
    let mut entries = ArrayVec::new();
    for entry in band.entries.as_slice() {
        entries.push(*entry);
    }
    PacketBand {
        width: band.width,
        height: band.height,
        planes: band.planes,
        entries,
    }
}
