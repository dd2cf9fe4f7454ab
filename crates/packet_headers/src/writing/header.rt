// Writing a header.
ghost use Rattle.std.specs.Prelude.{◌≡◌, ◌+◌, ◌*◌, ◌<◌, ◌≤◌, [], ◌++◌, List, Bool, ℕ, length, map};
ghost use Rattle.bit_stuffing.specs.Stuffing.{packed, Stuffs};
ghost use Rattle.packet_headers.specs.Words.{packet_of};
ghost use Rattle.packet_headers.specs.Reading.{HasHeader};
ghost use Rattle.packet_headers.specs.Kept.{header_length};
ghost use Rattle.packet_headers.specs.Written.{written, written_bits, band_has_any, has_any};
ghost use Rattle.packet_headers.specs.Written.{shapes_of, ArePlain, CanWrite};

use crate::packet::{Packet, PacketBand};
use crate::writing::band::put_band;
use arrayvec::ArrayVec;
use bit_stuffing::{BitCount, BitOut, BitSink};

/// Whether a block of the band is included.
fn band_includes(band: &PacketBand) -> bool
    ensures { result ≡ band_has_any band.now }
{
    band.entries.as_slice().iter().any(|entry| entry.included)
}

/// Whether a block is included.
fn includes(packet: &Packet) -> bool
    ensures { result ≡ has_any packet.now }
{
    packet
        .bands
        .as_slice()
        .iter()
        .any(|band| band_includes(band))
}

/// Puts the bits of a packet's header: a 0 alone where no block is included, else a 1 and the
/// bands.
fn put_header<S: BitSink>(packet: &Packet, out: &mut S)
    requires packet { CanWrite packet.now }
    requires room { S.bit_count out.old ≡ 0 }
    ensures bits { (bits : List Bool) → S.StandsFor out.old bits →
        S.StandsFor out.new (bits ++ written_bits packet.now) }
    ensures few { S.bit_count out.new ≤ 3361 }
{
    if !includes(packet) {
        out.put_number(1, 0);
        return;
    }
    out.put_number(1, 1);
    for band in packet.bands.as_slice() {
        put_band(band, out);
    }
}

/// The header of a packet (ISO/IEC 15444-1, B.10): the bits that say which blocks are included,
/// with their zero planes, coding passes and lengths, packed into bytes. A packet without an
/// included block has the one byte 0.
///
/// The sides of each band are at most 4, its planes 1 to 20, and it has width times height entries.
/// An included entry has fewer zero planes than planes, 1 to `3 * (planes - zero_planes) - 2`
/// passes, and 1 to 131,072 bytes.
pub fn header(p: &Packet) -> ArrayVec<u8, 1024>
    requires { CanWrite p.now }
    ensures bytes { result.items ≡ packed (written_bits p.now) }
    ensures stuffed { Stuffs (written_bits p.now) result.items }
    ensures few { length result.items ≤ 449 }

    // It spells the packet, whatever follows, where an entry that isn't included has zeros.
    ensures found { ArePlain p.now → (rest : List ℕ) →
        HasHeader (shapes_of p.now) (written p.now) (result.items ++ rest) (length result.items) }
    ensures packet { packet_of (written p.now) ≡ p.now }
{
    let mut out = BitOut::new();
    put_header(p, &mut out);
    out.finish()
}

/// The number of bytes of `header`, under the same conditions.
pub fn header_len(p: &Packet) -> u32
    requires { CanWrite p.now }
    ensures value { result ≡ header_length p.now }
    ensures some { 1 ≤ result }
    ensures few { result ≤ 449 }
{
    let mut count = BitCount::new();
    put_header(p, &mut count);
    count.finish()
}
