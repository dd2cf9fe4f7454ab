// The packets of a tile-part.
ghost use Rattle.std.specs.Prelude.{◌≡◌, ◌+◌, ◌^◌, ◌<◌, ◌≤◌, length, get_or, set};
ghost use Rattle.std.specs.List.{Contains};
ghost use Rattle.packet_order.specs.declared.packet.PacketId.{PacketId};
ghost use Rattle.packet_headers.specs.Kept.{CanPut, header_length, with_entry};
ghost use Rattle.packet_headers.specs.Written.{CanWrite};
ghost use Rattle.frame_packets.specs.Inside.{IsChange, entry_at, packet_at};

use packet_headers::{Entry, KeptPacket, Packet};
use packet_order::PacketId;
use std::marker::Model;

/// The packets of a tile-part in their order, and its length.
#[derive(Drop)]
pub(crate) struct PartPackets {
    ids: Vec<PacketId>,
    packets: Vec<KeptPacket>,
    /// the bytes of the tile-part, its head with them
    bytes: u32,
}

impl Model for PartPackets {
    ghost use Rattle.frame_packets.specs.Keeps.{PartKept};

    ghost Value = { PartKept };

    ghost view = { λ s. record { ids = s.ids.items; packets = s.packets.items; bytes = s.bytes } };
}

/// What another entry of a code-block makes of a tile-part: the length of the packet's header, and
/// that of the tile-part, in bytes.
#[derive(Clone, Copy)]
pub(crate) struct Change {
    pub header: u32,
    pub bytes: u32,
}

impl PartPackets {
    /// A tile-part of these packets and of so many bytes.
    pub fn of(ids: Vec<PacketId>, packets: Vec<KeptPacket>, bytes: u32) -> PartPackets
        ensures { result ≡ record { ids = ids.items; packets = packets.items; bytes = bytes } }
    {
        PartPackets {
            ids,
            packets,
            bytes,
        }
    }

    /// The packets in their order.
    pub fn ids(&self) -> &[PacketId]
        ensures { result.now ≡ self.now.ids }
    {
        self.ids.as_slice()
    }

    /// The bytes of the tile-part.
    pub fn bytes(&self) -> u32
        ensures { result ≡ self.now.bytes }
    {
        self.bytes
    }

    /// The place of a packet in the order.
    pub fn place_of(&self, id: PacketId) -> usize
        requires { Contains self.now.ids id }
        ensures within { result < length self.now.ids }
        ensures at { (d : PacketId) → get_or self.now.ids result d ≡ id }
    {
        for (at, other) in self.ids.iter().enumerate() {
            if *other == id {
                return at;
            }
        }
        unreachable!()
    }

    /// The packet at a place of the order.
    pub fn packet(&self, at: usize) -> &Packet
        requires { at < length self.now.packets }
        ensures packet { result.now ≡ packet_at self.now at }
        ensures can_write { CanWrite result.now }
    {
        self.packets[at].packet()
    }

    /// What the tile-part becomes with an entry at a place of a packet's band.
    pub fn change(&self, at: usize, band: u8, place: u8, entry: Entry) -> Change
        requires at { at < length self.now.packets }
        requires place { CanPut (packet_at self.now at) band place entry }
        requires enough { header_length (packet_at self.now at)
            + (entry_at (packet_at self.now at) band place).len ≤ self.now.bytes }
        requires few { self.now.bytes < 2 ^ 31 }
        requires entry { entry.len ≤ 131072 }
        ensures { IsChange self.now at band place entry result }
    {
        let kept = &self.packets[at];
        let old = kept.packet().bands[band as usize].entries[place as usize].len;
        let header = kept.with(band, place, entry);
        let bytes = self.bytes - (kept.len() + old) + (header + entry.len);
        Change { header, bytes }
    }

    /// Puts an entry at a place of a packet's band, where the change that it makes is known.
    pub fn put(&mut self, at: usize, band: u8, place: u8, entry: Entry, change: Change)
        requires at { at < length self.old.packets }
        requires place { CanPut (packet_at self.old at) band place entry }
        requires change { IsChange self.old at band place entry change }
        ensures { self.new ≡ record {
          ids = self.old.ids;
          packets = set self.old.packets at (with_entry (packet_at self.old at) band place entry);
          bytes = change.bytes;
        } }
    {
        self.packets[at].set_counted(band, place, entry, change.header);
        self.bytes = change.bytes;
    }
}
