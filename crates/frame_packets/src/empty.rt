// Packets in which no code-block is included.
ghost use Rattle.std.specs.Prelude.{◌≡◌, ◌<◌, ◌≤◌, IfOk, map, replicate};
ghost use Rattle.std.specs.List.{All};
ghost use Rattle.band_geometry.specs.Bands.{HasBand};
ghost use Rattle.cine_nums.specs.Profile.{levels_of, parts_of};
ghost use Rattle.dz_quantiser.specs.Bands.{AreUsable};
ghost use Rattle.packet_headers.specs.Written.{CanWrite};
ghost use Rattle.packet_order.specs.Order.{IsPacketOf};
ghost use Rattle.profile_reader.specs.Packets.{band_with, left_out, packet_with};
ghost use Rattle.frame_packets.specs.Keeps.{KeepsPart, nothing};

use crate::part::PartPackets;
use arrayvec::ArrayVec;
use band_geometry::Geometry;
use cine_nums::Orient;
use dz_quantiser::StepSizes;
use packet_headers::{Entry, KeptPacket, Packet, PacketBand};
use packet_order::{PacketId, order};
use std::alloc::{AllocError, Global};
use tile_parts::PART_HEAD_BYTES;

/// The packets of the tile-part of this index, counted from 0.
pub(crate) fn empty_part(
    alloc: Global,
    geometry: &Geometry,
    steps: &StepSizes,
    index: u8,
) -> Result<PartPackets, AllocError>
    requires index { index < parts_of geometry.now.profile }
    requires levels { geometry.now.levels ≡ levels_of geometry.now.profile }
    requires usable { AreUsable geometry.now.levels steps.now }
    ensures { IfOk result (λ part. KeepsPart geometry.now steps.now nothing index part) }
{
    let ids = order(alloc, geometry, index)?;
    let packets = empty_packets(alloc, geometry, steps, index, ids.as_slice())?;
    let bytes = PART_HEAD_BYTES + ids.len() as u32;
    Ok(PartPackets::of(ids, packets, bytes))
}

/// These packets of a tile-part.
fn empty_packets(
    alloc: Global,
    geometry: &Geometry,
    steps: &StepSizes,
    index: u8,
    ids: &[PacketId],
) -> Result<Vec<KeptPacket>, AllocError>
    requires usable { AreUsable geometry.now.levels steps.now }
    requires ids { All (IsPacketOf geometry.now index) ids.now }
    ensures { IfOk result (λ packets. packets.items
        ≡ map (packet_with geometry.now steps.now nothing) ids.now) }
{
    let mut packets = Vec::new(alloc);
    for id in ids {
        packets.push(KeptPacket::of(empty_packet(geometry, steps, index, *id)))?;
    }
    Ok(packets)
}

/// A packet of a tile-part.
fn empty_packet(geometry: &Geometry, steps: &StepSizes, index: u8, id: PacketId) -> Packet
    requires usable { AreUsable geometry.now.levels steps.now }
    requires id { IsPacketOf geometry.now index id }
    ensures value { result ≡ packet_with geometry.now steps.now nothing id }
    ensures can_write { CanWrite result }
{
    let mut bands = ArrayVec::new();
    if id.res == 0 {
        bands.push(empty_band(geometry, steps, index, id, Orient::LL));
        return Packet { bands };
    }
    bands.push(empty_band(geometry, steps, index, id, Orient::HL));
    bands.push(empty_band(geometry, steps, index, id, Orient::LH));
    bands.push(empty_band(geometry, steps, index, id, Orient::HH));
    Packet { bands }
}

/// A band's part of a packet.
fn empty_band(
    geometry: &Geometry,
    steps: &StepSizes,
    index: u8,
    id: PacketId,
    orient: Orient,
) -> PacketBand
    requires usable { AreUsable geometry.now.levels steps.now }
    requires id { IsPacketOf geometry.now index id }
    requires band { HasBand geometry.now id.res orient }
    ensures { result ≡ band_with geometry.now steps.now nothing id orient }
{
    let range = geometry.precinct_blocks(id.res, orient, id.px, id.py);
    let width = (range.x1 - range.x0) as u8;
    let height = (range.y1 - range.y0) as u8;
    PacketBand {
        width,
        height,
        planes: steps.band(geometry.levels, id.res, orient).planes,
        entries: empty_entries(width * height),
    }
}

/// The entries of so many code-blocks.
fn empty_entries(count: u8) -> ArrayVec<Entry, 16>
    requires { count ≤ 16 }
    ensures { result.items ≡ replicate count left_out.entry }
{
    let mut entries = ArrayVec::new();
    for _place in 0..count {
        entries.push(Entry::default());
    }
    entries
}
