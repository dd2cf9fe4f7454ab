// Reading one packet.
ghost use Rattle.std.specs.Prelude.{◌≡◌, ◌+◌, ◌<◌, ◌≤◌, ◌^◌, ℕ, length, slice_range, Ok, Err, IfOk};
ghost use Rattle.std.specs.Prelude.{IfErr};
ghost use Rattle.band_geometry.specs.Bands.{IsBlock};
ghost use Rattle.band_geometry.specs.Numbering.{all_blocks};
ghost use Rattle.band_geometry.specs.declared.places.BlockId.{BlockId};
ghost use Rattle.packet_headers.specs.Reading.{CanRead, Found, HasHeader};
ghost use Rattle.packet_headers.specs.Words.{PacketWords, packet_of, body_of};
ghost use Rattle.packet_headers.specs.declared.refusal.PacketRefusal.{PacketRefusal};
ghost use Rattle.packet_order.specs.Blocks.{packet_of_block};
ghost use Rattle.profile_reader.specs.Reads.{PacketSays};
ghost use Rattle.profile_reader.specs.Shapes.{shapes_in};
ghost use Rattle.profile_reader.specs.Words.{PacketWhole};
ghost use Rattle.codestream_reader.specs.PacketFaults.{PacketFault, moved, place_in};
ghost use Rattle.codestream_reader.specs.Spans.{AreReadable, IsPacket, said_of, span_in};
ghost use Rattle.codestream_reader.specs.Standing.{PacketStands};

use crate::blocks::{entries_of, numbers_of};
use crate::place::place_blocks;
use crate::shape::shape_of;
use crate::span::BlockSpan;
use band_geometry::Geometry;
use dz_quantiser::StepSizes;
use packet_headers::{PacketRead, PacketRefusal, PacketShape, read};
use packet_order::PacketId;

/// Reads the packet at the place `at`, whose bytes end before `stop`: sets the spans of its
/// code-blocks, and returns the place after it.
pub(crate) fn read_packet(
    bytes: &[u8],
    at: u32,
    stop: u32,
    geometry: &Geometry,
    steps: &StepSizes,
    id: PacketId,
    spans: &mut [BlockSpan],
) -> Result<u32, PacketRefusal>
    requires inside { at ≤ stop }
    requires end { stop ≤ length bytes.now }
    requires places { length bytes.now < 2 ^ 32 }
    requires id { IsPacket geometry.now id }
    requires steps { AreReadable geometry.now.levels steps.now }
    requires spans { length spans.old ≡ length (all_blocks geometry.now) }
    ensures stands { IfOk result (λ to. (w : PacketWhole)
        × PacketStands (shapes_in geometry.now steps.now id) bytes.now at stop to w) }
    ensures inside { IfOk result (λ to. to ≤ stop) }
    // Whatever packet stands there, it is the one that was read.
    ensures reads { (w : PacketWhole) (to : ℕ) →
        PacketStands (shapes_in geometry.now steps.now id) bytes.now at stop to w →
        (result ≡ Ok to) × PacketSays geometry.now (said_of bytes.now spans.new) id w }
    ensures refused { IfErr result
        (PacketFault (shapes_in geometry.now steps.now id) bytes.now at stop) }
    ensures faults { (fault : PacketRefusal) →
        PacketFault (shapes_in geometry.now steps.now id) bytes.now at stop fault →
        result ≡ Err fault }
    // The spans of other packets' blocks stay.
    ensures others { (b : BlockId) → IsBlock geometry.now b → (packet_of_block b ≡ id → ⊥) →
        span_in geometry.now spans.new b ≡ span_in geometry.now spans.old b }
    ensures count { length spans.new ≡ length spans.old }
{
    let shape = shape_of(geometry, steps, id);
    let found = read_at(bytes, at, stop, &shape)?;
    let numbers = numbers_of(geometry, id);
    let entries = entries_of(&found.packet);
    let body = at + found.header;
    place_blocks(numbers.as_slice(), entries.as_slice(), body, spans);
    Ok(body + found.body)
}

/// Reads the header of a packet of this shape at the place `at`.
fn read_at(
    bytes: &[u8],
    at: u32,
    stop: u32,
    shape: &PacketShape,
) -> Result<PacketRead, PacketRefusal>
    requires inside { at ≤ stop }
    requires end { stop ≤ length bytes.now }
    requires places { length bytes.now < 2 ^ 32 }
    requires shape { CanRead shape.now.bands.items }
    ensures found { IfOk result
        (Found shape.now.bands.items (slice_range bytes.now at stop)) }
    ensures reads { (words : PacketWords) (header : ℕ) →
        HasHeader shape.now.bands.items words (slice_range bytes.now at stop) header →
        header + body_of words ≤ length (slice_range bytes.now at stop) →
        result ≡ Ok (record { packet = packet_of words; header = header; body = body_of words }) }
    ensures refused { IfErr result (PacketFault shape.now.bands.items bytes.now at stop) }
    ensures faults { (fault : PacketRefusal) →
        PacketFault shape.now.bands.items bytes.now at stop fault → result ≡ Err fault }
{
    match read(&bytes[at as usize..stop as usize], shape) {
        Ok(found) => Ok(found),
        Err(own) => Err(moved(own, at)),
    }
}

/// A refusal with its place counted from the beginning of the bytes, where the packet begins at the
/// place `at`.
fn moved(own: PacketRefusal, at: u32) -> PacketRefusal
    requires { at + place_in own < 2 ^ 32 }
    ensures { result ≡ moved at own }
{
    match own {
        PacketRefusal::HeaderTruncated(place) => PacketRefusal::HeaderTruncated(at + place),
        PacketRefusal::StuffedBitSet(place) => PacketRefusal::StuffedBitSet(at + place),
        PacketRefusal::ZeroPlanesTooMany(place) => PacketRefusal::ZeroPlanesTooMany(at + place),
        PacketRefusal::PassesTooMany(place) => PacketRefusal::PassesTooMany(at + place),
        PacketRefusal::BodyTruncated(place) => PacketRefusal::BodyTruncated(at + place),
    }
}
