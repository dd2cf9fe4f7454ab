// Reading a tile-part.
ghost use Rattle.std.specs.Prelude.{◌≡◌, ◌+◌, ◌<◌, ◌≤◌, ◌^◌, ℕ, length, Ok, Err, IfOk, IfErr};
ghost use Rattle.std.specs.List.{Contains};
ghost use Rattle.band_geometry.specs.Bands.{IsBlock};
ghost use Rattle.band_geometry.specs.Numbering.{all_blocks};
ghost use Rattle.band_geometry.specs.declared.places.BlockId.{BlockId};
ghost use Rattle.packet_order.specs.Blocks.{packet_of_block};
ghost use Rattle.packet_order.specs.Order.{ordered_packets};
ghost use Rattle.profile_reader.specs.Reads.{PacketsSay};
ghost use Rattle.profile_reader.specs.Words.{PartWhole};
ghost use Rattle.codestream_reader.specs.Spans.{AreReadable, said_of, span_in};
ghost use Rattle.codestream_reader.specs.Standing.{PartStands};
ghost use Rattle.codestream_reader.specs.PartFaults.{PartFault};
ghost use Rattle.codestream_reader.specs.declared.refusal.ReadRefusal.{ReadRefusal};

use crate::body::read_body;
use crate::refusal::ReadRefusal;
use crate::span::BlockSpan;
use band_geometry::Geometry;
use cinema_markers::MarkerRefusal;
use dz_quantiser::StepSizes;
use packet_order::PacketId;
use tile_parts::read_part;

/// What is known of a tile-part before it is read.
#[derive(Clone, Copy)]
pub struct PartKnown {
    /// TPsot: its place in the order of the tile-parts, from 0 on.
    pub index: u8,
    /// The number of tile-parts.
    pub count: u8,
    /// Its length in bytes, from TLM.
    pub size: u32,
    /// The place of that length in TLM, in bytes from SOC.
    pub size_at: u32,
}

/// Reads the tile-part at the place `at` (ISO/IEC 15444-1, A.4.2 and A.4.3): its head, and its
/// packets, which are `ids`. Returns the place after it.
///
/// Refused is the first fault, in this order:
/// - `Part` as `read_part` refuses the head;
/// - `BadTlm`, with the place of the length in TLM, where that isn't Psot;
/// - `Packet` where a packet can't be read;
/// - `PartTooLong` where bytes remain after the last packet.
pub fn read_tile_part(
    bytes: &[u8],
    at: u32,
    known: PartKnown,
    geometry: &Geometry,
    steps: &StepSizes,
    ids: &[PacketId],
    spans: &mut [BlockSpan],
) -> Result<u32, ReadRefusal>
    requires inside { at ≤ length bytes.now }
    requires places { length bytes.now < 2 ^ 32 }
    requires ids { ids.now ≡ ordered_packets geometry.now known.index }
    requires steps { AreReadable geometry.now.levels steps.now }
    requires spans { length spans.old ≡ length (all_blocks geometry.now) }
    ensures stands { IfOk result (λ to. (w : PartWhole)
        × PartStands geometry.now steps.now bytes.now at known.index known.count known.size w) }
    ensures end { IfOk result (λ to. to ≡ at + known.size) }
    ensures inside { IfOk result (λ to. to ≤ length bytes.now) }
    ensures reads { (w : PartWhole) →
        PartStands geometry.now steps.now bytes.now at known.index known.count known.size w →
        (result ≡ Ok (at + known.size))
        × PacketsSay geometry.now (said_of bytes.now spans.new) ids.now w.packets }
    ensures refused { IfErr result
        (PartFault geometry.now steps.now bytes.now at known.index known.count known.size
        known.size_at) }
    ensures faults { (refusal : ReadRefusal) →
        PartFault geometry.now steps.now bytes.now at known.index known.count known.size
        known.size_at refusal → result ≡ Err refusal }
    ensures others { (b : BlockId) → IsBlock geometry.now b →
        (Contains ids.now (packet_of_block b) → ⊥) →
        span_in geometry.now spans.new b ≡ span_in geometry.now spans.old b }
    ensures count { length spans.new ≡ length spans.old }
{
    match read_part(bytes, at, known.index, known.count) {
        Err(fault) => Err(ReadRefusal::Part(fault)),
        Ok(part) => {
            if part.length != known.size {
                return Err(ReadRefusal::Main(MarkerRefusal::BadTlm(known.size_at)));
            }
            read_body(bytes, part.body, part.stop, geometry, steps, ids, spans)?;
            Ok(part.stop)
        }
    }
}
