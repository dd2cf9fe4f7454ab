// Reading packets one after the other.
ghost use Rattle.std.specs.Prelude.{◌≡◌, ◌<◌, ◌≤◌, ◌^◌, ℕ, List, length, Ok, Err, IfOk, IfErr};
ghost use Rattle.std.specs.List.{All, AllPairs, Contains};
ghost use Rattle.band_geometry.specs.Bands.{IsBlock};
ghost use Rattle.band_geometry.specs.Numbering.{all_blocks};
ghost use Rattle.band_geometry.specs.declared.places.BlockId.{BlockId};
ghost use Rattle.packet_headers.specs.declared.refusal.PacketRefusal.{PacketRefusal};
ghost use Rattle.packet_order.specs.Blocks.{packet_of_block};
ghost use Rattle.profile_reader.specs.Reads.{PacketsSay};
ghost use Rattle.profile_reader.specs.Words.{PacketWhole};
ghost use Rattle.codestream_reader.specs.PacketFaults.{PacketsFault};
ghost use Rattle.codestream_reader.specs.Spans.{AreReadable, IsPacket, said_of, span_in};
ghost use Rattle.codestream_reader.specs.Standing.{PacketsStand};

use crate::packet::read_packet;
use crate::span::BlockSpan;
use band_geometry::Geometry;
use dz_quantiser::StepSizes;
use packet_headers::PacketRefusal;
use packet_order::PacketId;

/// Reads packets of these numbers, which differ, one after the other from the place `from` on
/// (ISO/IEC 15444-1, B.9 and B.10). The bytes of the last one end before `stop`, and `stop` is at
/// most the number of bytes, of which there are fewer than 2^32.
///
/// `spans` has a span for each code-block of the frame, by block number. Those of the packets'
/// blocks are set, and the others stay. Returned is the place after the last packet, in bytes from
/// 0.
///
/// Refused is the first fault in reading order, with its place counted from the beginning of
/// `bytes`, where one of the packets can't be read.
pub fn read_packets(
    bytes: &[u8],
    from: u32,
    stop: u32,
    geometry: &Geometry,
    steps: &StepSizes,
    ids: &[PacketId],
    spans: &mut [BlockSpan],
) -> Result<u32, PacketRefusal>
    requires inside { from ≤ stop }
    requires end { stop ≤ length bytes.now }
    requires places { length bytes.now < 2 ^ 32 }
    requires ids { All (IsPacket geometry.now) ids.now }
    requires apart { AllPairs (λ a b. a ≡ b → ⊥) ids.now }
    requires steps { AreReadable geometry.now.levels steps.now }
    requires spans { length spans.old ≡ length (all_blocks geometry.now) }
    // Packets are read only where they stand.
    ensures stand { IfOk result (λ to. (ws : List PacketWhole)
        × PacketsStand geometry.now steps.now bytes.now from stop to ids.now ws) }
    ensures inside { IfOk result (λ to. to ≤ stop) }
    // Whatever packets stand there, they were read, and the spans say what they say.
    ensures reads { (ws : List PacketWhole) (to : ℕ) →
        PacketsStand geometry.now steps.now bytes.now from stop to ids.now ws →
        (result ≡ Ok to) × PacketsSay geometry.now (said_of bytes.now spans.new) ids.now ws }
    // Each fault is returned exactly where it is the first.
    ensures refused { IfErr result
        (PacketsFault geometry.now steps.now bytes.now from stop ids.now) }
    ensures faults { (fault : PacketRefusal) →
        PacketsFault geometry.now steps.now bytes.now from stop ids.now fault →
        result ≡ Err fault }
    ensures others { (b : BlockId) → IsBlock geometry.now b →
        (Contains ids.now (packet_of_block b) → ⊥) →
        span_in geometry.now spans.new b ≡ span_in geometry.now spans.old b }
    ensures count { length spans.new ≡ length spans.old }
{
    let mut at = from;
    for id in ids {
        at = read_packet(bytes, at, stop, geometry, steps, *id, spans)?;
    }
    Ok(at)
}
