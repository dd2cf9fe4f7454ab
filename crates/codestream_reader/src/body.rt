// Reading the packets of a tile-part, which have to fill it.
ghost use Rattle.std.specs.Prelude.{◌≡◌, ◌<◌, ◌≤◌, ◌^◌, ℕ, List, length, Ok, Err, OnOk, IfErr};
ghost use Rattle.std.specs.List.{All, AllPairs, Contains};
ghost use Rattle.band_geometry.specs.Bands.{IsBlock};
ghost use Rattle.band_geometry.specs.Numbering.{all_blocks};
ghost use Rattle.band_geometry.specs.declared.places.BlockId.{BlockId};
ghost use Rattle.packet_order.specs.Blocks.{packet_of_block};
ghost use Rattle.profile_reader.specs.Reads.{PacketsSay};
ghost use Rattle.profile_reader.specs.Words.{PacketWhole};
ghost use Rattle.codestream_reader.specs.Spans.{AreReadable, IsPacket, said_of, span_in};
ghost use Rattle.codestream_reader.specs.Standing.{PacketsFill};
ghost use Rattle.codestream_reader.specs.PartFaults.{BodyFault};
ghost use Rattle.codestream_reader.specs.declared.refusal.ReadRefusal.{ReadRefusal};

use crate::packets::read_packets;
use crate::refusal::ReadRefusal;
use crate::span::BlockSpan;
use band_geometry::Geometry;
use dz_quantiser::StepSizes;
use packet_order::PacketId;

/// Reads packets of these numbers, which differ and have to fill the bytes from the place `from` up
/// to `stop`, as [`read_packets`] reads them.
///
/// Refused is the first fault of a packet, and after the last packet `PartTooLong` where bytes
/// remain.
pub(crate) fn read_body(
    bytes: &[u8],
    from: u32,
    stop: u32,
    geometry: &Geometry,
    steps: &StepSizes,
    ids: &[PacketId],
    spans: &mut [BlockSpan],
) -> Result<(), ReadRefusal>
    requires inside { from ≤ stop }
    requires end { stop ≤ length bytes.now }
    requires places { length bytes.now < 2 ^ 32 }
    requires ids { All (IsPacket geometry.now) ids.now }
    requires apart { AllPairs (λ a b. a ≡ b → ⊥) ids.now }
    requires steps { AreReadable geometry.now.levels steps.now }
    requires spans { length spans.old ≡ length (all_blocks geometry.now) }
    ensures fill { OnOk result ((ws : List PacketWhole)
        × PacketsFill geometry.now steps.now bytes.now from stop ids.now ws) }
    ensures reads { (ws : List PacketWhole) →
        PacketsFill geometry.now steps.now bytes.now from stop ids.now ws →
        (result ≡ Ok tt) × PacketsSay geometry.now (said_of bytes.now spans.new) ids.now ws }
    ensures refused { IfErr result
        (BodyFault geometry.now steps.now bytes.now from stop ids.now) }
    ensures faults { (refusal : ReadRefusal) →
        BodyFault geometry.now steps.now bytes.now from stop ids.now refusal →
        result ≡ Err refusal }
    ensures others { (b : BlockId) → IsBlock geometry.now b →
        (Contains ids.now (packet_of_block b) → ⊥) →
        span_in geometry.now spans.new b ≡ span_in geometry.now spans.old b }
    ensures count { length spans.new ≡ length spans.old }
{
    match read_packets(bytes, from, stop, geometry, steps, ids, spans) {
        Err(fault) => Err(ReadRefusal::Packet(fault)),
        Ok(to) => {
            if to < stop {
                return Err(ReadRefusal::PartTooLong(to));
            }
            Ok(())
        }
    }
}
