// Reading a packet's header.
ghost use Rattle.std.specs.Prelude.{◌≡◌, ℕ, ◌+◌, ◌<◌, ◌≤◌, ◌^◌, ◌++◌, List, length, Ok, Err, IfOk};
ghost use Rattle.std.specs.Prelude.{IfErr};
ghost use Rattle.bit_stuffing.specs.Stuffing.{Stuffs};
ghost use Rattle.bit_stuffing.specs.declared.fault.BitFault.{BitFault};
ghost use Rattle.packet_headers.specs.Words.{PacketWords, packet_of, body_of};
ghost use Rattle.packet_headers.specs.Grammar.{ZeroStop, PassStop};
ghost use Rattle.packet_headers.specs.Reading.{CanRead, HasHeader, Found, StopsAt, EndsEarly};
ghost use Rattle.packet_headers.specs.Reading.{BodyShort, Refused, refusal_of};
ghost use Rattle.packet_headers.specs.Written.{written_bits, shapes_of, ArePlain, CanWrite};
ghost use Rattle.packet_headers.specs.Words.{packet_body};
ghost use Rattle.packet_headers.specs.declared.packet.Packet.{Packet};
ghost use Rattle.packet_headers.specs.declared.refusal.PacketRefusal.TheVariants.{
  ZeroPlanesTooMany,
};
ghost use Rattle.packet_headers.specs.declared.refusal.PacketRefusal.TheVariants.{PassesTooMany};
ghost use Rattle.packet_headers.specs.declared.refusal.PacketRefusal.TheVariants.{BodyTruncated};

use crate::packet::{PacketRead, PacketShape};
use crate::reading::body::packet_body;
use crate::reading::header::read_header;
use crate::refusal::PacketRefusal;
use bit_stuffing::BitIn;

/// Reads the header of the packet at the beginning of the bytes, which may be any (ISO/IEC 15444-1,
/// B.10), and returns the packet, and the lengths in bytes of its header and of its body after it.
///
/// The sides of the shape are at most 4, its planes 1 to 31, and there are fewer than 2^32 bytes.
/// Every padding, every raise of Lblock and a packet that begins with 1 and includes no block are
/// accepted. An entry that isn't included has zeros.
///
/// Refused is the first fault in reading order:
/// - `HeaderTruncated` where the bytes end before a wanted bit, or before the byte after a last FF;
/// - `StuffedBitSet` where one of these would come from a byte after FF whose high bit is set;
/// - `ZeroPlanesTooMany` where a bit says that an included block has no bit plane left;
/// - `PassesTooMany` where a block has more coding passes than its bit planes give;
/// - `BodyTruncated`, after the header, where the blocks' lengths together are more than the bytes
///   that are left.
pub fn read(bytes: &[u8], shape: &PacketShape) -> Result<PacketRead, PacketRefusal>
    requires bytes { length bytes.now < 2 ^ 32 }
    requires shape { CanRead shape.now.bands.items }
    // a packet is found only where its header and body are there
    ensures found { IfOk result (λ found. Found shape.now.bands.items bytes.now found) }
    // each refusal only for its cause
    ensures refused { IfErr result (λ refusal. Refused shape.now.bands.items bytes.now refusal) }
    // and the other way round
    ensures reads { (words : PacketWords) (header : ℕ) →
        HasHeader shape.now.bands.items words bytes.now header →
        header + body_of words ≤ length bytes.now →
        result ≡ Ok (record { packet = packet_of words; header = header; body = body_of words }) }
    ensures short { (place : ℕ) → BodyShort shape.now.bands.items bytes.now place →
        result ≡ Err (BodyTruncated place) }
    ensures zero_planes { (place : ℕ) → StopsAt (ZeroStop shape.now.bands.items) bytes.now place →
        result ≡ Err (ZeroPlanesTooMany place) }
    ensures passes { (place : ℕ) → StopsAt (PassStop shape.now.bands.items) bytes.now place →
        result ≡ Err (PassesTooMany place) }
    ensures ends { (fault : BitFault) → EndsEarly shape.now.bands.items bytes.now fault →
        result ≡ Err (refusal_of fault) }
    // A written header is read back where its body is there, whatever follows.
    ensures read_back { (written : Packet) (head rest : List ℕ) → CanWrite written →
        ArePlain written → shape.now.bands.items ≡ shapes_of written →
        Stuffs (written_bits written) head → bytes.now ≡ head ++ rest →
        packet_body written ≤ length rest →
        result ≡ Ok (record { packet = written; header = length head; body = packet_body written }) }
{
    let mut bits = BitIn::new(bytes);
    let packet = read_header(shape, &mut bits)?;
    let header = bits.finish()?;
    let body = packet_body(&packet);
    if body > (bytes.len() - header as usize) as u64 {
        return Err(PacketRefusal::BodyTruncated(bytes.len() as u32));
    }
    Ok(PacketRead {
        packet,
        header,
        body: body as u32,
    })
}
