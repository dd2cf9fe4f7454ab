// Laws of the definitions, for the crates above: a call of one of these functions, which do
// nothing, gives the caller its clause.
ghost use Rattle.std.specs.Prelude.{◌≡◌, [], ◌∷◌, false};
ghost use Rattle.bit_stuffing.specs.Stuffing.{packed};
ghost use Rattle.packet_headers.specs.declared.packet.Packet.{Packet};
ghost use Rattle.packet_headers.specs.Words.{packet_of};
ghost use Rattle.packet_headers.specs.Grammar.{WordsFit};
ghost use Rattle.packet_headers.specs.Written.{written, written_bits, has_any, shapes_of};
ghost use Rattle.packet_headers.specs.Written.{ArePlain, CanWrite};

/// The words that the writer spells for a packet fit its shapes, where it can be written and the
/// entries that aren't included have zeros; they are words of this packet; and the header of a
/// packet without an included block is one byte 0.
pub fn writing()
    ensures fits { (p : Packet) → CanWrite p → ArePlain p → WordsFit (shapes_of p) (written p) }
    ensures packet { (p : Packet) → packet_of (written p) ≡ p }
    ensures empty { (p : Packet) → has_any p ≡ false → packed (written_bits p) ≡ 0 ∷ [] }
{}
