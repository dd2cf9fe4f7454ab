// BYTEIN.
ghost use Rattle.std.specs.Prelude.{◌≡◌, ◌+◌, ◌-◌, ◌*◌, ◌<◌, ◌≤◌, ◌^◌, length};
ghost use Rattle.mq_coder.specs.Decisions.{byte_at};
ghost use Rattle.mq_decoder.specs.Bytes.{next_byte};

/// A byte read: its place, and how many bits it gives.
#[derive(Clone, Copy)]
pub struct ByteIn {
    pub byte: u32,
    pub bits: u32,
    pub place: usize,
}

/// The byte at a place, FF after the end of the string.
#[inline(always)]
#[tactic(auto, unfolding(mq_coder::specs::Decisions::byte_at))]
pub fn byte_at(bytes: &[u8], place: usize) -> u32
    ensures byte { result ≡ byte_at bytes.now place }
    ensures eight_bits { result < 2 ^ 8 }
{
    if place < bytes.len() {
        u32::from(bytes[place])
    } else {
        0xFF
    }
}

/// The byte that BYTEIN adds after the one at `place` (ISO/IEC 15444-1, C.3.4): after FF a byte of
/// 7 bits, and FF again where a marker or the end of the string follows; else a byte of 8 bits.
#[inline(always)]
#[tactic(auto, unfolding(mq_coder::specs::Decisions::byte_at))]
pub fn byte_in(bytes: &[u8], place: usize) -> ByteIn
    requires { place ≤ length bytes.now }
    ensures read { result ≡ next_byte bytes.now place }
    ensures inside { result.place ≤ length bytes.now }
    ensures added { result.byte * 2 ^ (16 - result.bits) ≤ 0x1_1E00 }
    ensures seven { 7 ≤ result.bits }
    ensures eight { result.bits ≤ 8 }
{
    let next = byte_at(bytes, place + 1);
    if byte_at(bytes, place) != 0xFF {
        return ByteIn {
            byte: next,
            bits: 8,
            place: place + 1,
        };
    }
    if next > 0x8F {
        return ByteIn {
            byte: 0xFF,
            bits: 8,
            place,
        };
    }
    ByteIn {
        byte: next,
        bits: 7,
        place: place + 1,
    }
}
