// The ending of the code at a mark.
ghost use Rattle.std.specs.Prelude.{◌≡◌, ◌≢◌, ℕ, ◌+◌, ◌-◌, ◌*◌, ◌<◌, ◌≤◌, ◌^◌, Bool, List, ◌++◌};
ghost use Rattle.std.specs.Prelude.{length, take};
ghost use Rattle.mq_coder.specs.Code.{Coding, last_byte, set_bits, shift_out, drop_ff, code};
ghost use Rattle.mq_coder.specs.Mark.{coding_at, kept_at, tail_at, IsMarkOf};

use crate::byte_out::{CodeRegister, byte_out};
use crate::mark::Mark;
use arrayvec::ArrayVec;

/// The ended code at a mark: the first `kept` bytes of the encoder's buffer, then `tail`.
#[derive(Debug, Drop)]
pub struct EndedCode {
    pub kept: u32,
    pub tail: ArrayVec<u8, 4>,
}

/// The ending of the code at a mark (ISO/IEC 15444-1, Figure C.11), on the registers of the mark
/// alone: it is valid also when the encoder has gone on since.
pub fn ending(m: &Mark) -> EndedCode
    ensures kept { result.kept ≡ kept_at m.now }
    ensures tail { result.tail.items ≡ tail_at m.now }
    ensures some { 1 ≤ length result.tail.items }
    ensures three { length result.tail.items ≤ 3 }
    ensures one_more { m.now.count + 1 ≤ result.kept + length result.tail.items }
    ensures two_more { result.kept + length result.tail.items ≤ m.now.count + 2 }
    ensures no_ff { last_byte result.tail.items ≢ 255 }
    ensures code { (buffer : List ℕ) (symbols : List (ℕ × Bool)) → IsMarkOf m.now buffer symbols →
        take result.kept buffer ++ result.tail.items ≡ code symbols }
{
    let mut bytes = [0; 4];
    let end = tail(m, &mut bytes);
    let mut tail = ArrayVec::from_array_in((), bytes);
    tail.truncate(end as usize);
    EndedCode {
        kept: m.count.saturating_sub(1),
        tail,
    }
}

/// The length of the ended code at a mark: `kept` and the tail's, together.
pub fn ended_len(m: &Mark) -> u32
    ensures exact { result ≡ kept_at m.now + length (tail_at m.now) }
    ensures some { 1 ≤ result }
    ensures one_more { m.now.count + 1 ≤ result }
    ensures two_more { result ≤ m.now.count + 2 }
    ensures code { (buffer : List ℕ) (symbols : List (ℕ × Bool)) → IsMarkOf m.now buffer symbols →
        result ≡ length (code symbols) }
{
    m.count.saturating_sub(1) + tail(m, &mut [0; 4])
}

/// The bytes of the ended code after the kept ones: how many of `bytes` they are.
#[tactic(auto, using(crate::proofs::Widths::few_shifts, crate::proofs::Widths::less_reach))]
fn tail(m: &Mark, bytes: &mut [u8; 4]) -> u32
    ensures exact { take result bytes.new ≡ tail_at m.now }
    ensures three { result ≤ 3 }
{
    let count = if m.count == 0 { 0 } else { 1 };
    bytes[0] = m.last;
    let left = shift_out(bytes, count, set_bits(m), u32::from(m.ct));
    let _ = shift_out(bytes, count + 1, left.c, left.ct);
    without_ff(bytes, count + 2)
}

/// Shifts C by CT bits, and puts a byte out after the first `count` ones.
#[tactic(auto, unfolding(crate::specs::Code::shift_out))]
fn shift_out(bytes: &mut [u8], count: u32, c: u32, ct: u32) -> CodeRegister
    requires room { count < length bytes.old }
    requires shift { ct < 32 }
    requires within { c * 2 ^ ct < 2 ^ 28 }
    requires within_first { count ≡ 0 → c * 2 ^ ct < 2 ^ 27 }
    ensures put { (x : Coding) →
        shift_out (record x { c = c; ct = ct; bytes = take count bytes.old })
        ≡ record x { c = result.c; ct = result.ct; bytes = take (count + 1) bytes.new } }
    ensures below_unit { result.c * 2 ^ result.ct < 2 ^ 27 }
    ensures eight { result.ct ≤ 8 }
{
    byte_out(bytes, count, c << ct)
}

/// How many of the first `count` bytes are left without a last byte FF.
#[tactic(auto, using(crate::proofs::FlushForm::drop_ff_take))]
fn without_ff(bytes: &[u8], count: u32) -> u32
    requires some { 1 ≤ count }
    requires room { count ≤ length bytes.now }
    ensures exact { take result bytes.now ≡ drop_ff (take count bytes.now) }
    ensures less { result ≤ count }
{
    if bytes[count as usize - 1] == 0xFF {
        count - 1
    } else {
        count
    }
}

/// SETBITS (Figure C.12): the largest number below C + A that ends in 15 ones.
#[tactic(auto, unfolding(crate::specs::Code::set_bits))]
fn set_bits(m: &Mark) -> u32
    ensures exact { (x : Coding) → x.a ≡ m.now.a → x.c ≡ m.now.c →
        set_bits x ≡ record x { c = result } }
    ensures inside { result < m.now.c + m.now.a }
{
    let filled = m.c / 0x1_0000 * 0x1_0000 + 0xFFFF;
    if filled < m.c + m.a {
        filled
    } else {
        filled - 0x8000
    }
}
