// Reading a block's pass count and length (ISO/IEC 15444-1, B.10.6 and B.10.7).
ghost use Rattle.std.specs.Prelude.{◌≡◌, ℕ, ◌+◌, ◌<◌, ◌≤◌, ◌^◌, ◌++◌, List, Bool, length, min};
ghost use Rattle.std.specs.Prelude.{IfOk, IfErr, IsOkAnd};
ghost use Rattle.bit_stuffing.specs.Bits.{value};
ghost use Rattle.bit_stuffing.specs.Source.{Took};
ghost use Rattle.bit_stuffing.specs.Stuffing.{fault_of};
ghost use Rattle.packet_headers.specs.Codewords.{pass_bits, length_bits, length_width};

use bit_stuffing::{BitFault, BitIn};
use cine_nums::bit_len;

/// The number that the next bits have, so many of them, the high bit first; u32::MAX where it is
/// larger.
fn read_number(width: u64, bits: &mut BitIn<'_>) -> Result<u32, BitFault>
    ensures number { IfOk result (λ n. (word : List Bool) × (length word ≡ width)
        × Took bits.old word bits.new × (n ≡ min (value word) 4294967295)) }
    ensures below { IfOk result (λ n. n < 2 ^ width) }
    ensures ends { IfErr result (λ fault. length bits.old.ahead < width) }
    ensures fault { IfErr result (λ fault. fault ≡ fault_of bits.old.bytes) }
    ensures same { bits.new.bytes ≡ bits.old.bytes }
{
    let mut number: u32 = 0;
    for _ in 0..width {
        let bit = bits.take()?;
        number = number.saturating_mul(2).saturating_add(u32::from(bit));
    }
    Ok(number)
}

/// A number of passes.
pub(crate) fn read_passes(bits: &mut BitIn<'_>) -> Result<u8, BitFault>
    ensures took { IfOk result (λ n. (1 ≤ n) × (n ≤ 164) × Took bits.old (pass_bits n) bits.new) }
    ensures reads { (n : ℕ) (rest : List Bool) → 1 ≤ n → n ≤ 164 → bits.old.ahead ≡ pass_bits n
        ++ rest → IsOkAnd result (λ m. m ≡ n) }
    ensures fault { IfErr result (λ fault. fault ≡ fault_of bits.old.bytes) }
    ensures same { bits.new.bytes ≡ bits.old.bytes }
{
    if !bits.take()? {
        return Ok(1);
    }
    if !bits.take()? {
        return Ok(2);
    }
    let two = read_number(2, bits)?;
    if two < 3 {
        return Ok(3 + two as u8);
    }
    let five = read_number(5, bits)?;
    if five < 31 {
        return Ok(6 + five as u8);
    }
    let seven = read_number(7, bits)?;
    Ok(37 + seven as u8)
}

/// The length of a block of so many passes; u32::MAX where it is larger.
pub(crate) fn read_length(passes: u8, bits: &mut BitIn<'_>) -> Result<u32, BitFault>
    requires passes { 1 ≤ passes }
    requires few { length bits.old.ahead < 2 ^ 40 }
    ensures took { IfOk result (λ kept. (raise len : ℕ) × (len < 2 ^ length_width passes raise)
        × Took bits.old (length_bits passes raise len) bits.new × (kept ≡ min len 4294967295)) }
    ensures reads { (raise len : ℕ) (rest : List Bool) → len < 2 ^ length_width passes raise →
        bits.old.ahead ≡ length_bits passes raise len ++ rest →
        IsOkAnd result (λ kept. kept ≡ min len 4294967295) }
    ensures fault { IfErr result (λ fault. fault ≡ fault_of bits.old.bytes) }
    ensures same { bits.new.bytes ≡ bits.old.bytes }
{
    let mut width = 2 + u64::from(bit_len(u32::from(passes)));
    while bits.take()? {
        width += 1;
    }
    read_number(width, bits)
}
