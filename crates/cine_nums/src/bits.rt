// The bit length of a number.
ghost use Rattle.std.specs.Prelude.{◌≡◌, ◌-◌, ◌^◌, ◌<◌, ◌≤◌};
ghost use Rattle.cine_nums.specs.Bits.{bit_len};

/// The bit length of a number: 0 for 0, else the place of its highest 1, counted from 1.
///
/// It is the number of magnitude bit planes of a code block whose largest index is `m`
/// (ISO/IEC 15444-1, Annex D).
pub fn bit_len(m: u32) -> u8
    ensures value { result ≡ bit_len m }
    ensures above { m < 2 ^ result }
    ensures below { 0 < m → 2 ^ (result - 1) ≤ m }
{
    (32 - m.leading_zeros()) as u8
}
