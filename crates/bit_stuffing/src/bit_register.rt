// The bits after whole bytes, as a number.
ghost use Rattle.std.specs.Prelude.{◌≡◌, ◌+◌, ◌*◌, ◌/◌, ◌%◌, ◌<◌, ◌≤◌, ◌^◌, ◌↔◌, IsTrue};
ghost use Rattle.bit_stuffing.specs.Inside.{HasNoFf};

/// The bits of a byte begun, and those of a number after them.
#[inline]
pub fn held_with(part: u32, width: u32, value: u64) -> u64
    requires part { part < 256 }
    requires width { width ≤ 50 }
    requires value { value < 2 ^ width }
    ensures { result ≡ part * 2 ^ width + value }
{
    (u64::from(part) << width) + value
}

/// All bits but the low ones, which fill a byte.
#[inline]
pub fn high_byte(held: u64, left: u32) -> u8
    requires left { left ≤ 57 }
    requires fits { held / 2 ^ left < 256 }
    ensures { result ≡ held / 2 ^ left }
{
    (held >> left) as u8
}

/// The byte that ends before so many low bits.
#[inline]
pub fn byte_at(held: u64, left: u32) -> u8
    requires left { left ≤ 57 }
    ensures { result ≡ held / 2 ^ left % 2 ^ 8 }
{
    (held >> left & 0xff) as u8
}

/// The four bytes that end before so many low bits.
#[inline]
pub fn word_at(held: u64, left: u32) -> u64
    requires left { left ≤ 57 }
    ensures { result ≡ held / 2 ^ left % 2 ^ 32 }
{
    held >> left & 0xffff_ffff
}

/// The low bits.
#[inline]
pub fn low_bits(held: u64, left: u32) -> u64
    requires left { left ≤ 57 }
    ensures { result ≡ held % 2 ^ left }
{
    held & ((1 << left) - 1)
}

/// Whether none of four bytes is FF: in each the low seven bits and 1 reach the high bit, which is
/// set too, only where all are set.
#[inline]
pub fn has_no_ff(word: u64) -> bool
    requires { word < 2 ^ 32 }
    ensures { IsTrue result ↔ HasNoFf word }
{
    ((word & 0x7f7f_7f7f) + 0x0101_0101) & word & 0x8080_8080 == 0
}
