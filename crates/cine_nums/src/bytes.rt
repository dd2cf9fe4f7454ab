// Numbers in a string of bytes, the high byte first.
ghost use Rattle.std.specs.Prelude.{◌≡◌, ◌+◌, ◌≤◌, length};
ghost use Rattle.cine_nums.specs.Bytes.{word_at, long_at};

/// The number of 16 bits whose two bytes stand from the place `at` on, counted from 0, the high
/// byte first (ISO/IEC 15444-1, A.1.3).
#[inline]
pub fn word_at(bytes: &[u8], at: usize) -> u16
    requires { at + 2 ≤ length bytes.now }
    ensures { result ≡ word_at bytes.now at }
{
    u16::from(bytes[at]) * 256 + u16::from(bytes[at + 1])
}

/// The number of 32 bits whose four bytes stand from the place `at` on, counted from 0, the high
/// byte first (ISO/IEC 15444-1, A.1.3).
#[inline]
pub fn long_at(bytes: &[u8], at: usize) -> u32
    requires { at + 4 ≤ length bytes.now }
    ensures { result ≡ long_at bytes.now at }
{
    u32::from(word_at(bytes, at)) * 65536 + u32::from(word_at(bytes, at + 2))
}
