// The end of a codestream.
ghost use Rattle.std.specs.Prelude.{◌≡◌, ◌<◌, ◌≤◌, ◌^◌, length, drop, None, IfSome};
ghost use Rattle.tile_parts.specs.Head.{eoc};
ghost use Rattle.codestream_reader.specs.Faults.{EndFault};

use crate::refusal::ReadRefusal;

/// Why the bytes from the place `at` on aren't EOC alone (ISO/IEC 15444-1, A.4.4): `MissingEnd`
/// where they don't begin with it, and `BytesAfterEnd` where a byte follows it. None where they are.
pub(crate) fn end_fault(bytes: &[u8], at: u32) -> Option<ReadRefusal>
    requires inside { at ≤ length bytes.now }
    requires places { length bytes.now < 2 ^ 32 }
    ensures none { result ≡ None → drop at bytes.now ≡ eoc }
    ensures some { IfSome result (EndFault bytes.now at) }
{
    let left = &bytes[at as usize..];
    if left.len() < 2 || left[0] != 0xFF || left[1] != 0xD9 {
        return Some(ReadRefusal::MissingEnd(at));
    }
    if left.len() > 2 {
        return Some(ReadRefusal::BytesAfterEnd(at + 2));
    }
    None
}
