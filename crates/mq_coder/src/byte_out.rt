// BYTEOUT.
ghost use Rattle.std.specs.Prelude.{◌≡◌, ◌+◌, ◌-◌, ◌*◌, ◌<◌, ◌≤◌, ◌^◌, length, take};
ghost use Rattle.mq_coder.specs.Code.{Coding, byte_out};

/// What BYTEOUT leaves: the register C, and CT, the shifts until C holds another byte.
#[derive(Clone, Copy)]
pub struct CodeRegister {
    pub c: u32,
    pub ct: u32,
}

/// Puts a byte out after the first `count` bytes, or carries into the last of these first
/// (ISO/IEC 15444-1, Figure C.8).
#[inline(always)]
#[tactic(auto, unfolding(crate::specs::Code::byte_out))]
pub fn byte_out(bytes: &mut [u8], count: u32, c: u32) -> CodeRegister
    requires room { count < length bytes.old }
    requires below { c < 2 ^ 28 }
    requires first { count ≡ 0 → c < 2 ^ 27 }
    ensures put { (x : Coding) → byte_out (record x { c = c; bytes = take count bytes.old })
        ≡ record x { c = result.c; ct = result.ct; bytes = take (count + 1) bytes.new } }
    ensures fixed { take (count - 1) bytes.new ≡ take (count - 1) bytes.old }
    ensures below_unit { result.c * 2 ^ result.ct < 2 ^ 27 }
    ensures seven { 7 ≤ result.ct }
    ensures eight { result.ct ≤ 8 }
{
    let end = count as usize;
    let last = if end == 0 { 0 } else { bytes[end - 1] };
    if last == 0xFF {
        bytes[end] = (c >> 20) as u8;
        return CodeRegister {
            c: c & 0xF_FFFF,
            ct: 7,
        };
    }
    if c < 0x800_0000 {
        bytes[end] = (c >> 19) as u8;
        return CodeRegister {
            c: c & 0x7_FFFF,
            ct: 8,
        };
    }
    let rest = c - 0x800_0000;
    bytes[end - 1] = last + 1;
    if last + 1 == 0xFF {
        bytes[end] = (rest >> 20) as u8;
        return CodeRegister {
            c: rest & 0xF_FFFF,
            ct: 7,
        };
    }
    bytes[end] = (rest >> 19) as u8;
    CodeRegister {
        c: rest & 0x7_FFFF,
        ct: 8,
    }
}
