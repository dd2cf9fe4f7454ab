// RENORME.
ghost use Rattle.std.specs.Prelude.{◌≡◌, ℕ, ◌+◌, ◌-◌, ◌*◌, ◌<◌, ◌≤◌, ◌^◌, Bool, List, length, take};
ghost use Rattle.mq_coder.specs.Code.{renormalise};
ghost use Rattle.mq_coder.specs.Shifts.{shifts};
ghost use Rattle.mq_coder.specs.Registers.{coding_of};

use crate::byte_out::byte_out;
use crate::registers::Registers;

/// Three quarters of the unit of the register A, the least size of the interval between two symbols
/// (ISO/IEC 15444-1, C.2.2).
pub const THREE_QUARTERS: u32 = 0x8000;

/// How often A has to be doubled until it is at least three quarters.
#[inline(always)]
pub fn shifts_due(a: u32) -> u32
    requires some { 1 ≤ a }
    requires sixteen_bits { a < 2 ^ 16 }
    ensures few { result ≤ 15 }
    ensures wide { 2 ^ 15 ≤ a * 2 ^ result }
    ensures narrow { a * 2 ^ result < 2 ^ 16 }
{
    a.leading_zeros() - 16
}

/// A and C doubled `n` times, where no byte becomes full.
#[inline(always)]
#[tactic(auto, using(crate::proofs::Widths::shifted_reach, crate::proofs::Widths::within_reach, crate::proofs::Shifting::shifts_within))]
fn shifted(r: Registers, n: u32) -> Registers
    requires within { n < r.ct }
    requires narrow { r.a * 2 ^ n < 2 ^ 16 }
    ensures exact { (bytes : List ℕ) (contexts : List (ℕ × Bool)) →
        shifts n (coding_of r bytes contexts) ≡ coding_of result bytes contexts }
    ensures wider { result.a ≡ r.a * 2 ^ n }
    ensures count { result.count ≡ r.count }
{
    Registers {
        a: r.a << n,
        c: r.c << n,
        ct: r.ct - n,
        count: r.count,
    }
}

/// A and C doubled CT times, where a byte becomes full and is put out.
#[inline(always)]
#[tactic(auto, using(crate::proofs::Widths::fresh_reach, crate::proofs::Widths::less_reach, crate::proofs::Shifting::shifts_full))]
fn next_byte(bytes: &mut [u8], r: Registers) -> Registers
    requires narrow { r.a * 2 ^ r.ct < 2 ^ 16 }
    requires room { r.count < length bytes.old }
    requires few { length bytes.old < 2 ^ 31 }
    ensures exact { (contexts : List (ℕ × Bool)) →
        shifts r.ct (coding_of r bytes.old contexts) ≡ coding_of result bytes.new contexts }
    ensures wider { result.a ≡ r.a * 2 ^ r.ct }
    ensures count { result.count ≡ r.count + 1 }
    ensures seven { 7 ≤ result.ct }
    ensures fixed { take (r.count - 1) bytes.new ≡ take (r.count - 1) bytes.old }
{
    let register = byte_out(bytes, r.count, r.c << r.ct);
    Registers {
        a: r.a << r.ct,
        c: register.c,
        ct: register.ct,
        count: r.count + 1,
    }
}

/// A and C doubled `n` times, with the bytes that become full put out.
fn shifted_out(bytes: &mut [u8], r: Registers, n: u32) -> Registers
    requires shifts { n ≤ 15 }
    requires narrow { r.a * 2 ^ n < 2 ^ 16 }
    requires room { r.count + 3 ≤ length bytes.old }
    requires few { length bytes.old < 2 ^ 31 }
    ensures exact { (contexts : List (ℕ × Bool)) →
        shifts n (coding_of r bytes.old contexts) ≡ coding_of result bytes.new contexts }
    ensures wider { result.a ≡ r.a * 2 ^ n }
    ensures grows { r.count ≤ result.count }
    ensures three { result.count ≤ r.count + 3 }
    ensures fixed { take (r.count - 1) bytes.new ≡ take (r.count - 1) bytes.old }
{
    let mut now = r;
    let mut due = n;
    for _ in 0..3u32 {
        if due < now.ct {
            break;
        }
        due -= now.ct;
        now = next_byte(bytes, now);
    }
    shifted(now, due)
}

/// Doubles A and C until A is at least three quarters, and puts out the bytes that become full
/// (ISO/IEC 15444-1, Figure C.7).
#[inline(always)]
pub fn renormalise(bytes: &mut [u8], r: Registers) -> Registers
    requires room { r.count + 3 ≤ length bytes.old }
    requires few { length bytes.old < 2 ^ 31 }
    ensures exact { (contexts : List (ℕ × Bool)) →
        renormalise 15 (coding_of r bytes.old contexts) ≡ coding_of result bytes.new contexts }
    ensures wide { 2 ^ 15 ≤ result.a }
    ensures grows { r.count ≤ result.count }
    ensures three { result.count ≤ r.count + 3 }
    ensures fixed { take (r.count - 1) bytes.new ≡ take (r.count - 1) bytes.old }
{
    let n = shifts_due(r.a);
    if n < r.ct {
        shifted(r, n)
    } else {
        shifted_out(bytes, r, n)
    }
}
