// RENORMD.
ghost use Rattle.std.specs.Prelude.{◌≡◌, ◌+◌, ◌-◌, ◌*◌, ◌<◌, ◌≤◌, ◌^◌, ℕ, List, min, length};
ghost use Rattle.mq_coder.specs.Decisions.{Interval, twice, doubled};
ghost use Rattle.mq_decoder.specs.Registers.{HoldsAt};
ghost use Rattle.mq_decoder.specs.Turns.{twices};

use crate::byte_in::byte_in;
use crate::registers::Registers;
use mq_coder::THREE_QUARTERS;

/// C at the start: two bytes, 7 of whose bits are shifted up, cut to three quarters of 2^16.
#[inline(always)]
pub fn first_c(first: u32, byte: u32, bits: u32) -> u32
    requires eight_bits { first < 2 ^ 8 }
    requires seven { 7 ≤ bits }
    requires eight { bits ≤ 8 }
    requires added { byte * 2 ^ (16 - bits) ≤ 0x1_1E00 }
    ensures { result ≡ min ((first * 2 ^ 16 + byte * 2 ^ (16 - bits)) * 2 ^ 7) (2 ^ 31) }
{
    let read = ((first << 16) + (byte << (16 - bits))) << 7;
    read.min(THREE_QUARTERS << 16)
}

/// C with a byte added to it, cut to A * 2^16.
#[inline(always)]
fn fed(c: u32, a: u32, byte: u32, bits: u32) -> u32
    requires small { a < 2 ^ 15 }
    requires cut { c ≤ a * 2 ^ 16 }
    requires seven { 7 ≤ bits }
    requires eight { bits ≤ 8 }
    requires added { byte * 2 ^ (16 - bits) ≤ 0x1_1E00 }
    ensures { result ≡ min (c + byte * 2 ^ (16 - bits)) (a * 2 ^ 16) }
{
    let added = c + (byte << (16 - bits));
    added.min(a << 16)
}

/// Reads a byte where no shift is left, and doubles A and C.
#[inline(always)]
fn shift(bytes: &[u8], r: Registers) -> Registers
    requires small { r.a < 2 ^ 15 }
    requires inside { r.place ≤ length bytes.now }
    ensures holds { (it : Interval) → HoldsAt bytes.now r it → HoldsAt bytes.now result (twice it) }
    ensures twice { result.a ≡ 2 * r.a }
    ensures left { r.ct ≡ 0 → 6 ≤ result.ct }
    ensures inside { result.place ≤ length bytes.now }
{
    if r.ct > 0 {
        return Registers {
            a: 2 * r.a,
            c: 2 * r.c,
            ct: r.ct - 1,
            place: r.place,
        };
    }
    let next = byte_in(bytes, r.place);
    let c = fed(r.c, r.a, next.byte, next.bits);
    Registers {
        a: 2 * r.a,
        c: 2 * c,
        ct: next.bits - 1,
        place: next.place,
    }
}

/// How often A has to be doubled until it is at least three quarters.
#[inline(always)]
fn shifts_due(a: u32) -> u32
    requires some { 1 ≤ a }
    requires sixteen_bits { a < 2 ^ 16 }
    ensures few { result ≤ 15 }
    ensures wide { 2 ^ 15 ≤ a * 2 ^ result }
    ensures narrow { a * 2 ^ result < 2 ^ 16 }
{
    a.leading_zeros() - 16
}

/// A and C doubled `n` times, where no byte is read.
#[inline(always)]
fn shifted(r: Registers, n: u32) -> Registers
    requires within { n ≤ r.ct }
    requires narrow { r.a * 2 ^ n < 2 ^ 16 }
    ensures holds { (bytes : List ℕ) (it : Interval) → HoldsAt bytes r it →
        HoldsAt bytes result (twices n it) }
    ensures wider { result.a ≡ r.a * 2 ^ n }
    ensures left { result.ct ≡ r.ct - n }
    ensures place { result.place ≡ r.place }
{
    Registers {
        a: r.a << n,
        c: r.c << n,
        ct: r.ct - n,
        place: r.place,
    }
}

/// A and C doubled `n` times, with the bytes read that this needs.
fn shifted_in(bytes: &[u8], r: Registers, n: u32) -> Registers
    requires shifts { n ≤ 15 }
    requires narrow { r.a * 2 ^ n < 2 ^ 16 }
    requires inside { r.place ≤ length bytes.now }
    ensures holds { (it : Interval) → HoldsAt bytes.now r it →
        HoldsAt bytes.now result (twices n it) }
    ensures wider { result.a ≡ r.a * 2 ^ n }
    ensures inside { result.place ≤ length bytes.now }
{
    let mut now = r;
    let mut due = n;
    for _ in 0..3u32 {
        if due <= now.ct {
            break;
        }
        due -= now.ct + 1;
        let empty = shifted(now, now.ct);
        now = shift(bytes, empty);
    }
    shifted(now, due)
}

/// Doubles A and C until A is at least three quarters, and reads the bytes that this needs
/// (ISO/IEC 15444-1, C.3.3).
#[inline(always)]
pub fn renormalise(bytes: &[u8], r: Registers) -> Registers
    requires { r.place ≤ length bytes.now }
    ensures holds { (it : Interval) → HoldsAt bytes.now r it →
        HoldsAt bytes.now result (doubled 15 it) }
    ensures wide { 2 ^ 15 ≤ result.a }
    ensures inside { result.place ≤ length bytes.now }
{
    let n = shifts_due(r.a);
    if n <= r.ct {
        shifted(r, n)
    } else {
        shifted_in(bytes, r, n)
    }
}
