// The registers of the decoder.
ghost use Rattle.std.specs.Prelude.{◌*◌, ◌<◌, ◌≤◌, ◌^◌};

/// The registers A, C and CT of ISO/IEC 15444-1, Annex C.3.1, and the place of the last byte read,
/// the length of the string where that is one of the FF after it. C is cut to A * 2^16: a value
/// above that has left the interval, and decides for the upper part however large it is.
#[derive(Clone, Copy)]
pub struct Registers {
    pub a: u32,
    pub c: u32,
    pub ct: u32,
    pub place: usize,
    ghost some: { 1 ≤ a },
    ghost sixteen_bits: { a < 2 ^ 16 },
    ghost cut: { c ≤ a * 2 ^ 16 },
    ghost at_most: { ct ≤ 7 },
}
