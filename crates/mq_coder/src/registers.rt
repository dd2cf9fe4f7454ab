// The registers of the encoder.
ghost use Rattle.std.specs.Prelude.{◌≡◌, ◌+◌, ◌*◌, ◌<◌, ◌≤◌, ◌^◌};

/// The registers A, C and CT of ISO/IEC 15444-1, Annex C.2.1, and the number of bytes put out. The
/// interval never reaches beyond twice the unit of the last byte, which is 2^27 at CT = 0, nor
/// beyond that unit where there is no byte.
#[derive(Clone, Copy)]
pub struct Registers {
    pub a: u32,
    pub c: u32,
    pub ct: u32,
    pub count: u32,
    ghost few: { count < 2 ^ 31 },
    ghost some: { 1 ≤ a },
    ghost sixteen_bits: { a < 2 ^ 16 },
    ghost shifts_left: { 1 ≤ ct },
    ghost at_most: { ct ≤ 12 },
    ghost within: { (c + a) * 2 ^ ct ≤ 2 ^ 28 },
    ghost within_first: { count ≡ 0 → (c + a) * 2 ^ ct ≤ 2 ^ 27 },
}
