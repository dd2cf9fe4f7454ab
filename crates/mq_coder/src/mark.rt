// Where an encoder stands between two symbols.
ghost use Rattle.std.specs.Prelude.{◌≡◌, ◌+◌, ◌*◌, ◌<◌, ◌≤◌, ◌^◌};

/// Where an encoder stands between two symbols: the registers A, C and CT of ISO/IEC 15444-1,
/// Annex C.2.1, the number of bytes put out, and the last of them, 0 where there is none. All that
/// the ending of the code at this point needs.
#[derive(Clone, Copy, Debug)]
pub struct Mark {
    pub a: u32,
    pub c: u32,
    pub ct: u8,
    pub last: u8,
    pub count: u32,
    pub ghost wide: { 2 ^ 15 ≤ a },
    pub ghost sixteen_bits: { a < 2 ^ 16 },
    pub ghost shifts_left: { 1 ≤ ct },
    pub ghost at_most: { ct ≤ 12 },
    pub ghost within: { (c + a) * 2 ^ ct ≤ 2 ^ 28 },
    pub ghost within_first: { count ≡ 0 → (c + a) * 2 ^ ct ≤ 2 ^ 27 },
    pub ghost few: { count < 2 ^ 31 },
}

impl Default for Mark {
    ghost use Rattle.mq_coder.specs.Mark.{IsFirstMark};

    ghost is_default = { IsFirstMark };

    /// The mark of a new encoder.
    fn default() -> Mark {
        Mark {
            a: 0x8000,
            c: 0,
            ct: 12,
            last: 0,
            count: 0,
        }
    }
}
