// What takes bits.
ghost use Rattle.std.specs.Prelude.{◌≡◌, ◌+◌, ◌<◌, ◌≤◌, ◌^◌, ◌++◌, List, Bool, ℕ};
ghost use Rattle.bit_stuffing.specs.Bits.{number};

/// What takes the bits of a packet header (ISO/IEC 15444-1, B.10.1), at most 7,000 of them: a
/// `BitOut`, which makes the bytes, or a `BitCount`, which only counts them.
pub trait BitSink {
    /// The sink stands for this list of the bits that were put.
    ghost StandsFor: { Self → List Bool → Type 0 };

    /// How many bits were put.
    ghost bit_count: { Self → ℕ };

    /// Puts the low bits of a number, the high one first, after those that were put. `width` says
    /// how many, at most 50, and the number has no higher ones.
    fn put_number(&mut self, width: u32, value: u64)
        requires width { width ≤ 50 }
        requires value { value < 2 ^ width }
        requires room { bit_count self.old + width ≤ 7000 }
        ensures count { bit_count self.new ≡ bit_count self.old + width }
        ensures stands { (bits : List Bool) → StandsFor self.old bits →
            StandsFor self.new (bits ++ number width value) };
}
