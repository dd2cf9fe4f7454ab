// The number of bytes of bits.
ghost use Rattle.std.specs.Prelude.{◌≡◌, ◌+◌, ◌*◌, ◌^◌, ◌<◌, ◌≤◌, length};

use crate::bit_register::{byte_at, has_no_ff, low_bits, word_at};
use crate::bit_sink::BitSink;

/// A counter of the bytes that a `BitOut` would make of the same bits (ISO/IEC 15444-1, B.10.1), at
/// most 7,000 of them. It keeps the bits after the bytes that are counted, and counts four bytes at
/// a time where none of them is FF.
#[derive(Clone, Copy)]
pub struct BitCount {
    /// the bytes that are counted
    whole: u32,
    /// the bits after them, as the low ones of a number
    held: u64,
    /// how many these are, with the stuffed 0 of a byte after FF
    filled: u32,
    /// all bits that were put
    bits: u32,
    ghost room: { filled ≤ 64 },
    ghost whole_few: { 7 * whole + filled ≤ bits + 1 },
    ghost few: { bits ≤ 7000 },
}

impl BitCount {
    ghost use Rattle.std.specs.Prelude.{List, [], ◌++◌, Bool};
    ghost use Rattle.bit_stuffing.specs.Stuffing.{packed};
    ghost use Rattle.bit_stuffing.specs.Inside.{Counts};
    ghost use Rattle.bit_stuffing.specs.Bits.{number};

    /// A counter of no bits.
    pub fn new() -> BitCount
        ensures stands { Counts result.whole result.held result.filled result.bits [] }
        ensures none { result.bits ≡ 0 }
    {
        BitCount {
            whole: 0,
            held: 0,
            filled: 0,
            bits: 0,
        }
    }

    /// Counts a byte. After FF stands a stuffed 0.
    fn with_byte(self) -> BitCount
        requires { 8 ≤ self.filled }
        ensures counts { (bits : List Bool) →
            Counts self.whole self.held self.filled self.bits bits →
            Counts result.whole result.held result.filled result.bits bits }
        ensures fewer { result.filled < self.filled }
        ensures bits { result.bits ≡ self.bits }
    {
        let left = self.filled - 8;
        if byte_at(self.held, left) == 0xff {
            return BitCount {
                whole: self.whole + 1,
                held: low_bits(self.held, left),
                filled: left + 1,
                bits: self.bits,
            };
        }
        BitCount {
            whole: self.whole + 1,
            held: self.held,
            filled: left,
            bits: self.bits,
        }
    }

    /// Counts every byte that is full.
    #[cold]
    fn emptied(self) -> BitCount
        ensures counts { (bits : List Bool) →
            Counts self.whole self.held self.filled self.bits bits →
            Counts result.whole result.held result.filled result.bits bits }
        ensures begun { result.filled < 8 }
        ensures bits { result.bits ≡ self.bits }
    {
        let mut count = self;
        while count.filled >= 8 {
            count = count.with_byte();
        }
        count
    }

    /// Counts the bytes that are full where so many bits more would be too many.
    fn with_room(self, width: u32) -> BitCount
        requires { width ≤ 50 }
        ensures counts { (bits : List Bool) →
            Counts self.whole self.held self.filled self.bits bits →
            Counts result.whole result.held result.filled result.bits bits }
        ensures room { result.filled + width ≤ 64 }
        ensures bits { result.bits ≡ self.bits }
    {
        if self.filled + width > 64 {
            return self.emptied();
        }
        self
    }

    /// Counts four bytes where so many are full and none of them is FF; where one is, every byte
    /// that is full.
    fn emptied_by_word(self) -> BitCount
        ensures counts { (bits : List Bool) →
            Counts self.whole self.held self.filled self.bits bits →
            Counts result.whole result.held result.filled result.bits bits }
        ensures bits { result.bits ≡ self.bits }
    {
        if self.filled < 32 {
            return self;
        }
        let left = self.filled - 32;
        if !has_no_ff(word_at(self.held, left)) {
            return self.emptied();
        }
        BitCount {
            whole: self.whole + 4,
            held: self.held,
            filled: left,
            bits: self.bits,
        }
    }

    /// Puts a number after few bits. What leaves the register at its high end has been counted.
    fn with_number(self, width: u32, value: u64) -> BitCount
        requires width { width ≤ 50 }
        requires room { self.filled + width ≤ 64 }
        requires value { value < 2 ^ width }
        requires few { self.bits + width ≤ 7000 }
        ensures counts { (bits : List Bool) →
            Counts self.whole self.held self.filled self.bits bits →
            Counts result.whole result.held result.filled result.bits (bits ++ number width value) }
        ensures bits { result.bits ≡ self.bits + width }
    {
        BitCount {
            whole: self.whole,
            held: (self.held << width) + value,
            filled: self.filled + width,
            bits: self.bits + width,
        }
    }

    /// The number of bytes of the bits that were put, as `BitOut::finish` makes them.
    pub fn finish(self) -> u32
        ensures { (bits : List Bool) → Counts self.whole self.held self.filled self.bits bits →
            result ≡ length (packed bits) }
    {
        let count = self.emptied();
        if count.filled > 0 {
            return count.whole + 1;
        }
        count.whole
    }
}

impl BitSink for BitCount {
    ghost use Rattle.bit_stuffing.specs.Inside.{Counts};

    ghost StandsFor = { λ s bits. Counts s.whole s.held s.filled s.bits bits };

    ghost bit_count = { λ s. s.bits };

    fn put_number(&mut self, width: u32, value: u64) {
        *self = self
            .with_room(width)
            .with_number(width, value)
            .emptied_by_word();
    }
}
