// Bits into bytes.
ghost use Rattle.std.specs.Prelude.{◌≡◌, ◌<◌, [], ◌∷◌, ◌++◌, length};
ghost use Rattle.std.specs.Prelude.{List, Bool, false};
ghost use Rattle.bit_stuffing.specs.Bits.{number, useful};
ghost use Rattle.bit_stuffing.specs.Stuffing.{packed, Stuffs};
ghost use Rattle.bit_stuffing.specs.Inside.{Keeps};

use crate::bit_register::{held_with, high_byte, low_bits};
use crate::bit_sink::BitSink;
use crate::width::width_after;
use arrayvec::ArrayVec;
use std::marker::Model;

/// A writer of the bits of a packet header (ISO/IEC 15444-1, B.10.1), at most 7,000 of them. In a
/// contract it is the list of the bits that were put.
#[derive(Drop)]
pub struct BitOut {
    bytes: ArrayVec<u8, 1024>,
    /// the bits of the byte begun, and how many there are
    part: u8,
    filled: u8,
    /// how many bits the byte begun holds: 7 after FF, else 8
    width: u8,
}

impl Model for BitOut {
    ghost Value = { List Bool };

    ghost view = { λ s. useful false s.bytes.items ++ number s.filled s.part };

    ghost invariant = { λ s. Keeps s.bytes.items s.part s.filled s.width };
}

impl BitOut {
    /// A writer of no bits.
    pub fn new() -> BitOut
        ensures { result ≡ [] }
    {
        BitOut {
            bytes: ArrayVec::new(),
            part: 0,
            filled: 0,
            width: 8,
        }
    }

    /// Puts a bit after those that were put.
    pub fn put(&mut self, bit: bool)
        requires { length self.old < 7000 }
        ensures { self.new ≡ self.old ++ bit ∷ [] }
    {
        let part = self.part * 2 + u8::from(bit);
        self.filled += 1;
        if self.filled < self.width {
            self.part = part;
        } else {
            self.bytes.push(part);
            self.width = width_after(part);
            self.part = 0;
            self.filled = 0;
        }
    }

    /// The header's bytes: the bits from the high bit of each byte down, a 0 before each byte after
    /// FF, the last byte filled up with zeros, and a byte 0 after a last FF.
    pub fn finish(self) -> ArrayVec<u8, 1024>
        ensures bytes { result.items ≡ packed self }
        ensures stuffed { Stuffs self result.items }
    {
        let mut bytes = self.bytes;
        if self.filled > 0 {
            bytes.push(self.part << (self.width - self.filled));
        } else if self.width == 7 {
            bytes.push(0);
        }
        bytes
    }
}

impl BitSink for BitOut {
    ghost StandsFor = { λ s bits. s ≡ bits };

    ghost bit_count = { λ s. length s };

    fn put_number(&mut self, width: u32, value: u64) {
        let mut held = held_with(u32::from(self.part), width, value);
        let mut filled = u32::from(self.filled) + width;
        let mut full = u32::from(self.width);
        while filled >= full {
            filled -= full;
            let byte = high_byte(held, filled);
            held = low_bits(held, filled);
            self.bytes.push(byte);
            full = u32::from(width_after(byte));
        }
        self.part = held as u8;
        self.filled = filled as u8;
        self.width = full as u8;
    }
}
