// Bits from bytes.
ghost use Rattle.std.specs.Prelude.{◌≡◌, ◌<◌, ◌≤◌, ◌^◌, [], ◌∷◌, ◌++◌, ℕ, length, take, IfOk};
ghost use Rattle.std.specs.Prelude.{IfErr, OnErr, Ok};
ghost use Rattle.bit_stuffing.specs.Stuffing.{supply, fault_of, place_of, Stuffs};
ghost use Rattle.bit_stuffing.specs.Source.{BitSource};
ghost use Rattle.bit_stuffing.specs.Inside.{Opens, source_of};

use crate::fault::BitFault;
use crate::width::width_after;
use std::marker::Model;

/// A reader of the bits of a packet header (ISO/IEC 15444-1, B.10.1), which leaves out the high bit
/// of each byte after FF. In a contract it has the `bytes` that it was given, the bits that were
/// `taken`, and those that are still `ahead`.
#[derive(Drop)]
pub struct BitIn<'a> {
    bytes: &'a [u8],
    /// how many bytes are opened, the last of them, and how many of its low bits are left
    opened: u32,
    last: u8,
    left: u8,
}

impl<'a> Model for BitIn<'a> {
    ghost Value = { BitSource };

    ghost view = { λ s. source_of s.bytes.now s.opened s.last s.left };

    ghost invariant = { λ s. Opens s.bytes.now s.opened s.last s.left };
}

impl<'a> BitIn<'a> {
    /// A reader at the first bit of these bytes.
    pub fn new(bytes: &'a [u8]) -> BitIn<'a>
        requires { length bytes.now < 2 ^ 32 }
        ensures { result ≡ record { bytes = bytes.now; taken = []; ahead = supply bytes.now } }
    {
        BitIn {
            bytes,
            opened: 0,
            last: 0,
            left: 0,
        }
    }

    /// Takes the next bit. Where no bit is ahead, the reader stays as it was, and the fault says
    /// why: the bytes end, or the byte after an FF has its high bit set.
    pub fn take(&mut self) -> Result<bool, BitFault>
        ensures same { self.new.bytes ≡ self.old.bytes }
        ensures bit { IfOk result (λ bit. self.old.ahead ≡ bit ∷ self.new.ahead) }
        ensures taken { IfOk result (λ bit. self.new.taken ≡ self.old.taken ++ bit ∷ []) }
        ensures none { IfErr result (λ fault. self.old.ahead ≡ []) }
        ensures fault { IfErr result (λ fault. fault ≡ fault_of self.old.bytes) }
        ensures err { OnErr result (self.new ≡ self.old) }
    {
        if self.left > 0 {
            self.left -= 1;
            return Ok((self.last >> self.left) % 2 == 1);
        }
        let place = self.opened as usize;
        if place == self.bytes.len() {
            return Err(BitFault::OutOfBits(self.opened));
        }
        let byte = self.bytes[place];
        if self.last == 0xff && byte >= 0x80 {
            return Err(BitFault::StuffedBitSet(self.opened));
        }
        self.left = width_after(self.last) - 1;
        self.last = byte;
        self.opened += 1;
        Ok((byte >> self.left) % 2 == 1)
    }

    /// The place of the byte that has the last bit taken, and 0 where none was taken.
    pub fn place(&self) -> u32
        ensures { result ≡ place_of self.now.bytes (length self.now.taken) }
    {
        if self.opened == 0 { 0 } else { self.opened - 1 }
    }

    /// How many bytes the bits taken fill, with their padding and the byte after a last FF. It
    /// fails where that byte is missing or has its high bit set.
    pub fn finish(self) -> Result<u32, BitFault>
        ensures used { IfOk result (λ used. (used ≤ length self.entry.bytes)
            × Stuffs self.entry.taken (take used self.entry.bytes)) }
        ensures only { (used : ℕ) → used ≤ length self.entry.bytes →
            Stuffs self.entry.taken (take used self.entry.bytes) → result ≡ Ok used }
        ensures fault { IfErr result (λ fault. fault ≡ fault_of self.entry.bytes) }
    {
        if self.last != 0xff {
            return Ok(self.opened);
        }
        let place = self.opened as usize;
        if place == self.bytes.len() {
            return Err(BitFault::OutOfBits(self.opened));
        }
        if self.bytes[place] >= 0x80 {
            return Err(BitFault::StuffedBitSet(self.opened));
        }
        Ok(self.opened + 1)
    }
}
