// The decoder.
ghost use Rattle.std.specs.Prelude.{◌≡◌, ℕ, ◌+◌, ◌-◌, ◌*◌, ◌<◌, ◌≤◌, ◌^◌, Bool, List, [], ◌∷◌};
ghost use Rattle.std.specs.Prelude.{◌++◌, length};

use crate::byte_in::{byte_at, byte_in};
use crate::registers::Registers;
use crate::renormalise::{first_c, renormalise};
use crate::subintervals::subinterval;
use mq_coder::{Contexts, THREE_QUARTERS};

/// A decoder of ISO/IEC 15444-1, Annex C.3, over a byte string.
#[derive(Drop)]
pub struct Decoder<'a> {
    bytes: &'a [u8],
    contexts: Contexts,
    registers: Registers,
    ghost wide: { 2 ^ 15 ≤ registers.a },
    ghost inside: { registers.place ≤ length bytes.now },
}

impl<'a> Decoder<'a> {
    ghost use Rattle.mq_coder.specs.Code.{code};
    ghost use Rattle.mq_coder.specs.Decisions.{decisions};
    ghost use Rattle.mq_coder.specs.Laws.{contexts_of};
    ghost use Rattle.mq_decoder.specs.Decoder.{Stands};

    /// A decoder of `bytes`, with new contexts. Ones follow the bytes without end.
    pub fn new(bytes: &'a [u8]) -> Decoder<'a>
        ensures stands { Stands result [] }
        ensures bytes { result.bytes.now ≡ bytes.now }
    {
        let next = byte_in(bytes, 0);
        let c = first_c(byte_at(bytes, 0), next.byte, next.bits);
        Decoder {
            bytes,
            contexts: Contexts::new(),
            registers: Registers {
                a: THREE_QUARTERS,
                c,
                ct: next.bits - 7,
                place: next.place,
            },
        }
    }

    /// The decision in context `cx`, below 19.
    #[inline(always)]
    pub fn take(&mut self, cx: u8) -> bool
        requires { cx < 19 }
        ensures decides { (cxs : List ℕ) → Stands self.old cxs →
            decisions self.old.bytes.now (cxs ++ cx ∷ [])
            ≡ decisions self.old.bytes.now cxs ++ result ∷ [] }
        ensures stands { (cxs : List ℕ) → Stands self.old cxs → Stands self.new (cxs ++ cx ∷ []) }
        // over the code of a list of symbols, the bits of that list
        ensures inverts { (before later : List (ℕ × Bool)) (bit : Bool) →
            self.old.bytes.now ≡ code (before ++ (cx, bit) ∷ later) →
            Stands self.old (contexts_of before) → result ≡ bit }
        ensures bytes { self.new.bytes.now ≡ self.old.bytes.now }
    {
        let context = self.contexts.get(cx);
        let qe = context.estimate();
        let mps = context.mps();
        let r = self.registers;
        let lower = r.c >> 16 < qe;
        let bit = (lower == (r.a - qe < qe)) == mps;
        let part = subinterval(r, qe);
        if !lower && part.a >= THREE_QUARTERS {
            self.registers = part;
            return bit;
        }
        self.contexts.set(cx, context.next(bit != mps));
        self.registers = renormalise(self.bytes, part);
        bit
    }
}
