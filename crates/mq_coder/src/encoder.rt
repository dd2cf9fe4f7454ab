// The encoder.
ghost use Rattle.std.specs.Prelude.{◌≡◌, ℕ, ◌+◌, ◌-◌, ◌*◌, ◌<◌, ◌≤◌, ◌^◌, Bool, IsTrue, ◌↔◌, List};
ghost use Rattle.std.specs.Prelude.{[], ◌∷◌, ◌++◌, length, take};

use crate::contexts::Contexts;
use crate::mark::Mark;
use crate::registers::Registers;
use crate::renormalise::{THREE_QUARTERS, renormalise};
use crate::subintervals::{stays, subinterval, upper_subinterval};

/// An encoder of ISO/IEC 15444-1, Annex C.2, over a buffer that its caller lends: `bytes` holds
/// what was put out in its first `registers.count` places.
#[derive(Drop)]
pub struct Encoder<'a> {
    bytes: &'a mut [u8],
    contexts: Contexts,
    registers: Registers,
    ghost few: { length bytes.now < 2 ^ 31 },
    ghost filled: { registers.count ≤ length bytes.now },
    ghost wide: { 2 ^ 15 ≤ registers.a },
}

impl<'a> Encoder<'a> {
    ghost use Rattle.mq_coder.specs.Code.{coded, code};
    ghost use Rattle.mq_coder.specs.Encoder.{Stands, state_of, count_of};
    ghost use Rattle.mq_coder.specs.Mark.{IsMarkOf, IsLeft};
    ghost use Rattle.mq_coder.specs.declared.mark.Mark.{Mark};

    /// An encoder that writes to `bytes`, of which there are fewer than 2^31, with new contexts.
    pub fn new(bytes: &'a mut [u8]) -> Encoder<'a>
        requires { length bytes.old < 2 ^ 31 }
        ensures stands { Stands result [] }
        ensures same_reference { result.bytes.ghost_name ≡ bytes.entry.ghost_name }
        ensures bytes { result.bytes.now ≡ bytes.old }
    {
        Encoder {
            bytes,
            contexts: Contexts::new(),
            registers: Registers {
                a: THREE_QUARTERS,
                c: 0,
                ct: 12,
                count: 0,
            },
        }
    }

    /// An encoder that goes on where another was left, over the same bytes: `mark` and `contexts`
    /// are those of the other one. It stands for each list for which the other stood.
    pub fn resume(bytes: &'a mut [u8], mark: &Mark, contexts: &Contexts) -> Encoder<'a>
        requires few { length bytes.old < 2 ^ 31 }
        requires filled { mark.now.count ≤ length bytes.old }
        ensures stands { (symbols : List (ℕ × Bool)) →
            IsLeft mark.now contexts.now bytes.old symbols → Stands result symbols }
        // each mark up to this one stands for its list as before
        ensures marks { (m : Mark) (symbols : List (ℕ × Bool)) → m.count ≤ mark.now.count →
            IsMarkOf m bytes.old symbols → IsMarkOf m result.bytes.now symbols }
        ensures count { count_of result ≡ mark.now.count }
        ensures fixed { take (mark.now.count - 1) result.bytes.now
            ≡ take (mark.now.count - 1) bytes.old }
        ensures room { length result.bytes.now ≡ length bytes.old }
        ensures same_reference { result.bytes.ghost_name ≡ bytes.entry.ghost_name }
    {
        if mark.count > 0 {
            bytes[mark.count as usize - 1] = mark.last;
        }
        Encoder {
            bytes,
            contexts: *contexts,
            registers: Registers {
                a: mark.a,
                c: mark.c,
                ct: u32::from(mark.ct),
                count: mark.count,
            },
        }
    }

    /// The contexts, which another encoder needs beside the mark to go on.
    pub fn contexts(&self) -> Contexts
        ensures contexts { result ≡ self.now.contexts }
        ensures left { (m : Mark) (symbols : List (ℕ × Bool)) → Stands self.now symbols →
            IsMarkOf m self.now.bytes.now symbols → IsLeft m result self.now.bytes.now symbols }
    {
        self.contexts
    }

    /// The number of bytes put out.
    pub fn count(&self) -> u32
        ensures count { result ≡ count_of self.now }
        ensures stands { (symbols : List (ℕ × Bool)) → Stands self.now symbols →
            result ≡ length (coded symbols).bytes }
    {
        self.registers.count
    }

    /// Whether the buffer has room for the three bytes that a symbol may put out.
    pub fn has_room(&self) -> bool
        ensures { IsTrue result ↔ (count_of self.now + 3 ≤ length self.now.bytes.now) }
    {
        self.registers.count as usize + 3 <= self.bytes.len()
    }

    /// Codes the symbol `bit` in context `cx`, below 19. The buffer has room for three more bytes.
    #[inline(always)]
    pub fn put(&mut self, cx: u8, bit: bool)
        requires context { cx < 19 }
        requires room { count_of self.old + 3 ≤ length self.old.bytes.now }
        ensures stands { (symbols : List (ℕ × Bool)) → Stands self.old symbols →
            Stands self.new (symbols ++ (cx, bit) ∷ []) }
        ensures fixed { take (count_of self.old - 1) self.new.bytes.now
            ≡ take (count_of self.old - 1) self.old.bytes.now }
        // a mark that was taken before stands for the same list as it did
        ensures marks { (m : Mark) (symbols : List (ℕ × Bool)) → m.count ≤ count_of self.old →
            IsMarkOf m self.old.bytes.now symbols → IsMarkOf m self.new.bytes.now symbols }
        ensures grows { count_of self.old ≤ count_of self.new }
        ensures three { count_of self.new ≤ count_of self.old + 3 }
        ensures room { length self.new.bytes.now ≡ length self.old.bytes.now }
        ensures same_reference { self.new.bytes.ghost_name ≡ self.old.bytes.ghost_name }
    {
        let context = self.contexts.get(cx);
        let qe = context.estimate();
        let is_lps = bit != context.mps();
        let r = self.registers;
        if stays(r.a - qe, is_lps) {
            self.registers = upper_subinterval(r, qe);
            return;
        }
        self.contexts.set(cx, context.next(is_lps));
        let part = subinterval(r, qe, is_lps);
        let bytes = &mut *self.bytes;
        self.registers = renormalise(bytes, part);
    }

    /// Where the encoder stands.
    pub fn mark(&self) -> Mark
        ensures stands { (symbols : List (ℕ × Bool)) → Stands self.now symbols →
            IsMarkOf result self.now.bytes.now symbols }
        ensures count { result.count ≡ count_of self.now }
        // each code from here on is longer than what was put out
        ensures later { (symbols later : List (ℕ × Bool)) → Stands self.now symbols →
            result.count + 1 ≤ length (code (symbols ++ later)) }
    {
        let r = self.registers;
        let last = if r.count == 0 {
            0
        } else {
            self.bytes[r.count as usize - 1]
        };
        Mark {
            a: r.a,
            c: r.c,
            ct: r.ct as u8,
            last,
            count: r.count,
        }
    }

    /// The bytes put out, the first of the buffer.
    pub fn finish(self) -> &'a [u8]
        ensures bytes { result.now ≡ take (count_of self.entry) self.entry.bytes.now }
        // each mark of the encoder stands for its list beside these bytes
        ensures marks { (m : Mark) (symbols : List (ℕ × Bool)) → m.count ≤ count_of self.entry →
            IsMarkOf m self.entry.bytes.now symbols → IsMarkOf m result.now symbols }
    {
        let bytes = self.bytes;
        &bytes[..self.registers.count as usize]
    }
}
