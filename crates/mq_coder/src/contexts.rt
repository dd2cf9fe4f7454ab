// The contexts of a coder or decoder.
ghost use Rattle.std.specs.Prelude.{◌≡◌, ◌<◌, ◌≤◌, ℕ, Bool, List, set};
ghost use Rattle.mq_coder.specs.States.{start_contexts, context_at};

use crate::states::Context;
use std::marker::Model;

/// The 19 contexts of ISO/IEC 15444-1, Annex D, each with its state, below 47, and its more
/// probable symbol. A contract sees the list of these pairs.
#[derive(Clone, Copy, Debug, Drop)]
pub struct Contexts {
    contexts: [Context; 19],
}

impl Model for Contexts {
    ghost Value = { List (ℕ × Bool) };

    ghost view = { λ s. s.contexts };

    ghost inverse = { λ contexts. record { contexts = contexts } };
}

impl Contexts {
    /// Each context in its starting state, with 0 as its more probable symbol (Table D.7).
    pub fn new() -> Contexts
        ensures { result ≡ start_contexts }
    {
        let mut contexts = [Context::numbered(0); 19];
        contexts[0] = Context::numbered(8);
        contexts[17] = Context::numbered(6);
        contexts[18] = Context::numbered(92);
        Contexts { contexts }
    }

    /// Context `cx`, below 19.
    #[inline(always)]
    pub fn get(&self, cx: u8) -> Context
        requires { cx < 19 }
        ensures { result ≡ context_at self.now cx }
    {
        self.contexts[cx as usize]
    }

    /// Puts `context` in the place of context `cx`, below 19; the others stay.
    #[inline(always)]
    pub fn set(&mut self, cx: u8, context: Context)
        requires { cx < 19 }
        ensures { self.new ≡ set self.old cx context }
    {
        self.contexts[cx as usize] = context;
    }
}
