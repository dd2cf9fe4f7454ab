// The bytes that a codestream may hold in its budgets.
ghost use Rattle.std.specs.Prelude.{◌≡◌, ◌↔◌, IsTrue, MatchOption};
ghost use Rattle.budget_duals.specs.Held.{limit_in, limits_of, Breaks, IsWithin, IsOutermostBroken};

use crate::Held;
use cine_nums::{Budget, Profile};

/// The most bytes of each budget. `inner` is None for 2K, which has no such budget.
#[derive(Clone, Copy, Debug, PartialEq, Eq)]
pub struct Limits {
    pub frame: u32,
    pub inner: Option<u32>,
    pub component: [u32; 3],
}

impl Limits {
    /// The limits of a profile at 24 frames per second.
    pub fn of(profile: Profile) -> Limits
        ensures { result ≡ limits_of profile }
    {
        let inner = if profile.has_inner() {
            Some(profile.limit(Budget::Inner))
        } else {
            None
        };
        let component = profile.limit(Budget::C0);
        Limits {
            frame: profile.limit(Budget::Frame),
            inner,
            component: [component; 3],
        }
    }

    /// The limit of one budget; None where there is no such budget.
    pub fn bytes(&self, budget: Budget) -> Option<u32>
        ensures { result ≡ limit_in self.now budget }
    {
        match budget {
            Budget::Frame => Some(self.frame),
            Budget::Inner => self.inner,
            Budget::C0 => Some(self.component[0]),
            Budget::C1 => Some(self.component[1]),
            Budget::C2 => Some(self.component[2]),
        }
    }

    // Whether a budget holds more than its limit.
    fn is_broken(&self, held: &Held, budget: Budget) -> bool
        ensures { IsTrue result ↔ Breaks self.now held.now budget }
    {
        match self.bytes(budget) {
            Some(limit) => held.bytes(budget) > limit,
            None => false,
        }
    }

    /// The outermost budget that holds more than its limit; None where each is within its limit.
    #[tactic(auto, using(crate::proofs::Outermost::all_within, crate::proofs::Outermost::at_frame, crate::proofs::Outermost::at_inner, crate::proofs::Outermost::at_c0, crate::proofs::Outermost::at_c1, crate::proofs::Outermost::at_c2))]
    pub fn broken(&self, held: &Held) -> Option<Budget>
        ensures { MatchOption result (IsWithin self.now held.now)
            (λ budget. IsOutermostBroken self.now held.now budget) }
    {
        if self.is_broken(held, Budget::Frame) {
            Some(Budget::Frame)
        } else if self.is_broken(held, Budget::Inner) {
            Some(Budget::Inner)
        } else if self.is_broken(held, Budget::C0) {
            Some(Budget::C0)
        } else if self.is_broken(held, Budget::C1) {
            Some(Budget::C1)
        } else if self.is_broken(held, Budget::C2) {
            Some(Budget::C2)
        } else {
            None
        }
    }
}
