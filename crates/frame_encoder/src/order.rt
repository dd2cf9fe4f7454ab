// What an encoding is asked for.
ghost use Rattle.std.specs.Prelude.{◌≡◌, ◌≤◌, ◌↔◌, IsTrue, IfSome};
ghost use Rattle.budget_duals.specs.Held.{limit_in, limits_of};
ghost use Rattle.cine_nums.specs.Limits.{limit_of};
ghost use Rattle.frame_encoder.specs.Orders.{AreLimitsFor};

use budget_duals::Limits;
use cine_nums::{Budget, Profile};

/// The profile that a codestream has to obey, and with it sizes and levels, and how many bytes it
/// may hold in each budget.
#[derive(Clone, Copy, Debug, PartialEq, Eq)]
pub struct EncodeOrder {
    pub profile: Profile,
    pub limits: Limits,
}

impl EncodeOrder {
    /// The order with the limits of the profile at 24 frames per second.
    pub fn of(profile: Profile) -> EncodeOrder
        ensures { result ≡ record { profile = profile; limits = limits_of profile } }
    {
        EncodeOrder {
            profile,
            limits: Limits::of(profile),
        }
    }

    // Whether the limit of a budget, if there is one, is at most the profile's.
    fn is_low(&self, budget: Budget) -> bool
        ensures { IsTrue result
            ↔ IfSome (limit_in self.now.limits budget) (λ n. n ≤ limit_of self.now.profile budget) }
    {
        match self.limits.bytes(budget) {
            Some(limit) => limit <= self.profile.limit(budget),
            None => true,
        }
    }

    /// Whether no limit is above the profile's, and there is one for the 2K portion exactly if the
    /// profile has such a budget.
    pub fn is_allowed(&self) -> bool
        ensures { IsTrue result ↔ AreLimitsFor self.now.profile self.now.limits }
    {
        if !self.is_low(Budget::Frame) {
            return false;
        }
        if !self.is_low(Budget::Inner) {
            return false;
        }
        if !self.is_low(Budget::C0) {
            return false;
        }
        if !self.is_low(Budget::C1) {
            return false;
        }
        if !self.is_low(Budget::C2) {
            return false;
        }
        self.limits.inner.is_some() == self.profile.has_inner()
    }
}
