// The words of profiles and byte budgets.
ghost use Rattle.std.specs.Prelude.{◌≡◌};
ghost use Rattle.cert_text.specs.Words.{profile_word, budget_word};

use cine_nums::{Budget, Profile};

/// The word of a profile.
pub fn profile_word(profile: Profile) -> &'static str
    ensures { result.now ≡ profile_word profile }
{
    match profile {
        Profile::TwoK => "2k",
        Profile::FourK => "4k",
    }
}

/// The word of a budget.
pub fn budget_word(budget: Budget) -> &'static str
    ensures { result.now ≡ budget_word budget }
{
    match budget {
        Budget::Frame => "frame",
        Budget::Inner => "inner",
        Budget::C0 => "c0",
        Budget::C1 => "c1",
        Budget::C2 => "c2",
    }
}
