// The byte budgets of a frame, and their limits.
ghost use Rattle.std.specs.Prelude.{◌≡◌};
ghost use Rattle.cine_nums.specs.Limits.{limit_of, has_inner};

use crate::profile::Profile;

/// A byte budget of the DCI Digital Cinema System Specification, outermost first.
#[derive(Clone, Copy, Debug, PartialEq, Eq)]
pub enum Budget {
    /// The whole codestream.
    Frame,
    /// The 2K portion of a 4K codestream: main header, first three tile-parts, EOC. A 2K codestream
    /// doesn't have it.
    Inner,
    /// The tile-part of component 0; for 4K its first one.
    C0,
    /// The tile-part of component 1; for 4K its first one.
    C1,
    /// The tile-part of component 2; for 4K its first one.
    C2,
}

impl Profile {
    /// The most bytes of a budget at 24 frames per second: 1,302,083 for the whole frame and for
    /// the 2K portion of a 4K frame, 1,041,666 for a component (DCI Digital Cinema System
    /// Specification, section 4).
    pub fn limit(self, budget: Budget) -> u32
        ensures { result ≡ limit_of self budget }
    {
        match budget {
            Budget::Frame | Budget::Inner => 1_302_083,
            Budget::C0 | Budget::C1 | Budget::C2 => 1_041_666,
        }
    }

    /// Whether a frame of the profile has a 2K portion beside the whole, and so the budget
    /// [`Budget::Inner`]: for 4K alone.
    pub fn has_inner(self) -> bool
        ensures { result ≡ has_inner self }
    {
        matches!(self, Profile::FourK)
    }
}

#[cfg(test)]
mod tests {
    use super::*;
    use crate::coding::{precinct_byte, precinct_side};

    #[test]
    fn the_rules_of_the_profiles(rt: HostRuntime) {
        for profile in [Profile::TwoK, Profile::FourK] {
            // 250 million bits a second for a frame, 200 million for a component, 24 frames a
            // second
            assert_eq!(rt; profile.limit(Budget::Frame), 250_000_000 / 8 / 24);
            assert_eq!(rt; profile.limit(Budget::Inner), 250_000_000 / 8 / 24);
            assert_eq!(rt; profile.limit(Budget::C1), 200_000_000 / 8 / 24);
        }
        assert_eq!(rt; (precinct_byte(0), precinct_side(0)), (0x77, 128));
        assert_eq!(rt; (precinct_byte(5), precinct_side(5)), (0x88, 256));
    }
}
