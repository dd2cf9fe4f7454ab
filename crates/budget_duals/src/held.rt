// The bytes that a codestream holds in its budgets.
ghost use Rattle.std.specs.Prelude.{◌≡◌, ◌≤◌, ◌<◌, ◌+◌, ◌^◌, length, sum};
ghost use Rattle.cine_nums.specs.Profile.{parts_of};
ghost use Rattle.budget_duals.specs.Held.{held_in, held_of};

use cine_nums::{Budget, Profile};

/// The bytes that a codestream holds in each budget, headers included.
///
/// `frame` is the whole codestream. `inner` is the 2K portion of a 4K codestream (main header,
/// first three tile-parts, EOC), and 0 for 2K. `component` has the tile-part of each component,
/// from its SOT marker on; for 4K the first one of each.
#[derive(Clone, Copy, Debug, PartialEq, Eq)]
pub struct Held {
    pub frame: u32,
    pub inner: u32,
    pub component: [u32; 3],
}

impl Held {
    /// What a codestream holds whose main header has so many bytes and whose tile-parts, in order,
    /// have these.
    pub fn of(profile: Profile, main: u32, parts: &[u32]) -> Held
        requires parts { length parts.now ≡ parts_of profile }
        requires short { main + sum parts.now + 2 < 2 ^ 32 }
        ensures { result ≡ held_of profile main parts.now }
    {
        let mut whole = main + 2;
        for part in parts {
            whole += part;
        }
        let component = [parts[0], parts[1], parts[2]];
        let inner = match profile {
            Profile::TwoK => 0,
            Profile::FourK => main + 2 + component[0] + component[1] + component[2],
        };
        Held {
            frame: whole,
            inner,
            component,
        }
    }

    /// The bytes of one budget.
    pub fn bytes(&self, budget: Budget) -> u32
        ensures { result ≡ held_in self.now budget }
    {
        match budget {
            Budget::Frame => self.frame,
            Budget::Inner => self.inner,
            Budget::C0 => self.component[0],
            Budget::C1 => self.component[1],
            Budget::C2 => self.component[2],
        }
    }
}
