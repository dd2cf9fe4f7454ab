// The budgets of a code-block.
ghost use Rattle.std.specs.Prelude.{◌≡◌, ◌<◌};
ghost use Rattle.cine_nums.specs.Profile.{levels_of};
ghost use Rattle.budget_duals.specs.Members.{members_of, is_in};

use cine_nums::{Budget, Profile};

/// The budgets in which a code-block's bytes stand, beside the whole frame: the 2K portion of a 4K
/// frame, and the tile-part of a component (0, 1 or 2).
#[derive(Clone, Copy, Debug, PartialEq, Eq)]
pub struct Members {
    pub inner: bool,
    pub component: Option<u8>,
}

impl Members {
    /// The budgets of a block of a component (from 0) and a resolution (from 0) of a frame with so
    /// many levels of the wavelet transform.
    ///
    /// In a 2K frame it is its component. In a 4K frame it is the 2K portion and the component, and
    /// for the largest resolution neither.
    pub fn of(profile: Profile, levels: u8, component: u8, res: u8) -> Members
        ensures { result ≡ members_of profile levels component res }
    {
        match profile {
            Profile::TwoK => Members {
                inner: false,
                component: Some(component),
            },
            Profile::FourK => Members {
                inner: res < levels,
                component: if res < levels { Some(component) } else { None },
            },
        }
    }

    /// Whether the block's bytes stand in a budget.
    pub fn has(&self, budget: Budget) -> bool
        ensures { result ≡ is_in self.now budget }
    {
        match budget {
            Budget::Frame => true,
            Budget::Inner => self.inner,
            Budget::C0 => self.component == Some(0),
            Budget::C1 => self.component == Some(1),
            Budget::C2 => self.component == Some(2),
        }
    }
}
