// What the allocator reports of its choice.
use arrayvec::ArrayVec;
use cine_nums::Budget;
use rd_hulls::Step;

/// The step that a budget refused, whose slope is the sum of the multipliers of its block's
/// budgets.
///
/// `grow` is by how many bytes the block's packet header would grow, at least 0. `price` is the
/// step's gain for a byte, for its own bytes and those of `grow`, rounded up.
#[derive(Clone, Copy, Debug, PartialEq, Eq)]
pub struct RefusedStep {
    pub budget: Budget,
    pub step: Step,
    pub grow: u32,
    pub price: u128,
}

impl Default for RefusedStep {
    ghost use Rattle.budget_duals.specs.Certificate.{IsLeastRefused};

    ghost is_default = { IsLeastRefused };

    /// The refused step that fills a place of an `ArrayVec` where none stands.
    fn default() -> RefusedStep {
        RefusedStep {
            budget: Budget::Frame,
            step: Step::default(),
            grow: 0,
            price: 0,
        }
    }
}

/// How far a choice of passes can be from the best one.
///
/// `multipliers` are whole numbers over 2^32, in the order frame, inner, c0, c1, c2; `gap` and
/// `distortion` are of the choice. `refused` has one step for each budget whose multiplier is above
/// 0, in the same order.
#[derive(Debug, Drop)]
pub struct Certificate {
    pub multipliers: [u128; 5],
    pub gap: u128,
    pub distortion: u128,
    pub refused: ArrayVec<RefusedStep, 5>,
}

/// Why there is no choice.
#[derive(Clone, Copy, Debug, PartialEq, Eq)]
pub enum AllocateRefusal {
    /// The empty codestream holds more than a limit: the outermost such budget, and the bytes that
    /// it holds.
    LimitTooSmall(Budget, u32),
    /// Out of memory.
    Memory,
}
