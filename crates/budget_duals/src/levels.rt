// Levels of closed budgets, and their multipliers.
ghost use Rattle.std.specs.Prelude.{ℕ, ◌≡◌, ◌<◌, ◌^◌, length};
ghost use Rattle.std.specs.List.{AllByRecursion};
ghost use Rattle.allocation_bound.specs.Budgets.{base, chain, multiplier};
ghost use Rattle.allocation_bound.specs.Steps.{level};
ghost use Rattle.budget_duals.specs.Tree.{IsTree, around_in, closed_by};

use crate::Tree;
use rd_hulls::Step;

// A step's gain for a byte, over 2^32, rounded down.
fn level_of(step: &Step) -> u128
    ensures value { result ≡ level step.now }
    ensures small { result < 2 ^ 96 }
{
    0x1_0000_0000 * step.gain / step.len as u128
}

// The step that closed a budget, if one did.
pub(crate) fn closed_at(closed: &[Option<Step>], budget: u32) -> Option<Step>
    requires { budget < length closed.now }
    ensures { result ≡ closed_by closed.now budget }
{
    closed[budget as usize]
}

// The level of the first closed one of some budgets, and 0 where none is closed.
fn base_of(budgets: &[u32], closed: &[Option<Step>]) -> u128
    requires below { AllByRecursion (λ j. j < length closed.now) budgets.now }
    ensures value { result ≡ base (closed_by closed.now) budgets.now }
    ensures small { result < 2 ^ 96 }
{
    for j in budgets {
        if let Some(step) = closed_at(closed, *j) {
            return level_of(&step);
        }
    }
    0
}

// The sum of the multipliers of a block's budgets, where its innermost budget is this one: the
// level of the nearest closed one.
pub(crate) fn rate_at(tree: &Tree, node: u32, closed: &[Option<Step>]) -> u128
    requires tree { IsTree tree.now }
    requires node { node < length tree.now.limits.now }
    requires closed { length closed.now ≡ length tree.now.limits.now }
    ensures value { result ≡ base (closed_by closed.now) (chain (around_in tree.now) node) }
    ensures small { result < 2 ^ 96 }
{
    match closed_at(closed, node) {
        Some(step) => level_of(&step),
        None => base_of(tree.around[node as usize], closed),
    }
}

// The multiplier of a budget.
pub(crate) fn multiplier_at(tree: &Tree, budget: u32, closed: &[Option<Step>]) -> u128
    requires tree { IsTree tree.now }
    requires budget { budget < length tree.now.limits.now }
    requires closed { length closed.now ≡ length tree.now.limits.now }
    ensures value { result ≡ multiplier (around_in tree.now) (closed_by closed.now) budget }
    ensures small { result < 2 ^ 96 }
{
    match closed_at(closed, budget) {
        Some(step) => level_of(&step).saturating_sub(base_of(tree.around[budget as usize], closed)),
        None => 0,
    }
}
