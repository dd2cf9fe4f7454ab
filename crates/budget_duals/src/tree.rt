// Nested byte budgets, numbered from the outermost.
ghost use Rattle.std.specs.Prelude.{ℕ, ◌≡◌, ◌<◌, ◌↔◌, IsTrue, length, Some, None, is_some, nat_lt};
ghost use Rattle.std.specs.Prelude.{if◌then◌else◌};
ghost use Rattle.std.specs.List.{AllByRecursion};
ghost use Rattle.allocation_bound.specs.Budgets.{chain, first};
ghost use Rattle.budget_duals.specs.Tree.{IsTree, around_in, limit_at, number_at, closed_by};
ghost use Rattle.budget_duals.specs.Tree.{last_of, outermost};

use rd_hulls::Step;

/// Nested byte budgets, numbered from 0, the outermost: the budgets around each, the nearest first,
/// and the limit of each in bytes.
#[derive(Clone, Copy, Debug)]
pub struct Tree<'a> {
    pub around: &'a [&'a [u32]],
    pub limits: &'a [u32],
}

// Whether a budget is closed.
fn is_closed(closed: &[Option<Step>], budget: u32) -> bool
    requires { budget < length closed.now }
    ensures { result ≡ is_some (closed_by closed.now budget) }
{
    closed[budget as usize].is_some()
}

// Whether none of some budgets is closed.
#[tactic(auto, using(crate::proofs::TreeLemmas::first_more, crate::proofs::TreeLemmas::first_at))]
fn none_closed(budgets: &[u32], closed: &[Option<Step>]) -> bool
    requires below { AllByRecursion (λ j. j < length closed.now) budgets.now }
    ensures { IsTrue result ↔ (first (closed_by closed.now) budgets.now ≡ None) }
{
    for j in budgets {
        if is_closed(closed, *j) {
            return false;
        }
    }
    true
}

// The number of a budget, and 0 where the list is shorter.
#[tactic(auto, using(crate::proofs::TreeLemmas::number_past))]
fn number(numbers: &[u32], budget: u32) -> u32
    ensures { result ≡ number_at numbers.now budget }
{
    if (budget as usize) < numbers.len() {
        numbers[budget as usize]
    } else {
        0
    }
}

// A budget where it holds more than its limit, else the one that was found before.
fn broken_or(budget: u32, found: Option<u32>, limits: &[u32], held: &[u32]) -> Option<u32>
    requires { budget < length limits.now }
    ensures { result ≡ last_of
        (if nat_lt (number_at limits.now budget) (number_at held.now budget) then Some budget else
        None) found }
{
    if number(held, budget) > limits[budget as usize] {
        Some(budget)
    } else {
        found
    }
}

// The last of some budgets that holds more than its limit.
fn last_broken(budgets: &[u32], limits: &[u32], held: &[u32]) -> Option<u32>
    requires below { AllByRecursion (λ j. j < length limits.now) budgets.now }
    ensures { result ≡ outermost (number_at limits.now) (number_at held.now) budgets.now }
{
    let mut found = None;
    for j in budgets {
        found = broken_or(*j, found, limits, held);
    }
    found
}

impl<'a> Tree<'a> {
    // Whether no budget of a block is closed, where its innermost budget is this one.
    pub(crate) fn is_open(&self, node: u32, closed: &[Option<Step>]) -> bool
        requires tree { IsTree self.now }
        requires node { node < length self.now.limits.now }
        requires closed { length closed.now ≡ length self.now.limits.now }
        ensures { IsTrue result ↔
            (first (closed_by closed.now) (chain (around_in self.now) node) ≡ None) }
    {
        closed[node as usize].is_none() && none_closed(self.around[node as usize], closed)
    }

    /// The outermost budget of a block that holds more than its limit, where `held` has what each
    /// budget holds (nothing where it is shorter) and `node` is the block's innermost one.
    pub fn outermost_broken(&self, node: u32, held: &[u32]) -> Option<u32>
        requires tree { IsTree self.now }
        requires node { node < length self.now.limits.now }
        ensures { result ≡ outermost (limit_at self.now) (number_at held.now)
            (chain (around_in self.now) node) }
    {
        match last_broken(self.around[node as usize], self.limits, held) {
            Some(j) => Some(j),
            None => broken_or(node, None, self.limits, held),
        }
    }
}
