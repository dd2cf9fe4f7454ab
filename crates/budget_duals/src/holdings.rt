// A choice of passes, and what nested budgets hold at it.
ghost use Rattle.std.specs.Prelude.{ℕ, ◌≡◌, ◌<◌, List, length, set};
ghost use Rattle.rd_hulls.specs.declared.step.Step.{Step};
ghost use Rattle.allocation_bound.specs.Budgets.{chain};
ghost use Rattle.budget_duals.specs.Price.{CanTake};
ghost use Rattle.budget_duals.specs.Tree.{IsTree, around_in, limit_at, outermost};

use crate::Tree;
use rd_hulls::Step;

/// A choice of passes, one count a block, and what nested budgets hold at it, headers included.
///
/// Blocks and budgets are numbered from 0. No call takes memory or refuses. Each `Price` is one,
/// with the budgets frame, inner, c0, c1 and c2.
pub trait Holdings {
    /// The highest count of each block.
    ghost most: { Self → List ℕ };

    /// The present count of each block.
    ghost chosen: { Self → List ℕ };

    /// The innermost budget of each block.
    ghost node_of: { Self → ℕ → ℕ };

    /// What each budget holds at any counts.
    ghost held_by: { Self → List ℕ → ℕ → ℕ };

    /// What is asked of a step, so that what the budgets hold afterwards follows from the step
    /// itself.
    ghost knows: { Self → Step → Type 0 };

    /// Two values keep the same beside their counts and what follows from these.
    ghost stays: { Self → Self → Type 0 };

    /// The innermost budget of a block.
    fn node(&self, block: u32) -> u32
        requires { block < length (most self.now) }
        ensures { result ≡ node_of self.now block };

    /// What a budget holds at the present counts, in bytes.
    fn held_now(&self, budget: u32) -> u32
        ensures { result ≡ held_by self.now (chosen self.now) budget };

    /// What a budget would hold with a step taken, in bytes.
    fn held_with(&self, step: &Step, budget: u32) -> u32
        requires can { CanTake (most self.now) (chosen self.now) step.now }
        requires known { knows self.now step.now }
        ensures { result ≡ held_by self.now (set (chosen self.now) step.now.block step.now.to)
            budget };

    /// The outermost of its block's budgets that would hold more than its limit with a step taken.
    fn breaks(&self, tree: &Tree, step: &Step) -> Option<u32>
        requires step { CanTake (most self.now) (chosen self.now) step.now }
        requires known { knows self.now step.now }
        requires tree { IsTree tree.now }
        requires node { node_of self.now step.now.block < length tree.now.limits.now }
        ensures { result ≡ outermost (limit_at tree.now)
            (held_by self.now (set (chosen self.now) step.now.block step.now.to))
            (chain (around_in tree.now) (node_of self.now step.now.block)) };

    /// Takes a step: its block has the count where the step ends.
    fn choose(&mut self, step: &Step)
        requires can { CanTake (most self.old) (chosen self.old) step.now }
        requires known { knows self.old step.now }
        ensures chosen { chosen self.new ≡ set (chosen self.old) step.now.block step.now.to }
        ensures most { most self.new ≡ most self.old }
        ensures node { node_of self.new ≡ node_of self.old }
        ensures held { held_by self.new ≡ held_by self.old }
        ensures knows { (s : Step) → knows self.old s → knows self.new s }
        ensures stays { stays self.old self.new };

    /// A value keeps the same as itself, and as each that keeps the same as one that does.
    ghost stays_itself: { (s : Self) → stays s s };

    ghost stays_on: { (s t u : Self) → stays s t → stays t u → stays s u };
}
