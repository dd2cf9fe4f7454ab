// What the budgets hold at the present choice, and after one step more.
ghost use Rattle.std.specs.Prelude.{ℕ, ◌≡◌, ◌<◌, List, length, set};
ghost use Rattle.rd_hulls.specs.declared.step.Step.{Step};
ghost use Rattle.budget_duals.specs.Price.{AreCounts, CanTake, HasLaw};
ghost use Rattle.budget_duals.specs.declared.held.Held.{Held};
ghost use Rattle.budget_duals.specs.declared.members.Members.{Members};

use crate::{Held, Members};
use rd_hulls::Step;

/// A choice of passes, one count a block, and what the byte budgets hold at it, headers included.
///
/// Blocks are numbered from 0. No call takes memory or refuses.
pub trait Price {
    /// The highest count of each block, which never changes.
    ghost highest: { Self → List ℕ };

    /// The present count of each block.
    ghost counts: { Self → List ℕ };

    /// What the budgets hold at any counts.
    ghost held_for: { Self → List ℕ → Held };

    /// The budgets of each block.
    ghost inside_of: { Self → ℕ → Members };

    /// What is asked of a step, so that what the budgets hold afterwards follows from the step
    /// itself: as that its bytes are those by which its block's code grows.
    ghost knows: { Self → Step → Type 0 };

    /// Two values keep the same beside their counts and what follows from these.
    ghost keeps: { Self → Self → Type 0 };

    /// How many blocks there are.
    fn count(&self) -> u32
        ensures { result ≡ length (highest self.now) };

    /// What the budgets hold at the present counts.
    fn held(&self) -> Held
        ensures { result ≡ held_for self.now (counts self.now) };

    /// What they would hold with a step taken.
    fn after(&self, step: &Step) -> Held
        requires can { CanTake (highest self.now) (counts self.now) step.now }
        requires known { knows self.now step.now }
        ensures { result ≡ held_for self.now (set (counts self.now) step.now.block step.now.to) };

    /// Takes a step: its block has the count where the step ends.
    fn take(&mut self, step: &Step)
        requires can { CanTake (highest self.old) (counts self.old) step.now }
        requires known { knows self.old step.now }
        ensures counts { counts self.new ≡ set (counts self.old) step.now.block step.now.to }
        ensures keeps { keeps self.old self.new };

    /// The budgets of a block.
    fn inside(&self, block: u32) -> Members
        requires { block < length (highest self.now) }
        ensures { result ≡ inside_of self.now block };

    /// No count is above its block's highest.
    ghost are_counts: { (s : Self) → AreCounts (highest s) (counts s) };

    /// What a step changes is one number for its block's budgets.
    ghost has_law: { (s : Self) → HasLaw (length (highest s)) (inside_of s) (held_for s) };

    /// A value keeps the same as itself, and as each that keeps the same as one that does.
    ghost keeps_itself: { (s : Self) → keeps s s };

    ghost keeps_on: { (s t u : Self) → keeps s t → keeps t u → keeps s u };

    /// The highest counts are among what is kept, and what is held at any counts, the budgets, and
    /// what is asked of a step.
    ghost same_highest: { (s t : Self) → keeps s t → highest t ≡ highest s };

    ghost same_held: { (s t : Self) → keeps s t → held_for t ≡ held_for s };

    ghost same_inside: { (s t : Self) → keeps s t → inside_of t ≡ inside_of s };

    ghost same_knows: { (s t : Self) (step : Step) → keeps s t → knows s step → knows t step };
}
