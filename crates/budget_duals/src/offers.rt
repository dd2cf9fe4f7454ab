// Blocks that offer their steps one after the other.
ghost use Rattle.std.specs.Prelude.{ℕ, ◌≡◌, ◌≢◌, ◌<◌, ◌≤◌, ◌++◌, ◌∷◌, ◌^◌, [], List, Some};
ghost use Rattle.rd_hulls.specs.declared.step.Step.{Step};
ghost use Rattle.allocation_bound.specs.Steps.{Agrees, excess, gains};
ghost use Rattle.budget_duals.specs.declared.offer.Offer.{Offer};
ghost use Rattle.budget_duals.specs.Offers.{IsOffer, IsAtMost, HasBlock};

use crate::Offer;
use rd_hulls::Step;

/// Code-blocks that offer the steps of their hulls one after the other, or say how steep the next
/// one can be at most.
///
/// Which steps a block has never changes: those that were taken, and then those that are left. They
/// need not be stored, nor be known yet. Blocks are numbered from 0.
pub trait Offers {
    /// How many blocks there are.
    ghost blocks: { Self → ℕ };

    /// The steps of a block that were taken.
    ghost done: { Self → ℕ → List Step };

    /// The steps of a block that are left.
    ghost left: { Self → ℕ → List Step };

    /// How much of a block is still to be learned.
    ghost unknown: { Self → ℕ → ℕ };

    /// What a block offers.
    ghost offered: { Self → ℕ → Offer };

    /// Two values keep the same beside what was taken and learned of blocks.
    ghost stays: { Self → Self → Type 0 };

    /// How many blocks there are.
    fn count(&self) -> u32
        ensures { result ≡ blocks self.now };

    /// What a block offers.
    fn offer(&self, block: u32) -> Offer
        requires { block < blocks self.now }
        ensures { result ≡ offered self.now block };

    /// Learns more of a block. Where only a bound is known of its next step, less is unknown
    /// afterwards.
    fn look(&mut self, block: u32)
        requires block { block < blocks self.old }
        ensures blocks { blocks self.new ≡ blocks self.old }
        ensures done { done self.new ≡ done self.old }
        ensures left { left self.new ≡ left self.old }
        ensures learns { IsAtMost (offered self.old block) →
            unknown self.new block < unknown self.old block }
        ensures keeps { (k : ℕ) → k < blocks self.old → unknown self.new k ≤ unknown self.old k }
        ensures others { (k : ℕ) → k ≢ block → offered self.new k ≡ offered self.old k }
        ensures stays { stays self.old self.new };

    /// Takes the step that its block offers.
    fn take(&mut self, step: &Step)
        requires block { step.now.block < blocks self.old }
        requires offered { offered self.old step.now.block ≡ Offer.Step step.now }
        ensures blocks { blocks self.new ≡ blocks self.old }
        ensures left { left self.old step.now.block ≡ step.now ∷ left self.new step.now.block }
        ensures done { done self.new step.now.block ≡ done self.old step.now.block ++ step.now
            ∷ [] }
        ensures other_left { (k : ℕ) → k ≢ step.now.block → left self.new k ≡ left self.old k }
        ensures other_done { (k : ℕ) → k ≢ step.now.block → done self.new k ≡ done self.old k }
        ensures keeps { (k : ℕ) → k < blocks self.old → unknown self.new k ≤ unknown self.old k }
        ensures others { (k : ℕ) → k ≢ step.now.block → offered self.new k ≡ offered self.old k }
        ensures stays { stays self.old self.new };

    /// The sum of the gains of a block's steps that were taken, where it is below 2^90: by how much
    /// its distortion is less than with no passes.
    fn gained(&self, block: u32) -> u128
        requires block { block < blocks self.now }
        requires small { gains (done self.now block) < 2 ^ 90 }
        ensures { result ≡ gains (done self.now block) };

    /// By how much the steps that are left are above a multiplier (over 2^32) that lies between
    /// them and those that were taken: the sum of what 2^32 times each one's gain has above its
    /// bytes times the multiplier, and nothing where it has less. It may learn more of the block.
    fn excess(&mut self, block: u32, multiplier: u128) -> u128
        requires block { block < blocks self.old }
        requires multiplier { multiplier < 2 ^ 96 }
        requires agrees { Agrees multiplier (done self.old block) (left self.old block) }
        ensures excess { result ≡ excess multiplier (left self.old block) }
        ensures blocks { blocks self.new ≡ blocks self.old }
        ensures done { done self.new ≡ done self.old }
        ensures left { left self.new ≡ left self.old }
        ensures stays { stays self.old self.new };

    /// An offer is true of the steps that are left.
    ghost true_offers: { (s : Self) (b : ℕ) → b < blocks s → IsOffer (left s b) (offered s b) };

    /// The steps of a block are its own.
    ghost own_steps: { (s : Self) (b : ℕ) → b < blocks s → HasBlock b (done s b ++ left s b) };

    /// A value keeps the same as itself, and as each that keeps the same as one that does.
    ghost stays_itself: { (s : Self) → stays s s };

    ghost stays_on: { (s t u : Self) → stays s t → stays t u → stays s u };
}
