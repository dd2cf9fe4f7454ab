// Blocks whose coding passes are coded on demand.
ghost use Rattle.std.specs.Prelude.{ℕ, ◌≡◌, ◌≢◌, ◌<◌, ◌≤◌, Bool, false, List, length};
ghost use Rattle.rd_hulls.specs.declared.point.Point.{Point};
ghost use Rattle.partial_hulls.specs.Known.{IsCompletion};

use arrayvec::ArrayVec;
use rd_hulls::Point;

/// Code-blocks, numbered from 0, whose coding passes are coded when they are asked for.
///
/// The points of all passes of a block never change, whether the passes are coded or not. Those of
/// its first passes are known. No call takes memory or refuses.
pub trait Passes {
    /// How many blocks there are.
    ghost blocks: { Self → ℕ };

    /// The points of all passes of a block.
    ghost all: { Self → ℕ → List Point };

    /// Those that are known.
    ghost known: { Self → ℕ → List Point };

    /// A lower bound on the bytes of every ended code of more passes.
    ghost least: { Self → ℕ → ℕ };

    /// Whether all passes are coded.
    ghost whole: { Self → ℕ → Bool };

    /// Two values keep the same beside what is known.
    ghost stays: { Self → Self → Type 0 };

    /// How many blocks there are.
    fn count(&self) -> u32
        ensures { result ≡ blocks self.now };

    /// The points that are known of a block.
    fn points(&self, block: u32) -> ArrayVec<Point, 59>
        requires { block < blocks self.now }
        ensures { result.items ≡ known self.now block };

    /// A lower bound on the bytes of every ended code of more passes.
    fn least_bytes(&self, block: u32) -> u32
        requires { block < blocks self.now }
        ensures { result ≡ least self.now block };

    /// Whether all passes of a block are coded.
    fn is_whole(&self, block: u32) -> bool
        requires { block < blocks self.now }
        ensures { result ≡ whole self.now block };

    /// Codes at least one pass more of a block.
    fn code_more(&mut self, block: u32)
        requires block { block < blocks self.old }
        requires more { whole self.old block ≡ false }
        ensures blocks { blocks self.new ≡ blocks self.old }
        ensures all { all self.new ≡ all self.old }
        ensures grows { length (known self.old block) < length (known self.new block) }
        ensures others { (k : ℕ) → k ≢ block → known self.new k ≡ known self.old k }
        ensures whole_others { (k : ℕ) → k ≢ block → whole self.new k ≡ whole self.old k }
        ensures stays { stays self.old self.new };

    /// The known points are the first ones, no later one has fewer bytes than the bound, and all
    /// passes leave no distortion.
    ghost completes: { (s : Self) (b : ℕ) → b < blocks s →
        IsCompletion (known s b) (least s b) (whole s b) (all s b) };

    /// The point of no passes is known, and a block has at most 58 passes.
    ghost begun: { (s : Self) (b : ℕ) → b < blocks s → 0 < length (known s b) };

    ghost few: { (s : Self) (b : ℕ) → b < blocks s → length (all s b) ≤ 59 };

    /// The bound is from 1 to 131,072.
    ghost least_some: { (s : Self) (b : ℕ) → b < blocks s → 1 ≤ least s b };

    ghost least_short: { (s : Self) (b : ℕ) → b < blocks s → least s b ≤ 131072 };

    /// A value keeps the same as itself, and as each that keeps the same as one that does.
    ghost stays_itself: { (s : Self) → stays s s };

    ghost stays_on: { (s t u : Self) → stays s t → stays t u → stays s u };
}
