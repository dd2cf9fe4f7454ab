// A code-block that is left after some of its passes, and gone on with later.
ghost use Rattle.std.specs.Prelude.{◌≡◌, ◌+◌, ◌-◌, ◌*◌, ◌≤◌, ℕ, Bool, List, take};
ghost use Rattle.mq_coder.specs.Mark.{kept_at};
ghost use Rattle.ebcot_contexts.specs.Contexts.{Shape};
ghost use Rattle.codeblock_views.specs.Magnitudes.{block_planes};
ghost use Rattle.distortion_sums.specs.Coefs.{coefs_of};

use crate::BlockCoder;
use cine_nums::Orient;
use codeblock_views::Coefs;
use mq_coder::{Contexts, Mark};

/// What a code-block needs to be gone on with beside its coefficients, of 1.4 kB: the flags of its
/// places, where its MQ coder was left, and the distortion that is left. It can be kept for
/// many blocks, while a [`BlockCoder`] has a copy of the coefficients.
#[derive(Clone, Copy, Drop)]
pub struct LeftBlock {
    words: [u32; 340],
    passes: u32,
    mark: Mark,
    coder: Contexts,
    distortion: u64,
}

impl LeftBlock {
    /// How many passes were coded.
    pub fn passes(&self) -> u32
        ensures { result ≡ self.now.passes }
    {
        self.passes
    }

    /// The mark after the last pass, and that of no symbols where none was coded.
    pub fn mark(&self) -> &Mark
        ensures { result.now ≡ self.now.mark }
    {
        &self.mark
    }

    /// The distortion that is left after the passes, in units of half a step squared.
    pub fn distortion(&self) -> u64
        ensures { result ≡ self.now.distortion }
    {
        self.distortion
    }

    /// How many of the bytes that the passes were coded to are still needed, the first ones: all
    /// that were put out but the last, which the mark holds.
    pub fn kept(&self) -> u32
        ensures { result ≡ kept_at self.now.mark }
    {
        self.mark.count.saturating_sub(1)
    }
}

impl BlockCoder {
    ghost use Rattle.ebcot_passes.specs.Block.{IsAfter};
    ghost use Rattle.ebcot_passes.specs.Left.{IsLeftAfter};

    /// What the block needs to be gone on with.
    pub fn leave(&self) -> LeftBlock
        ensures leaves { (coefs : List (ℕ × Bool)) (s : Shape) (k : ℕ) (buffer : List ℕ) →
            IsAfter coefs s k self.now buffer → IsLeftAfter coefs s k result buffer }
        ensures passes { result.passes ≡ self.now.passes }
        ensures mark { result.mark ≡ self.now.mark }
    {
        LeftBlock {
            words: self.words,
            passes: self.passes,
            mark: self.mark,
            coder: self.coder,
            distortion: self.distortion,
        }
    }

    /// A block as it was left, of the same coefficients, orientation and bit-planes. The next pass
    /// can be coded into any bytes of which the first ones are those that the passes so far were
    /// coded to, as many as `LeftBlock::kept` has it.
    pub fn go_on<C: Coefs>(left: &LeftBlock, block: &C, orient: Orient, planes: u8) -> BlockCoder
        requires planes { planes ≡ block_planes (C.cells block.now) }
        requires some_planes { 1 ≤ planes }
        requires few_passes { left.now.passes + 2 ≤ 3 * planes }
        ensures goes_on { (s : Shape) (k : ℕ) (kept buffer : List ℕ) →
            s.orient ≡ orient → s.width ≡ C.columns block.now → s.height ≡ C.rows block.now →
            s.planes ≡ planes →
            take (kept_at left.now.mark) buffer ≡ take (kept_at left.now.mark) kept →
            IsLeftAfter (coefs_of (C.cells block.now)) s k left.now kept →
            IsAfter (coefs_of (C.cells block.now)) s k result buffer }
        ensures passes { result.passes ≡ left.now.passes }
        ensures planes { result.planes ≡ planes }
        ensures mark { result.mark ≡ left.now.mark }
    {
        let mut begun = BlockCoder::load(block, orient, planes);
        let words = left.words;
        begun.words = words;
        begun.passes = left.passes;
        begun.mark = left.mark;
        begun.coder = left.coder;
        begun.distortion = left.distortion;
        begun
    }
}
