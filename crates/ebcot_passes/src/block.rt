// A code-block whose passes are coded one at a time.
ghost use Rattle.std.specs.Prelude.{◌≡◌, suc, ◌+◌, ◌-◌, ◌*◌, ◌<◌, ◌≤◌, ◌^◌, ◌↔◌, IsTrue, ℕ, Bool};
ghost use Rattle.std.specs.Prelude.{List, ◌++◌, length, get_or};
ghost use Rattle.mq_coder.specs.Code.{code};
ghost use Rattle.mq_coder.specs.Mark.{IsMarkOf};
ghost use Rattle.mq_coder.specs.declared.mark.Mark.{Mark};
ghost use Rattle.ebcot_contexts.specs.Contexts.{Shape};
ghost use Rattle.ebcot_contexts.specs.Meaning.{symbols_of, IsBlock};
ghost use Rattle.codeblock_views.specs.Magnitudes.{block_planes};
ghost use Rattle.distortion_sums.specs.Coefs.{coefs_of};
ghost use Rattle.distortion_sums.specs.Distortion.{distortion};
ghost use Rattle.ebcot_passes.specs.Coding.{AreCoefs};

use crate::coded::CodedPass;
use crate::load::fill;
use crate::passes::code_next;
use crate::undecoded::undecoded_distortion;
use cine_nums::Orient;
use codeblock_views::Coefs;
use flag_words::{blank, significance_contexts};
use mq_coder::{Contexts, Encoder, Mark};

/// A code-block after some of its coding passes: its coefficients, what is known of them, where its
/// MQ coder was left, and the distortion that is left. It can be left and gone on with at any time,
/// in any order among blocks.
#[derive(Drop)]
pub struct BlockCoder {
    grid: [u32; 1024],
    pub(crate) words: [u32; 340],
    blank: [u32; 340],
    contexts: &'static [u8; 512],
    width: usize,
    height: usize,
    planes: u32,
    pub(crate) passes: u32,
    pub(crate) mark: Mark,
    pub(crate) coder: Contexts,
    pub(crate) distortion: u64,
    ghost narrow: { width ≤ 32 },
    ghost low: { height ≤ 32 },
    ghost few_planes: { planes ≤ 20 },
    ghost few_passes: { passes + 2 ≤ 3 * planes },
    ghost few: { (k : ℕ) → k < 512 → get_or contexts.now k 0 < 19 },
}

impl BlockCoder {
    ghost use Rattle.ebcot_passes.specs.Block.{IsAfter};

    /// A block of `width` by `height` places, 1 to 32 each, in a band of orientation `orient`, of
    /// `planes` bit-planes, 1 to 20, with no pass coded. Place (x, y) has its coefficient in word
    /// 32 y + x of the grid: its magnitude, and its sign in the top bit. `start` is that of the
    /// block while nothing of it is known.
    pub(crate) fn begin(
        orient: Orient,
        width: usize,
        height: usize,
        planes: u32,
        grid: &[u32; 1024],
        start: u64,
    ) -> BlockCoder
        requires narrow { width ≤ 32 }
        requires low { height ≤ 32 }
        requires some_planes { 1 ≤ planes }
        requires few_planes { planes ≤ 20 }
        ensures begins { (coefs : List (ℕ × Bool)) (s : Shape) (buffer : List ℕ) →
            s.orient ≡ orient → s.width ≡ width → s.height ≡ height → s.planes ≡ planes →
            AreCoefs width height coefs grid.now → IsBlock coefs s →
            start ≡ distortion coefs s 0 → IsAfter coefs s 0 result buffer }
        ensures passes { result.passes ≡ 0 }
        ensures planes { result.planes ≡ planes }
        ensures count { result.mark.count ≡ 0 }
    {
        let flags = blank(width, height);
        BlockCoder {
            grid: *grid,
            words: flags,
            blank: flags,
            contexts: significance_contexts(orient),
            width,
            height,
            planes,
            passes: 0,
            mark: Mark::default(),
            coder: Contexts::new(),
            distortion: start,
        }
    }

    /// A block with no pass coded, in a band of orientation `orient`: its coefficients are copied.
    /// `planes` is the number of its bit-planes, at least 1.
    pub fn load<C: Coefs>(block: &C, orient: Orient, planes: u8) -> BlockCoder
        requires planes { planes ≡ block_planes (C.cells block.now) }
        requires some_planes { 1 ≤ planes }
        ensures loads { (s : Shape) (buffer : List ℕ) →
            s.orient ≡ orient → s.width ≡ C.columns block.now → s.height ≡ C.rows block.now →
            s.planes ≡ planes → IsAfter (coefs_of (C.cells block.now)) s 0 result buffer }
        ensures passes { result.passes ≡ 0 }
        ensures planes { result.planes ≡ planes }
        ensures count { result.mark.count ≡ 0 }
    {
        let mut grid = [0; 1024];
        fill(block, &mut grid);
        let start = undecoded_distortion(block);
        let width = block.width() as usize;
        let height = block.height() as usize;
        BlockCoder::begin(orient, width, height, u32::from(planes), &grid, start)
    }

    /// The distortion that is left after the passes so far, in units of half a step squared: the
    /// sum over the block's places of the squared error of an index of which only the bits of these
    /// passes are known.
    pub fn distortion(&self) -> u64
        ensures { result ≡ self.now.distortion }
    {
        self.distortion
    }

    /// Whether the block has a further pass: it has three for each bit-plane, less two.
    pub fn has_more(&self) -> bool
        ensures { IsTrue result ↔ (self.now.passes + 2 < 3 * self.now.planes) }
    {
        self.passes + 2 < 3 * self.planes
    }

    /// Whether `bytes`, to which the passes so far were coded, has room for a further pass.
    pub fn has_room(&self, bytes: &[u8]) -> bool
        ensures { IsTrue result ↔ (self.now.mark.count + 9216 ≤ length bytes.now) }
    {
        self.mark.count as usize + 9216 <= bytes.len()
    }

    /// Codes the next pass, into the bytes that the passes before it were coded to: at most 9,216
    /// bytes more. Returns the mark after it, and the distortion that is left.
    pub fn code_pass(&mut self, bytes: &mut [u8]) -> CodedPass
        requires more { self.old.passes + 2 < 3 * self.old.planes }
        requires room { self.old.mark.count + 9216 ≤ length bytes.old }
        requires few { length bytes.old < 2 ^ 31 }
        ensures codes { (coefs : List (ℕ × Bool)) (s : Shape) (k : ℕ) →
            IsAfter coefs s k self.old bytes.old → IsAfter coefs s (suc k) self.new bytes.new }
        ensures mark { (coefs : List (ℕ × Bool)) (s : Shape) (k : ℕ) →
            IsAfter coefs s k self.old bytes.old →
            IsMarkOf result.mark bytes.new (symbols_of coefs s (suc k)) }
        ensures distortion { (coefs : List (ℕ × Bool)) (s : Shape) (k : ℕ) →
            IsAfter coefs s k self.old bytes.old → result.distortion ≡ distortion coefs s (suc k) }
        // no block has more bytes
        ensures few { (coefs : List (ℕ × Bool)) (s : Shape) (k : ℕ) →
            IsAfter coefs s k self.old bytes.old → result.mark.count ≤ 68023 }
        // every code of more passes is longer than what was put out
        ensures later { (coefs : List (ℕ × Bool)) (s : Shape) (k : ℕ) (later : List (ℕ × Bool)) →
            IsAfter coefs s k self.old bytes.old →
            result.mark.count + 1 ≤ length (code (symbols_of coefs s (suc k) ++ later)) }
        // bytes that were put out never get fewer
        ensures grows { self.old.mark.count ≤ result.mark.count }
        // the marks of the passes before stand as they did
        ensures marks { (m : Mark) (symbols : List (ℕ × Bool)) → m.count ≤ self.old.mark.count →
            IsMarkOf m bytes.old symbols → IsMarkOf m bytes.new symbols }
        ensures same { result.mark ≡ self.new.mark }
        ensures next { self.new.passes ≡ self.old.passes + 1 }
        ensures planes { self.new.planes ≡ self.old.planes }
        ensures length { length bytes.new ≡ length bytes.old }
    {
        let mut encoder = Encoder::resume(bytes, &self.mark, &self.coder);
        code_next(
            &mut encoder,
            &mut self.distortion,
            &mut self.words,
            &self.blank,
            &self.grid,
            self.contexts,
            self.width,
            self.height,
            self.planes,
            self.passes,
        );
        self.mark = encoder.mark();
        self.coder = encoder.contexts();
        self.passes += 1;
        CodedPass {
            mark: self.mark,
            distortion: self.distortion,
        }
    }
}
