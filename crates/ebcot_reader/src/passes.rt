// The three coding passes of a bit-plane.
ghost use Rattle.std.specs.Prelude.{◌≡◌, suc, ◌+◌, ◌-◌, ◌*◌, ◌<◌, ◌≤◌, ℕ, Bool, List, length};
ghost use Rattle.std.specs.Prelude.{get_or};
ghost use Rattle.mq_coder.specs.Decisions.{Interval};
ghost use Rattle.ebcot_contexts.specs.Cells.{Cell};
ghost use Rattle.ebcot_contexts.specs.Contexts.{Shape};
ghost use Rattle.ebcot_contexts.specs.Passes.{significance, refinement, cleanup, scan, columns};
ghost use Rattle.ebcot_contexts.specs.Passes.{start};
ghost use Rattle.flag_words.specs.Words.{AreFlags};
ghost use Rattle.ebcot_reader.specs.Columns.{AreContexts};
ghost use Rattle.ebcot_reader.specs.Runs.{IsSettled, plane_before};
ghost use Rattle.ebcot_reader.specs.Reading.{Holds, after, state_after};

use crate::stripes::{cleanup_stripe, refinement_stripe, significance_stripe};
use flag_words::next_plane;
use mq_decoder::Decoder;

/// The significance propagation pass (ISO/IEC 15444-1, Annex D.3.1) of plane `p`, over a block of
/// `width` by `height` places, 1 to 32 each.
pub fn significance_pass(
    decoder: &mut Decoder<'_>,
    words: &mut [u32; 340],
    grid: &mut [u32; 1024],
    contexts: &[u8; 512],
    width: usize,
    height: usize,
    p: u32,
)
    requires width { width ≤ 32 }
    requires height { height ≤ 32 }
    requires contexts { (k : ℕ) → k < 512 → get_or contexts.now k 0 < 19 }
    requires plane { p < 31 }
    ensures { (bytes : List ℕ) (s : Shape) (st : List Cell × Interval) →
        s.width ≡ width → s.height ≡ height → AreContexts s.orient contexts.now →
        Holds bytes s p st words.old grid.old decoder.old →
        Holds bytes s p (after bytes st (columns significance s p (scan s.width s.height)))
        words.new grid.new decoder.new }
{
    for stripe in 0..(height + 3) / 4 {
        significance_stripe(decoder, words, grid, contexts, width, stripe, p);
    }
}

/// The magnitude refinement pass (D.3.3) of plane `p`, over a block of `width` by `height` places,
/// 1 to 32 each.
pub fn refinement_pass(
    decoder: &mut Decoder<'_>,
    words: &mut [u32; 340],
    grid: &mut [u32; 1024],
    width: usize,
    height: usize,
    p: u32,
)
    requires width { width ≤ 32 }
    requires height { height ≤ 32 }
    requires plane { p < 31 }
    ensures { (bytes : List ℕ) (s : Shape) (st : List Cell × Interval) →
        s.width ≡ width → s.height ≡ height →
        Holds bytes s p st words.old grid.old decoder.old →
        Holds bytes s p (after bytes st (columns refinement s p (scan s.width s.height)))
        words.new grid.new decoder.new }
{
    for stripe in 0..(height + 3) / 4 {
        refinement_stripe(decoder, words, grid, width, stripe, p);
    }
}

/// The cleanup pass (D.3.4) of plane `p`, over a block of `width` by `height` places, 1 to 32 each.
pub fn cleanup_pass(
    decoder: &mut Decoder<'_>,
    words: &mut [u32; 340],
    grid: &mut [u32; 1024],
    contexts: &[u8; 512],
    width: usize,
    height: usize,
    p: u32,
)
    requires width { width ≤ 32 }
    requires height { height ≤ 32 }
    requires contexts { (k : ℕ) → k < 512 → get_or contexts.now k 0 < 19 }
    requires plane { p < 31 }
    ensures { (bytes : List ℕ) (s : Shape) (st : List Cell × Interval) →
        s.width ≡ width → s.height ≡ height → AreContexts s.orient contexts.now →
        IsSettled p st.0 →
        Holds bytes s p st words.old grid.old decoder.old →
        Holds bytes s p (after bytes st (columns cleanup s p (scan s.width s.height)))
        words.new grid.new decoder.new }
{
    for stripe in 0..(height + 3) / 4 {
        cleanup_stripe(decoder, words, grid, contexts, width, stripe, p);
    }
}

/// Pass `k` of a block of `planes` bit-planes, both counted as the block's: a cleanup pass of the
/// highest plane, then three passes of each plane below it.
pub fn read_next(
    decoder: &mut Decoder<'_>,
    words: &mut [u32; 340],
    blank: &[u32; 340],
    grid: &mut [u32; 1024],
    contexts: &[u8; 512],
    width: usize,
    height: usize,
    planes: u32,
    k: u32,
)
    requires width { width ≤ 32 }
    requires height { height ≤ 32 }
    requires planes { planes ≤ 31 }
    requires more { k + 2 < 3 * planes }
    requires contexts { (i : ℕ) → i < 512 → get_or contexts.now i 0 < 19 }
    ensures { (bytes : List ℕ) (s : Shape) →
        s.width ≡ width → s.height ≡ height → s.planes ≡ planes →
        AreContexts s.orient contexts.now →
        AreFlags s.width (s.planes - 1) (start s) blank.now →
        Holds bytes s (plane_before s k) (state_after bytes s k)
        words.old grid.old decoder.old →
        Holds bytes s (plane_before s (suc k)) (state_after bytes s (suc k))
        words.new grid.new decoder.new }
{
    let turn = k + 2;
    let p = planes - 1 - turn / 3;
    if turn % 3 == 0 {
        next_plane(words, blank);
        significance_pass(decoder, words, grid, contexts, width, height, p);
        return;
    }
    if turn % 3 == 1 {
        refinement_pass(decoder, words, grid, width, height, p);
        return;
    }
    cleanup_pass(decoder, words, grid, contexts, width, height, p);
}
