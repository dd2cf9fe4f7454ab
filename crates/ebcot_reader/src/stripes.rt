// A stripe in each kind of pass.
ghost use Rattle.std.specs.Prelude.{◌≡◌, ◌+◌, ◌-◌, ◌*◌, ◌<◌, ◌≤◌, ℕ, Bool, List, length};
ghost use Rattle.std.specs.Prelude.{get_or, take};
ghost use Rattle.mq_coder.specs.Decisions.{Interval};
ghost use Rattle.ebcot_contexts.specs.Cells.{Cell};
ghost use Rattle.ebcot_contexts.specs.Contexts.{Shape};
ghost use Rattle.ebcot_contexts.specs.Passes.{significance, refinement, cleanup, scan, columns};
ghost use Rattle.ebcot_reader.specs.Columns.{AreContexts};
ghost use Rattle.ebcot_reader.specs.Runs.{IsSettled};
ghost use Rattle.ebcot_reader.specs.Reading.{Holds, after};

use crate::cleanup::cleanup_column;
use crate::columns::{refinement_column, significance_column};
use mq_decoder::Decoder;

/// Reads a stripe of a block `width` places wide, the stripes counted from 0, in a significance
/// pass of plane `p` (ISO/IEC 15444-1, Annex D.3.1).
#[inline(always)]
pub fn significance_stripe(
    decoder: &mut Decoder<'_>,
    words: &mut [u32; 340],
    grid: &mut [u32; 1024],
    contexts: &[u8; 512],
    width: usize,
    stripe: usize,
    p: u32,
)
    requires width { width ≤ 32 }
    requires stripe { stripe < 8 }
    requires contexts { (k : ℕ) → k < 512 → get_or contexts.now k 0 < 19 }
    requires plane { p < 31 }
    ensures { (bytes : List ℕ) (s : Shape) (st : List Cell × Interval) →
        s.width ≡ width → 4 * stripe < s.height → AreContexts s.orient contexts.now →
        Holds bytes s p (after bytes st (columns significance s p
        (take (stripe * width) (scan s.width s.height))))
        words.old grid.old decoder.old →
        Holds bytes s p (after bytes st (columns significance s p
        (take ((stripe + 1) * width) (scan s.width s.height))))
        words.new grid.new decoder.new }
{
    for x in 0..width {
        significance_column(
            decoder,
            words,
            grid,
            contexts,
            34 * stripe + 35 + x,
            128 * stripe + x,
            p,
        );
    }
}

/// Reads a stripe of a block `width` places wide, the stripes counted from 0, in a refinement pass
/// of plane `p` (D.3.3).
#[inline(always)]
pub fn refinement_stripe(
    decoder: &mut Decoder<'_>,
    words: &mut [u32; 340],
    grid: &mut [u32; 1024],
    width: usize,
    stripe: usize,
    p: u32,
)
    requires width { width ≤ 32 }
    requires stripe { stripe < 8 }
    requires plane { p < 31 }
    ensures { (bytes : List ℕ) (s : Shape) (st : List Cell × Interval) →
        s.width ≡ width → 4 * stripe < s.height →
        Holds bytes s p (after bytes st (columns refinement s p
        (take (stripe * width) (scan s.width s.height))))
        words.old grid.old decoder.old →
        Holds bytes s p (after bytes st (columns refinement s p
        (take ((stripe + 1) * width) (scan s.width s.height))))
        words.new grid.new decoder.new }
{
    for x in 0..width {
        refinement_column(
            decoder,
            words,
            grid,
            34 * stripe + 35 + x,
            128 * stripe + x,
            p,
        );
    }
}

/// Reads a stripe of a block `width` places wide, the stripes counted from 0, in a cleanup pass of
/// plane `p` (D.3.4).
#[inline(always)]
pub fn cleanup_stripe(
    decoder: &mut Decoder<'_>,
    words: &mut [u32; 340],
    grid: &mut [u32; 1024],
    contexts: &[u8; 512],
    width: usize,
    stripe: usize,
    p: u32,
)
    requires width { width ≤ 32 }
    requires stripe { stripe < 8 }
    requires contexts { (k : ℕ) → k < 512 → get_or contexts.now k 0 < 19 }
    requires plane { p < 31 }
    ensures { (bytes : List ℕ) (s : Shape) (st : List Cell × Interval) →
        s.width ≡ width → 4 * stripe < s.height → AreContexts s.orient contexts.now →
        IsSettled p st.0 →
        Holds bytes s p (after bytes st (columns cleanup s p
        (take (stripe * width) (scan s.width s.height))))
        words.old grid.old decoder.old →
        Holds bytes s p (after bytes st (columns cleanup s p
        (take ((stripe + 1) * width) (scan s.width s.height))))
        words.new grid.new decoder.new }
{
    for x in 0..width {
        cleanup_column(
            decoder,
            words,
            grid,
            contexts,
            34 * stripe + 35 + x,
            128 * stripe + x,
            p,
        );
    }
}
