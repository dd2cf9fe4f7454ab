// A column of a stripe in each kind of pass.
ghost use Rattle.std.specs.Prelude.{◌≡◌, ◌+◌, ◌-◌, ◌*◌, ◌<◌, ◌≤◌, ℕ, Bool, List, length};
ghost use Rattle.std.specs.Prelude.{get_or};
ghost use Rattle.mq_coder.specs.Decisions.{Interval};
ghost use Rattle.ebcot_contexts.specs.Cells.{Cell};
ghost use Rattle.ebcot_contexts.specs.Contexts.{Shape};
ghost use Rattle.ebcot_contexts.specs.Passes.{significance, refinement, column};
ghost use Rattle.ebcot_reader.specs.Columns.{AreContexts, IsColumnAt};
ghost use Rattle.ebcot_reader.specs.Reading.{Holds, after};

use crate::rows::{refinement_row, significance_row};
use mq_decoder::Decoder;

/// Reads a column in a significance pass of plane `p` (ISO/IEC 15444-1, Annex D.3.1). `n` is the
/// index of its word, `j` that of its first place in the grid.
#[inline(always)]
pub fn significance_column(
    decoder: &mut Decoder<'_>,
    words: &mut [u32; 340],
    grid: &mut [u32; 1024],
    contexts: &[u8; 512],
    n: usize,
    j: usize,
    p: u32,
)
    requires some { 35 ≤ n }
    requires few { n + 35 < 340 }
    requires grid { j + 96 < 1024 }
    requires contexts { (k : ℕ) → k < 512 → get_or contexts.now k 0 < 19 }
    requires plane { p < 31 }
    ensures { (bytes : List ℕ) (s : Shape) (at stripe : ℕ) (is : List ℕ)
        (st : List Cell × Interval) →
        IsColumnAt s.width s.height is at stripe n j → AreContexts s.orient contexts.now →
        Holds bytes s p st words.old grid.old decoder.old →
        Holds bytes s p (after bytes st (column significance s p is))
        words.new grid.new decoder.new }
{
    let word = words[n];
    // no place in or around the column is significant
    if word & 0x3_FFFF == 0 {
        return;
    }
    let first = significance_row(decoder, words, grid, contexts, n, j, word, 0, p);
    let second = significance_row(decoder, words, grid, contexts, n, j, first, 1, p);
    let third = significance_row(decoder, words, grid, contexts, n, j, second, 2, p);
    let fourth = significance_row(decoder, words, grid, contexts, n, j, third, 3, p);
    words[n] = fourth;
}

/// Reads a column in a refinement pass of plane `p` (D.3.3).
#[inline(always)]
pub fn refinement_column(
    decoder: &mut Decoder<'_>,
    words: &mut [u32; 340],
    grid: &mut [u32; 1024],
    n: usize,
    j: usize,
    p: u32,
)
    requires some { 35 ≤ n }
    requires few { n + 35 < 340 }
    requires grid { j + 96 < 1024 }
    requires plane { p < 31 }
    ensures { (bytes : List ℕ) (s : Shape) (at stripe : ℕ) (is : List ℕ)
        (st : List Cell × Interval) →
        IsColumnAt s.width s.height is at stripe n j →
        Holds bytes s p st words.old grid.old decoder.old →
        Holds bytes s p (after bytes st (column refinement s p is))
        words.new grid.new decoder.new }
{
    let word = words[n];
    if word & 0x2490 == 0 {
        return;
    }
    let first = refinement_row(decoder, grid, j, word, 0, p);
    let second = refinement_row(decoder, grid, j, first, 1, p);
    let third = refinement_row(decoder, grid, j, second, 2, p);
    let fourth = refinement_row(decoder, grid, j, third, 3, p);
    words[n] = fourth;
}
