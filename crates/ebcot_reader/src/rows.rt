// The row of a column in each kind of pass.
ghost use Rattle.std.specs.Prelude.{◌≡◌, ◌+◌, ◌-◌, ◌*◌, ◌<◌, ◌≤◌, ℕ, Bool, true, false, List};
ghost use Rattle.std.specs.Prelude.{length, set, get_or};
ghost use Rattle.mq_coder.specs.Decisions.{Interval};
ghost use Rattle.ebcot_contexts.specs.Cells.{Cell, cell_at, is_significant};
ghost use Rattle.ebcot_contexts.specs.Contexts.{Shape};
ghost use Rattle.ebcot_contexts.specs.Passes.{significance, refinement, cleanup, visit};
ghost use Rattle.ebcot_contexts.specs.Passes.{is_untouched};
ghost use Rattle.ebcot_reader.specs.Columns.{AreContexts, IsRow};
ghost use Rattle.ebcot_reader.specs.Reading.{Holds, after};

use crate::place::read_place;
use flag_words::{
    codes_cleanup, codes_refinement, codes_significance, refine, refinement_context,
    significance_context,
};
use mq_decoder::Decoder;

/// Reads the place of row `r` in a significance pass of plane `p` (ISO/IEC 15444-1, Annex D.3.1)
/// where that pass codes it, and returns its column's word after it.
#[inline(always)]
pub fn significance_row(
    decoder: &mut Decoder<'_>,
    words: &mut [u32; 340],
    grid: &mut [u32; 1024],
    contexts: &[u8; 512],
    n: usize,
    j: usize,
    word: u32,
    r: u32,
    p: u32,
) -> u32
    requires row { r < 4 }
    requires some { 35 ≤ n }
    requires few { n + 35 < 340 }
    requires grid { j + 96 < 1024 }
    requires contexts { (k : ℕ) → k < 512 → get_or contexts.now k 0 < 19 }
    requires plane { p < 31 }
    ensures { (bytes : List ℕ) (s : Shape) (i column stripe : ℕ)
        (st : List Cell × Interval) →
        IsRow s.width i column stripe r n j → AreContexts s.orient contexts.now →
        Holds bytes s p st (set words.old n word) grid.old decoder.old →
        Holds bytes s p (after bytes st (visit significance s p i))
        (set words.new n result) grid.new decoder.new }
{
    if !codes_significance(word, r) {
        return word;
    }
    let cx = significance_context(contexts, word, r);
    read_place(decoder, words, grid, n, j, word, r, cx, p)
}

/// Reads the place of row `r` in a refinement pass of plane `p` (D.3.3) where that pass codes it,
/// and returns its column's word after it.
#[inline(always)]
pub fn refinement_row(
    decoder: &mut Decoder<'_>,
    grid: &mut [u32; 1024],
    j: usize,
    word: u32,
    r: u32,
    p: u32,
) -> u32
    requires row { r < 4 }
    requires grid { j + 96 < 1024 }
    requires plane { p < 31 }
    ensures { (bytes : List ℕ) (s : Shape) (i column stripe n : ℕ)
        (st : List Cell × Interval) (words : List ℕ) →
        IsRow s.width i column stripe r n j →
        Holds bytes s p st (set words n word) grid.old decoder.old →
        Holds bytes s p (after bytes st (visit refinement s p i))
        (set words n result) grid.new decoder.new }
{
    if !codes_refinement(word, r) {
        return word;
    }
    let bit = decoder.take(refinement_context(word, r));
    grid[j + 32 * r as usize] |= u32::from(bit) << p;
    refine(word, r)
}

/// Reads the place of row `r` in a cleanup pass of plane `p` (D.3.4), outside of run mode, where
/// that pass codes it, and returns its column's word after it.
#[inline(always)]
pub fn cleanup_row(
    decoder: &mut Decoder<'_>,
    words: &mut [u32; 340],
    grid: &mut [u32; 1024],
    contexts: &[u8; 512],
    n: usize,
    j: usize,
    word: u32,
    r: u32,
    p: u32,
) -> u32
    requires row { r < 4 }
    requires some { 35 ≤ n }
    requires few { n + 35 < 340 }
    requires grid { j + 96 < 1024 }
    requires contexts { (k : ℕ) → k < 512 → get_or contexts.now k 0 < 19 }
    requires plane { p < 31 }
    ensures { (bytes : List ℕ) (s : Shape) (i column stripe : ℕ)
        (st : List Cell × Interval) →
        IsRow s.width i column stripe r n j → AreContexts s.orient contexts.now →
        (is_untouched p (cell_at st.0 i) ≡ true → is_significant (cell_at st.0 i) ≡ false) →
        Holds bytes s p st (set words.old n word) grid.old decoder.old →
        Holds bytes s p (after bytes st (visit cleanup s p i))
        (set words.new n result) grid.new decoder.new }
{
    if !codes_cleanup(word, r) {
        return word;
    }
    let cx = significance_context(contexts, word, r);
    read_place(decoder, words, grid, n, j, word, r, cx, p)
}
