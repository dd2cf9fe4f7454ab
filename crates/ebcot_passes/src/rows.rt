// The row of a column in each kind of pass.
ghost use Rattle.std.specs.Prelude.{◌≡◌, ◌+◌, ◌-◌, ◌*◌, ◌<◌, ◌≤◌, ◌^◌, ℕ, Bool, true, false, List};
ghost use Rattle.std.specs.Prelude.{◌++◌, length, set, get_or};
ghost use Rattle.mq_coder.specs.Encoder.{count_of};
ghost use Rattle.ebcot_contexts.specs.Cells.{Cell, cell_at, is_significant};
ghost use Rattle.ebcot_contexts.specs.Contexts.{Shape};
ghost use Rattle.ebcot_contexts.specs.Passes.{significance, refinement, cleanup, visit};
ghost use Rattle.ebcot_contexts.specs.Passes.{is_untouched};
ghost use Rattle.ebcot_passes.specs.PassCoder.{coder_of};
ghost use Rattle.ebcot_passes.specs.Coding.{AreCoefs, AreContexts, IsRow, Holds, HoldsAfter};
ghost use Rattle.ebcot_passes.specs.Coding.{GoesOn};

use crate::place::code_place;
use distortion_sums::with_refined;
use flag_words::{
    codes_cleanup, codes_refinement, codes_significance, refine, refinement_context,
    significance_context,
};
use mq_coder::Encoder;

/// Codes the place of row `r` in a significance pass of plane `p` (ISO/IEC 15444-1, Annex D.3.1)
/// where that pass codes it, and returns its column's word after it.
#[inline(always)]
pub fn significance_row(
    encoder: &mut Encoder<'_>,
    distortion: &mut u64,
    words: &mut [u32; 340],
    grid: &[u32; 1024],
    contexts: &[u8; 512],
    n: usize,
    j: usize,
    word: u32,
    r: u32,
    p: u32,
) -> u32
    requires row { r < 4 }
    requires some { 35 ≤ n }
    requires few { n + 35 < 340 }
    requires grid { j + 96 < 1024 }
    requires contexts { (k : ℕ) → k < 512 → get_or contexts.now k 0 < 19 }
    requires plane { p < 20 }
    requires room { count_of encoder.old + 6 ≤ length encoder.old.bytes.now }
    ensures codes { (s : Shape) (i column stripe : ℕ) (coefs l : List (ℕ × Bool))
        (cells : List Cell) →
        IsRow s.width i column stripe r n j → AreContexts s.orient contexts.now →
        AreCoefs s.width s.height coefs grid.now →
        Holds coefs s p cells l (set words.old n word) (coder_of encoder.old distortion.old) →
        HoldsAfter coefs s p (visit significance s p i cells) l
        (set words.new n result) (coder_of encoder.new distortion.new) }
    ensures goes_on { GoesOn encoder.old encoder.new 6 }
{
    if !codes_significance(word, r) {
        return word;
    }
    let cx = significance_context(contexts, word, r);
    let coef = grid[j + 32 * r as usize];
    code_place(encoder, distortion, words, n, word, r, cx, coef, p)
}

/// Codes the place of row `r` in a refinement pass of plane `p` (D.3.3) where that pass codes it,
/// and returns its column's word after it.
#[inline(always)]
pub fn refinement_row(
    encoder: &mut Encoder<'_>,
    distortion: &mut u64,
    grid: &[u32; 1024],
    j: usize,
    word: u32,
    r: u32,
    p: u32,
) -> u32
    requires row { r < 4 }
    requires grid { j + 96 < 1024 }
    requires plane { p < 20 }
    requires room { count_of encoder.old + 3 ≤ length encoder.old.bytes.now }
    ensures codes { (s : Shape) (i column stripe n : ℕ) (coefs l : List (ℕ × Bool))
        (cells : List Cell) (words : List ℕ) →
        IsRow s.width i column stripe r n j →
        AreCoefs s.width s.height coefs grid.now →
        Holds coefs s p cells l (set words n word) (coder_of encoder.old distortion.old) →
        HoldsAfter coefs s p (visit refinement s p i cells) l (set words n result)
        (coder_of encoder.new distortion.new) }
    ensures goes_on { GoesOn encoder.old encoder.new 3 }
{
    if !codes_refinement(word, r) {
        return word;
    }
    let coef = grid[j + 32 * r as usize];
    encoder.put(refinement_context(word, r), coef >> p & 1 == 1);
    *distortion = with_refined(*distortion, coef & 0x7FFF_FFFF, p);
    refine(word, r)
}

/// Codes the place of row `r` in a cleanup pass of plane `p` (D.3.4), outside of run mode, where
/// that pass codes it, and returns its column's word after it.
#[inline(always)]
pub fn cleanup_row(
    encoder: &mut Encoder<'_>,
    distortion: &mut u64,
    words: &mut [u32; 340],
    grid: &[u32; 1024],
    contexts: &[u8; 512],
    n: usize,
    j: usize,
    word: u32,
    r: u32,
    p: u32,
) -> u32
    requires row { r < 4 }
    requires some { 35 ≤ n }
    requires few { n + 35 < 340 }
    requires grid { j + 96 < 1024 }
    requires contexts { (k : ℕ) → k < 512 → get_or contexts.now k 0 < 19 }
    requires plane { p < 20 }
    requires room { count_of encoder.old + 6 ≤ length encoder.old.bytes.now }
    ensures codes { (s : Shape) (i column stripe : ℕ) (coefs l : List (ℕ × Bool))
        (cells : List Cell) →
        IsRow s.width i column stripe r n j → AreContexts s.orient contexts.now →
        AreCoefs s.width s.height coefs grid.now →
        (is_untouched p (cell_at cells i) ≡ true → is_significant (cell_at cells i) ≡ false) →
        Holds coefs s p cells l (set words.old n word) (coder_of encoder.old distortion.old) →
        HoldsAfter coefs s p (visit cleanup s p i cells) l (set words.new n result)
        (coder_of encoder.new distortion.new) }
    ensures goes_on { GoesOn encoder.old encoder.new 6 }
{
    if !codes_cleanup(word, r) {
        return word;
    }
    let cx = significance_context(contexts, word, r);
    let coef = grid[j + 32 * r as usize];
    code_place(encoder, distortion, words, n, word, r, cx, coef, p)
}
