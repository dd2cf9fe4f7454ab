// A column of a stripe in each kind of pass.
ghost use Rattle.std.specs.Prelude.{◌≡◌, ◌+◌, ◌-◌, ◌*◌, ◌<◌, ◌≤◌, ◌^◌, ℕ, Bool, List, ◌++◌, length};
ghost use Rattle.std.specs.Prelude.{get_or};
ghost use Rattle.mq_coder.specs.Encoder.{count_of};
ghost use Rattle.ebcot_contexts.specs.Cells.{Cell};
ghost use Rattle.ebcot_contexts.specs.Contexts.{Shape};
ghost use Rattle.ebcot_contexts.specs.Passes.{significance, refinement, column};
ghost use Rattle.ebcot_passes.specs.PassCoder.{coder_of};
ghost use Rattle.ebcot_passes.specs.Coding.{AreCoefs, AreContexts, IsColumnAt, Holds, HoldsAfter};
ghost use Rattle.ebcot_passes.specs.Coding.{GoesOn};

use crate::rows::{refinement_row, significance_row};
use mq_coder::Encoder;

/// Codes a column in a significance pass of plane `p` (ISO/IEC 15444-1, Annex D.3.1). `n` is the
/// index of its word, `j` that of its first place in the grid.
#[inline(always)]
pub fn significance_column(
    encoder: &mut Encoder<'_>,
    distortion: &mut u64,
    words: &mut [u32; 340],
    grid: &[u32; 1024],
    contexts: &[u8; 512],
    n: usize,
    j: usize,
    p: u32,
)
    requires some { 35 ≤ n }
    requires few { n + 35 < 340 }
    requires grid { j + 96 < 1024 }
    requires contexts { (k : ℕ) → k < 512 → get_or contexts.now k 0 < 19 }
    requires plane { p < 20 }
    requires room { count_of encoder.old + 24 ≤ length encoder.old.bytes.now }
    ensures codes { (s : Shape) (at stripe : ℕ) (is : List ℕ) (coefs l : List (ℕ × Bool))
        (cells : List Cell) →
        IsColumnAt s.width s.height is at stripe n j → AreContexts s.orient contexts.now →
        AreCoefs s.width s.height coefs grid.now →
        Holds coefs s p cells l words.old (coder_of encoder.old distortion.old) →
        HoldsAfter coefs s p (column significance s p is cells) l words.new
        (coder_of encoder.new distortion.new) }
    ensures goes_on { GoesOn encoder.old encoder.new 24 }
{
    let word = words[n];
    // no place in or around the column is significant
    if word & 0x3_FFFF == 0 {
        return;
    }
    // each of its four places is
    if word & 0x2490 == 0x2490 {
        return;
    }
    let first = significance_row(encoder, distortion, words, grid, contexts, n, j, word, 0, p);
    let second = significance_row(
        encoder, distortion, words, grid, contexts, n, j, first, 1, p,
    );
    let third = significance_row(
        encoder, distortion, words, grid, contexts, n, j, second, 2, p,
    );
    let fourth = significance_row(
        encoder, distortion, words, grid, contexts, n, j, third, 3, p,
    );
    words[n] = fourth;
}

/// Codes a column in a refinement pass of plane `p` (D.3.3).
#[inline(always)]
pub fn refinement_column(
    encoder: &mut Encoder<'_>,
    distortion: &mut u64,
    words: &mut [u32; 340],
    grid: &[u32; 1024],
    n: usize,
    j: usize,
    p: u32,
)
    requires some { 35 ≤ n }
    requires few { n + 35 < 340 }
    requires grid { j + 96 < 1024 }
    requires plane { p < 20 }
    requires room { count_of encoder.old + 12 ≤ length encoder.old.bytes.now }
    ensures codes { (s : Shape) (at stripe : ℕ) (is : List ℕ) (coefs l : List (ℕ × Bool))
        (cells : List Cell) →
        IsColumnAt s.width s.height is at stripe n j →
        AreCoefs s.width s.height coefs grid.now →
        Holds coefs s p cells l words.old (coder_of encoder.old distortion.old) →
        HoldsAfter coefs s p (column refinement s p is cells) l words.new
        (coder_of encoder.new distortion.new) }
    ensures goes_on { GoesOn encoder.old encoder.new 12 }
{
    let word = words[n];
    if word & 0x2490 == 0 {
        return;
    }
    let first = refinement_row(encoder, distortion, grid, j, word, 0, p);
    let second = refinement_row(encoder, distortion, grid, j, first, 1, p);
    let third = refinement_row(encoder, distortion, grid, j, second, 2, p);
    let fourth = refinement_row(encoder, distortion, grid, j, third, 3, p);
    words[n] = fourth;
}
