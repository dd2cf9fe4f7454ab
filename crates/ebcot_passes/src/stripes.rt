// A stripe in each kind of pass.
ghost use Rattle.std.specs.Prelude.{◌≡◌, ◌+◌, ◌-◌, ◌*◌, ◌<◌, ◌≤◌, ◌^◌, ℕ, Bool, List, ◌++◌, length};
ghost use Rattle.std.specs.Prelude.{get_or, take};
ghost use Rattle.mq_coder.specs.Encoder.{count_of};
ghost use Rattle.ebcot_contexts.specs.Cells.{Cell};
ghost use Rattle.ebcot_contexts.specs.Contexts.{Shape};
ghost use Rattle.ebcot_contexts.specs.Passes.{significance, refinement, cleanup, scan, columns};
ghost use Rattle.ebcot_passes.specs.PassCoder.{coder_of};
ghost use Rattle.ebcot_passes.specs.Coding.{AreCoefs, AreContexts, HoldsAfter, GoesOn};
ghost use Rattle.ebcot_passes.specs.Runs.{IsSettled};

use crate::cleanup::cleanup_column;
use crate::columns::{refinement_column, significance_column};
use mq_coder::Encoder;

/// Codes a stripe of a block `width` places wide, the stripes counted from 0, in a significance
/// pass of plane `p` (ISO/IEC 15444-1, Annex D.3.1).
#[inline(always)]
pub fn significance_stripe(
    encoder: &mut Encoder<'_>,
    distortion: &mut u64,
    words: &mut [u32; 340],
    grid: &[u32; 1024],
    contexts: &[u8; 512],
    width: usize,
    stripe: usize,
    p: u32,
)
    requires width { width ≤ 32 }
    requires stripe { stripe < 8 }
    requires contexts { (k : ℕ) → k < 512 → get_or contexts.now k 0 < 19 }
    requires plane { p < 20 }
    requires room { count_of encoder.old + 768 ≤ length encoder.old.bytes.now }
    ensures codes { (s : Shape) (coefs l : List (ℕ × Bool)) (cells : List Cell) →
        s.width ≡ width → 4 * stripe < s.height → AreContexts s.orient contexts.now →
        AreCoefs s.width s.height coefs grid.now →
        HoldsAfter coefs s p (columns significance s p
        (take (stripe * width) (scan s.width s.height)) cells)
        l words.old (coder_of encoder.old distortion.old) →
        HoldsAfter coefs s p (columns significance s p
        (take ((stripe + 1) * width) (scan s.width s.height)) cells)
        l words.new (coder_of encoder.new distortion.new) }
    ensures goes_on { GoesOn encoder.old encoder.new 768 }
{
    for x in 0..width {
        significance_column(
            encoder,
            distortion,
            words,
            grid,
            contexts,
            34 * stripe + 35 + x,
            128 * stripe + x,
            p,
        );
    }
}

/// Codes a stripe of a block `width` places wide, the stripes counted from 0, in a refinement pass
/// of plane `p` (D.3.3).
#[inline(always)]
pub fn refinement_stripe(
    encoder: &mut Encoder<'_>,
    distortion: &mut u64,
    words: &mut [u32; 340],
    grid: &[u32; 1024],
    width: usize,
    stripe: usize,
    p: u32,
)
    requires width { width ≤ 32 }
    requires stripe { stripe < 8 }
    requires plane { p < 20 }
    requires room { count_of encoder.old + 384 ≤ length encoder.old.bytes.now }
    ensures codes { (s : Shape) (coefs l : List (ℕ × Bool)) (cells : List Cell) →
        s.width ≡ width → 4 * stripe < s.height → AreCoefs s.width s.height coefs grid.now →
        HoldsAfter coefs s p (columns refinement s p
        (take (stripe * width) (scan s.width s.height)) cells)
        l words.old (coder_of encoder.old distortion.old) →
        HoldsAfter coefs s p (columns refinement s p
        (take ((stripe + 1) * width) (scan s.width s.height)) cells)
        l words.new (coder_of encoder.new distortion.new) }
    ensures goes_on { GoesOn encoder.old encoder.new 384 }
{
    for x in 0..width {
        refinement_column(
            encoder,
            distortion,
            words,
            grid,
            34 * stripe + 35 + x,
            128 * stripe + x,
            p,
        );
    }
}

/// Codes a stripe of a block `width` places wide, the stripes counted from 0, in a cleanup pass of
/// plane `p` (D.3.4).
#[inline(always)]
pub fn cleanup_stripe(
    encoder: &mut Encoder<'_>,
    distortion: &mut u64,
    words: &mut [u32; 340],
    grid: &[u32; 1024],
    contexts: &[u8; 512],
    width: usize,
    stripe: usize,
    p: u32,
)
    requires width { width ≤ 32 }
    requires stripe { stripe < 8 }
    requires contexts { (k : ℕ) → k < 512 → get_or contexts.now k 0 < 19 }
    requires plane { p < 20 }
    requires room { count_of encoder.old + 1152 ≤ length encoder.old.bytes.now }
    ensures codes { (s : Shape) (coefs l : List (ℕ × Bool)) (cells : List Cell) →
        s.width ≡ width → 4 * stripe < s.height → AreContexts s.orient contexts.now →
        AreCoefs s.width s.height coefs grid.now →
        IsSettled p cells →
        HoldsAfter coefs s p (columns cleanup s p
        (take (stripe * width) (scan s.width s.height)) cells)
        l words.old (coder_of encoder.old distortion.old) →
        HoldsAfter coefs s p (columns cleanup s p
        (take ((stripe + 1) * width) (scan s.width s.height)) cells)
        l words.new (coder_of encoder.new distortion.new) }
    ensures goes_on { GoesOn encoder.old encoder.new 1152 }
{
    for x in 0..width {
        cleanup_column(
            encoder,
            distortion,
            words,
            grid,
            contexts,
            34 * stripe + 35 + x,
            128 * stripe + x,
            p,
        );
    }
}
