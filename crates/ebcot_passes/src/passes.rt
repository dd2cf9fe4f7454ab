// The three coding passes of a bit-plane.
ghost use Rattle.std.specs.Prelude.{◌≡◌, suc, ◌+◌, ◌-◌, ◌*◌, ◌<◌, ◌≤◌, ◌^◌, ℕ, Bool, List, ◌++◌};
ghost use Rattle.std.specs.Prelude.{length, get_or};
ghost use Rattle.mq_coder.specs.Encoder.{Stands, count_of};
ghost use Rattle.ebcot_contexts.specs.Cells.{Cell};
ghost use Rattle.ebcot_contexts.specs.Contexts.{Shape};
ghost use Rattle.ebcot_contexts.specs.Passes.{significance, refinement, cleanup, scan, columns};
ghost use Rattle.ebcot_contexts.specs.Passes.{start, plane_of};
ghost use Rattle.ebcot_contexts.specs.Meaning.{symbols_of, known_after, IsBlock};
ghost use Rattle.distortion_sums.specs.Places.{IsHeld};
ghost use Rattle.flag_words.specs.Words.{AreFlags};
ghost use Rattle.ebcot_passes.specs.PassCoder.{coder_of};
ghost use Rattle.ebcot_passes.specs.Coding.{AreCoefs, AreContexts, Holds, HoldsAfter, GoesOn};
ghost use Rattle.ebcot_passes.specs.Runs.{IsSettled, plane_before};

use crate::stripes::{cleanup_stripe, refinement_stripe, significance_stripe};
use flag_words::next_plane;
use mq_coder::Encoder;

/// The significance propagation pass (ISO/IEC 15444-1, Annex D.3.1) of plane `p`, over a block of
/// `width` by `height` places, 1 to 32 each.
pub fn significance_pass(
    encoder: &mut Encoder<'_>,
    distortion: &mut u64,
    words: &mut [u32; 340],
    grid: &[u32; 1024],
    contexts: &[u8; 512],
    width: usize,
    height: usize,
    p: u32,
)
    requires width { width ≤ 32 }
    requires height { height ≤ 32 }
    requires contexts { (k : ℕ) → k < 512 → get_or contexts.now k 0 < 19 }
    requires plane { p < 20 }
    requires room { count_of encoder.old + 6144 ≤ length encoder.old.bytes.now }
    ensures codes { (s : Shape) (coefs l : List (ℕ × Bool)) (cells : List Cell) →
        s.width ≡ width → s.height ≡ height → AreContexts s.orient contexts.now →
        AreCoefs s.width s.height coefs grid.now →
        Holds coefs s p cells l words.old (coder_of encoder.old distortion.old) →
        HoldsAfter coefs s p (columns significance s p (scan s.width s.height) cells)
        l words.new (coder_of encoder.new distortion.new) }
    ensures goes_on { GoesOn encoder.old encoder.new 6144 }
{
    for stripe in 0..(height + 3) / 4 {
        significance_stripe(encoder, distortion, words, grid, contexts, width, stripe, p);
    }
}

/// The magnitude refinement pass (D.3.3) of plane `p`, over a block of `width` by `height` places,
/// 1 to 32 each.
pub fn refinement_pass(
    encoder: &mut Encoder<'_>,
    distortion: &mut u64,
    words: &mut [u32; 340],
    grid: &[u32; 1024],
    width: usize,
    height: usize,
    p: u32,
)
    requires width { width ≤ 32 }
    requires height { height ≤ 32 }
    requires plane { p < 20 }
    requires room { count_of encoder.old + 3072 ≤ length encoder.old.bytes.now }
    ensures codes { (s : Shape) (coefs l : List (ℕ × Bool)) (cells : List Cell) →
        s.width ≡ width → s.height ≡ height → AreCoefs s.width s.height coefs grid.now →
        Holds coefs s p cells l words.old (coder_of encoder.old distortion.old) →
        HoldsAfter coefs s p (columns refinement s p (scan s.width s.height) cells)
        l words.new (coder_of encoder.new distortion.new) }
    ensures goes_on { GoesOn encoder.old encoder.new 3072 }
{
    for stripe in 0..(height + 3) / 4 {
        refinement_stripe(encoder, distortion, words, grid, width, stripe, p);
    }
}

/// The cleanup pass (D.3.4) of plane `p`, over a block of `width` by `height` places, 1 to 32 each.
pub fn cleanup_pass(
    encoder: &mut Encoder<'_>,
    distortion: &mut u64,
    words: &mut [u32; 340],
    grid: &[u32; 1024],
    contexts: &[u8; 512],
    width: usize,
    height: usize,
    p: u32,
)
    requires width { width ≤ 32 }
    requires height { height ≤ 32 }
    requires contexts { (k : ℕ) → k < 512 → get_or contexts.now k 0 < 19 }
    requires plane { p < 20 }
    requires room { count_of encoder.old + 9216 ≤ length encoder.old.bytes.now }
    ensures codes { (s : Shape) (coefs l : List (ℕ × Bool)) (cells : List Cell) →
        s.width ≡ width → s.height ≡ height → AreContexts s.orient contexts.now →
        AreCoefs s.width s.height coefs grid.now →
        IsSettled p cells →
        Holds coefs s p cells l words.old (coder_of encoder.old distortion.old) →
        HoldsAfter coefs s p (columns cleanup s p (scan s.width s.height) cells)
        l words.new (coder_of encoder.new distortion.new) }
    ensures goes_on { GoesOn encoder.old encoder.new 9216 }
{
    for stripe in 0..(height + 3) / 4 {
        cleanup_stripe(encoder, distortion, words, grid, contexts, width, stripe, p);
    }
}

/// Pass `k` of a block of `planes` bit-planes, both counted as the block's: a cleanup pass of the
/// highest plane, then three passes of each plane below it.
pub fn code_next(
    encoder: &mut Encoder<'_>,
    distortion: &mut u64,
    words: &mut [u32; 340],
    blank: &[u32; 340],
    grid: &[u32; 1024],
    contexts: &[u8; 512],
    width: usize,
    height: usize,
    planes: u32,
    k: u32,
)
    requires width { width ≤ 32 }
    requires height { height ≤ 32 }
    requires planes { planes ≤ 20 }
    requires more { k + 2 < 3 * planes }
    requires contexts { (i : ℕ) → i < 512 → get_or contexts.now i 0 < 19 }
    requires room { count_of encoder.old + 9216 ≤ length encoder.old.bytes.now }
    ensures codes { (s : Shape) (coefs : List (ℕ × Bool)) →
        s.width ≡ width → s.height ≡ height → s.planes ≡ planes →
        AreContexts s.orient contexts.now → AreCoefs s.width s.height coefs grid.now →
        AreFlags s.width (s.planes - 1) (start s) blank.now →
        AreFlags s.width (plane_before s k) (known_after coefs s k) words.old →
        Stands encoder.old (symbols_of coefs s k) →
        IsHeld distortion.old coefs (known_after coefs s k) → IsBlock coefs s →
        Holds coefs s (plane_of s k) (known_after coefs s (suc k)) (symbols_of coefs s (suc k))
        words.new (coder_of encoder.new distortion.new) }
    ensures goes_on { GoesOn encoder.old encoder.new 9216 }
    ensures same_reference { encoder.new.bytes.ghost_name
        ≡ encoder.old.bytes.ghost_name }
{
    let turn = k + 2;
    let p = planes - 1 - turn / 3;
    if turn % 3 == 0 {
        next_plane(words, blank);
        significance_pass(encoder, distortion, words, grid, contexts, width, height, p);
        return;
    }
    if turn % 3 == 1 {
        refinement_pass(encoder, distortion, words, grid, width, height, p);
        return;
    }
    cleanup_pass(encoder, distortion, words, grid, contexts, width, height, p);
}
