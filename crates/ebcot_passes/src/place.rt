// One place.
ghost use Rattle.std.specs.Prelude.{◌≡◌, ◌+◌, ◌-◌, ◌*◌, ◌<◌, ◌≤◌, ◌^◌, ℕ, Bool, true, false, List};
ghost use Rattle.std.specs.Prelude.{◌++◌};
ghost use Rattle.std.specs.Prelude.{length, set};
ghost use Rattle.mq_coder.specs.Encoder.{count_of};
ghost use Rattle.ebcot_contexts.specs.Cells.{Cell, cell_at, coef_at, is_significant, bit_of};
ghost use Rattle.ebcot_contexts.specs.Contexts.{Shape};
ghost use Rattle.ebcot_contexts.specs.Passes.{sign_asked, place};
ghost use Rattle.distortion_sums.specs.Places.{IsNext};
ghost use Rattle.ebcot_passes.specs.PassCoder.{coder_of};
ghost use Rattle.ebcot_passes.specs.Coding.{word_of, IsRow, Holds, HoldsAfter, GoesOn};

use distortion_sums::with_new;
use flag_words::{become_significant, sign_context, touch};
use mq_coder::Encoder;

/// Codes the sign of a place that becomes significant (ISO/IEC 15444-1, Annex D.3.2), and returns
/// its column's word after it. `coef` is the place's word of the grid, `p` the plane.
#[inline(always)]
pub fn code_sign(
    encoder: &mut Encoder<'_>,
    distortion: &mut u64,
    words: &mut [u32; 340],
    n: usize,
    word: u32,
    r: u32,
    coef: u32,
    p: u32,
) -> u32
    requires row { r < 4 }
    requires some { 35 ≤ n }
    requires few { n + 35 < 340 }
    requires plane { p < 20 }
    requires room { count_of encoder.old + 3 ≤ length encoder.old.bytes.now }
    ensures codes { (s : Shape) (i column stripe j : ℕ) (coefs l : List (ℕ × Bool))
        (cells : List Cell) →
        IsRow s.width i column stripe r n j → IsNext coefs cells p i →
        coef ≡ word_of (coef_at coefs i) → (coef_at coefs i).0 < 0x80000000 →
        is_significant (cell_at cells i) ≡ false → bit_of (coef_at coefs i).0 p ≡ true →
        Holds coefs s p cells l (set words.old n word) (coder_of encoder.old distortion.old) →
        HoldsAfter coefs s p (sign_asked s p i cells) l (set words.new n result)
        (coder_of encoder.new distortion.new) }
    ensures goes_on { GoesOn encoder.old encoder.new 3 }
{
    let negative = coef >> 31 == 1;
    let (cx, flip) = sign_context(words[n - 1], word, words[n + 1], r);
    encoder.put(cx, flip != negative);
    *distortion = with_new(*distortion, coef & 0x7FFF_FFFF, p);
    become_significant(words, n, word, r, negative)
}

/// Codes a bit of an insignificant place in the context `cx`, and its sign where the bit is 1, and
/// returns its column's word after it. `coef` is the place's word of the grid, `p` the plane.
#[inline(always)]
pub fn code_place(
    encoder: &mut Encoder<'_>,
    distortion: &mut u64,
    words: &mut [u32; 340],
    n: usize,
    word: u32,
    r: u32,
    cx: u8,
    coef: u32,
    p: u32,
) -> u32
    requires row { r < 4 }
    requires some { 35 ≤ n }
    requires few { n + 35 < 340 }
    requires context { cx < 19 }
    requires plane { p < 20 }
    requires room { count_of encoder.old + 6 ≤ length encoder.old.bytes.now }
    ensures codes { (s : Shape) (i column stripe j : ℕ) (coefs l : List (ℕ × Bool))
        (cells : List Cell) →
        IsRow s.width i column stripe r n j → IsNext coefs cells p i →
        coef ≡ word_of (coef_at coefs i) → (coef_at coefs i).0 < 0x80000000 →
        is_significant (cell_at cells i) ≡ false →
        Holds coefs s p cells l (set words.old n word) (coder_of encoder.old distortion.old) →
        HoldsAfter coefs s p (place s cx p i cells) l (set words.new n result)
        (coder_of encoder.new distortion.new) }
    ensures goes_on { GoesOn encoder.old encoder.new 6 }
{
    let one = coef >> p & 1 == 1;
    encoder.put(cx, one);
    if one {
        code_sign(encoder, distortion, words, n, word, r, coef, p)
    } else {
        touch(word, r)
    }
}
