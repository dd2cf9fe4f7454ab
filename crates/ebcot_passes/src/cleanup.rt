// A column in a cleanup pass, and run mode.
ghost use Rattle.std.specs.Prelude.{◌≡◌, ◌+◌, ◌-◌, ◌*◌, ◌<◌, ◌≤◌, ◌^◌, ℕ, Bool, true, false, List};
ghost use Rattle.std.specs.Prelude.{[], ◌∷◌, ◌++◌, length, get_or, set, take};
ghost use Rattle.mq_coder.specs.Encoder.{count_of};
ghost use Rattle.ebcot_passes.specs.PassCoder.{PassCoder};
ghost use Rattle.ebcot_contexts.specs.Cells.{Cell, cell_at, coef_at, bit_of, number};
ghost use Rattle.ebcot_contexts.specs.Contexts.{Shape};
ghost use Rattle.ebcot_contexts.specs.Passes.{cleanup, column, zeros};
ghost use Rattle.ebcot_passes.specs.PassCoder.{coder_of};
ghost use Rattle.ebcot_passes.specs.Coding.{AreCoefs, AreContexts, IsColumnAt, Holds, HoldsAfter};
ghost use Rattle.ebcot_passes.specs.Coding.{GoesOn};
ghost use Rattle.ebcot_passes.specs.Runs.{run_head, column_head, zeros_of, AreRows, AreNew};
ghost use Rattle.ebcot_passes.specs.Runs.{IsSettled};

use crate::place::code_sign;
use crate::rows::cleanup_row;
use flag_words::{codes_run, touch};
use mq_coder::Encoder;

/// Bit `p` of a coefficient's word of the grid.
#[inline(always)]
fn has_bit(coef: u32, p: u32) -> bool
    requires { p < 20 }
    ensures { (m : ℕ) (negative : Bool) → coef ≡ m + 0x80000000 * number negative → m < 0x80000000 →
        result ≡ bit_of m p }
{
    coef >> p & 1 == 1
}

/// How many of the four places of a column come before the first one with a 1 in plane `p`.
#[inline(always)]
fn zeros_before(grid: &[u32; 1024], j: usize, p: u32) -> u32
    requires grid { j + 96 < 1024 }
    requires plane { p < 20 }
    ensures few { result ≤ 4 }
    ensures zeros { (w h column stripe n a b c d : ℕ) (coefs : List (ℕ × Bool)) →
        AreRows w column stripe n j a b c d → AreCoefs w h coefs grid.now →
        a < w * h → b < w * h → c < w * h → d < w * h →
        result ≡ zeros_of (bit_of (coef_at coefs a).0 p) (bit_of (coef_at coefs b).0 p)
        (bit_of (coef_at coefs c).0 p) (bit_of (coef_at coefs d).0 p) }
{
    if has_bit(grid[j], p) {
        return 0;
    }
    if has_bit(grid[j + 32], p) {
        return 1;
    }
    if has_bit(grid[j + 64], p) {
        return 2;
    }
    if has_bit(grid[j + 96], p) {
        return 3;
    }
    4
}

/// The word of a column after its first `rows` places, up to 4, learned a bit of 0.
#[inline(always)]
fn touched(word: u32, rows: u32) -> u32
    requires { rows ≤ 4 }
    ensures { (s : Shape) (p column stripe n j a b c d : ℕ) (coefs : List (ℕ × Bool))
        (cells : List Cell) (l : List (ℕ × Bool)) (words : List ℕ) (coder : PassCoder) →
        AreRows s.width column stripe n j a b c d → AreNew p cells a b c d →
        rows ≡ zeros_of (bit_of (coef_at coefs a).0 p) (bit_of (coef_at coefs b).0 p)
        (bit_of (coef_at coefs c).0 p) (bit_of (coef_at coefs d).0 p) →
        Holds coefs s p cells l (set words n word) coder →
        Holds coefs s p (zeros p (take rows (a ∷ b ∷ c ∷ d ∷ [])) cells) l
        (set words n result) coder }
{
    let first = touch(word, 0);
    let second = touch(first, 1);
    let third = touch(second, 2);
    match rows {
        0 => word,
        1 => first,
        2 => second,
        3 => third,
        _ => touch(third, 3),
    }
}

/// Codes the run mode of a column up to its first 1 (ISO/IEC 15444-1, Annex D.3.4), and returns its
/// word after it: the places from the first to that one have been coded.
#[inline(always)]
fn code_run(
    encoder: &mut Encoder<'_>,
    distortion: &mut u64,
    words: &mut [u32; 340],
    grid: &[u32; 1024],
    n: usize,
    j: usize,
    word: u32,
    p: u32,
) -> u32
    requires some { 35 ≤ n }
    requires few { n + 35 < 340 }
    requires grid { j + 96 < 1024 }
    requires plane { p < 20 }
    requires room { count_of encoder.old + 12 ≤ length encoder.old.bytes.now }
    ensures codes { (s : Shape) (column stripe a b c d : ℕ) (coefs l : List (ℕ × Bool))
        (cells : List Cell) →
        AreRows s.width column stripe n j a b c d → AreNew p cells a b c d →
        AreCoefs s.width s.height coefs grid.now →
        Holds coefs s p cells l (set words.old n word) (coder_of encoder.old distortion.old) →
        HoldsAfter coefs s p (run_head s p a b c d cells) l (set words.new n result)
        (coder_of encoder.new distortion.new) }
    ensures goes_on { GoesOn encoder.old encoder.new 12 }
{
    let row = zeros_before(grid, j, p);
    encoder.put(17, row < 4);
    let before = touched(word, row);
    if row >= 4 {
        return before;
    }
    encoder.put(18, 2 <= row);
    encoder.put(18, row % 2 == 1);
    let coef = grid[j + 32 * row as usize];
    code_sign(encoder, distortion, words, n, before, row, coef, p)
}

/// Codes what a column asks before its places one by one: run mode, where it has it. Returns the
/// column's word after it.
#[inline(always)]
fn code_head(
    encoder: &mut Encoder<'_>,
    distortion: &mut u64,
    words: &mut [u32; 340],
    grid: &[u32; 1024],
    n: usize,
    j: usize,
    p: u32,
) -> u32
    requires some { 35 ≤ n }
    requires few { n + 35 < 340 }
    requires grid { j + 96 < 1024 }
    requires plane { p < 20 }
    requires room { count_of encoder.old + 12 ≤ length encoder.old.bytes.now }
    ensures codes { (s : Shape) (at stripe a b c d : ℕ) (coefs l : List (ℕ × Bool))
        (cells : List Cell) →
        AreRows s.width at stripe n j a b c d →
        AreCoefs s.width s.height coefs grid.now →
        Holds coefs s p cells l words.old (coder_of encoder.old distortion.old) →
        HoldsAfter coefs s p (column_head s p a b c d cells) l
        (set words.new n result) (coder_of encoder.new distortion.new) }
    ensures goes_on { GoesOn encoder.old encoder.new 12 }
{
    let word = words[n];
    if codes_run(word) {
        code_run(encoder, distortion, words, grid, n, j, word, p)
    } else {
        word
    }
}

/// Codes a column in a cleanup pass of plane `p` (D.3.4).
#[inline(always)]
pub fn cleanup_column(
    encoder: &mut Encoder<'_>,
    distortion: &mut u64,
    words: &mut [u32; 340],
    grid: &[u32; 1024],
    contexts: &[u8; 512],
    n: usize,
    j: usize,
    p: u32,
)
    requires some { 35 ≤ n }
    requires few { n + 35 < 340 }
    requires grid { j + 96 < 1024 }
    requires contexts { (k : ℕ) → k < 512 → get_or contexts.now k 0 < 19 }
    requires plane { p < 20 }
    requires room { count_of encoder.old + 36 ≤ length encoder.old.bytes.now }
    ensures codes { (s : Shape) (at stripe : ℕ) (is : List ℕ) (coefs l : List (ℕ × Bool))
        (cells : List Cell) →
        IsColumnAt s.width s.height is at stripe n j → AreContexts s.orient contexts.now →
        AreCoefs s.width s.height coefs grid.now → IsSettled p cells →
        Holds coefs s p cells l words.old (coder_of encoder.old distortion.old) →
        HoldsAfter coefs s p (column cleanup s p is cells) l words.new
        (coder_of encoder.new distortion.new) }
    ensures goes_on { GoesOn encoder.old encoder.new 36 }
{
    // each place has been coded in this plane
    if words[n] & 0x4920_0000 == 0x4920_0000 {
        return;
    }
    let word = code_head(encoder, distortion, words, grid, n, j, p);
    let first = cleanup_row(encoder, distortion, words, grid, contexts, n, j, word, 0, p);
    let second = cleanup_row(
        encoder, distortion, words, grid, contexts, n, j, first, 1, p,
    );
    let third = cleanup_row(
        encoder, distortion, words, grid, contexts, n, j, second, 2, p,
    );
    let fourth = cleanup_row(
        encoder, distortion, words, grid, contexts, n, j, third, 3, p,
    );
    words[n] = fourth;
}
