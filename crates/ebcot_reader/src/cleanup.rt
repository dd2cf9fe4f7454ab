// A column in a cleanup pass, and run mode.
ghost use Rattle.std.specs.Prelude.{◌≡◌, ◌+◌, ◌-◌, ◌*◌, ◌<◌, ◌≤◌, ℕ, Bool, true, false, List};
ghost use Rattle.std.specs.Prelude.{[], ◌∷◌, length, get_or, set, take};
ghost use Rattle.mq_coder.specs.Decisions.{Interval};
ghost use Rattle.mq_decoder.specs.declared.decoder.Decoder.{Decoder};
ghost use Rattle.ebcot_contexts.specs.Cells.{Cell};
ghost use Rattle.ebcot_contexts.specs.Contexts.{Shape};
ghost use Rattle.ebcot_contexts.specs.Passes.{cleanup, column, zeros};
ghost use Rattle.ebcot_reader.specs.Columns.{AreContexts, IsColumnAt, AreRows};
ghost use Rattle.ebcot_reader.specs.Runs.{run_head, column_head, AreNew, IsSettled, row_index};
ghost use Rattle.ebcot_reader.specs.Reading.{Holds, after};

use crate::place::read_sign;
use crate::rows::cleanup_row;
use flag_words::{codes_run, touch};
use mq_decoder::Decoder;

/// The word of a column after its first `rows` places, up to 4, learned a bit of 0.
#[inline(always)]
fn touched(word: u32, rows: u32) -> u32
    requires { rows ≤ 4 }
    ensures { (bytes : List ℕ) (s : Shape) (p column stripe n j a b c d : ℕ)
        (st : List Cell × Interval) (words grid : List ℕ) (decoder : Decoder) →
        AreRows s.width column stripe n j a b c d → AreNew st.0 a b c d →
        Holds bytes s p st (set words n word) grid decoder →
        Holds bytes s p (zeros p (take rows (a ∷ b ∷ c ∷ d ∷ [])) st.0, st.1)
        (set words n result) grid decoder }
{
    let first = touch(word, 0);
    let second = touch(first, 1);
    let third = touch(second, 2);
    match rows {
        0 => word,
        1 => first,
        2 => second,
        3 => third,
        _ => touch(third, 3),
    }
}

/// The row of a column's first 1, by the two bits that are asked for it.
#[inline(always)]
fn row_of(high: bool, low: bool) -> u32
    ensures few { result < 4 }
    ensures row { result ≡ row_index high low }
{
    match (high, low) {
        (false, false) => 0,
        (false, true) => 1,
        (true, false) => 2,
        (true, true) => 3,
    }
}

/// Reads the run mode of a column up to its first 1 (ISO/IEC 15444-1, Annex D.3.4), and returns its
/// word after it: the places from the first to that one have been read.
#[inline(always)]
fn read_run(
    decoder: &mut Decoder<'_>,
    words: &mut [u32; 340],
    grid: &mut [u32; 1024],
    n: usize,
    j: usize,
    word: u32,
    p: u32,
) -> u32
    requires some { 35 ≤ n }
    requires few { n + 35 < 340 }
    requires grid { j + 96 < 1024 }
    requires plane { p < 31 }
    ensures { (bytes : List ℕ) (s : Shape) (column stripe a b c d : ℕ)
        (st : List Cell × Interval) →
        AreRows s.width column stripe n j a b c d → AreNew st.0 a b c d →
        Holds bytes s p st (set words.old n word) grid.old decoder.old →
        Holds bytes s p (after bytes st (run_head s p a b c d))
        (set words.new n result) grid.new decoder.new }
{
    if !decoder.take(17) {
        return touched(word, 4);
    }
    let high = decoder.take(18);
    let low = decoder.take(18);
    let row = row_of(high, low);
    let before = touched(word, row);
    read_sign(decoder, words, grid, n, j, before, row, p)
}

/// Reads what a column asks before its places one by one: run mode, where it has it. Returns the
/// column's word after it.
#[inline(always)]
fn read_head(
    decoder: &mut Decoder<'_>,
    words: &mut [u32; 340],
    grid: &mut [u32; 1024],
    n: usize,
    j: usize,
    p: u32,
) -> u32
    requires some { 35 ≤ n }
    requires few { n + 35 < 340 }
    requires grid { j + 96 < 1024 }
    requires plane { p < 31 }
    ensures { (bytes : List ℕ) (s : Shape) (at stripe a b c d : ℕ)
        (st : List Cell × Interval) →
        AreRows s.width at stripe n j a b c d →
        Holds bytes s p st words.old grid.old decoder.old →
        Holds bytes s p (after bytes st (column_head s p a b c d))
        (set words.new n result) grid.new decoder.new }
{
    let word = words[n];
    if codes_run(word) {
        read_run(decoder, words, grid, n, j, word, p)
    } else {
        word
    }
}

/// Reads a column in a cleanup pass of plane `p` (D.3.4).
#[inline(always)]
pub fn cleanup_column(
    decoder: &mut Decoder<'_>,
    words: &mut [u32; 340],
    grid: &mut [u32; 1024],
    contexts: &[u8; 512],
    n: usize,
    j: usize,
    p: u32,
)
    requires some { 35 ≤ n }
    requires few { n + 35 < 340 }
    requires grid { j + 96 < 1024 }
    requires contexts { (k : ℕ) → k < 512 → get_or contexts.now k 0 < 19 }
    requires plane { p < 31 }
    ensures { (bytes : List ℕ) (s : Shape) (at stripe : ℕ) (is : List ℕ)
        (st : List Cell × Interval) →
        IsColumnAt s.width s.height is at stripe n j → AreContexts s.orient contexts.now →
        IsSettled p st.0 →
        Holds bytes s p st words.old grid.old decoder.old →
        Holds bytes s p (after bytes st (column cleanup s p is))
        words.new grid.new decoder.new }
{
    let word = read_head(decoder, words, grid, n, j, p);
    let first = cleanup_row(decoder, words, grid, contexts, n, j, word, 0, p);
    let second = cleanup_row(decoder, words, grid, contexts, n, j, first, 1, p);
    let third = cleanup_row(decoder, words, grid, contexts, n, j, second, 2, p);
    let fourth = cleanup_row(decoder, words, grid, contexts, n, j, third, 3, p);
    words[n] = fourth;
}
