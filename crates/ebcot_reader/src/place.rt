// One place.
ghost use Rattle.std.specs.Prelude.{◌≡◌, ◌+◌, ◌-◌, ◌*◌, ◌<◌, ◌≤◌, ℕ, Bool, false, List};
ghost use Rattle.std.specs.Prelude.{length, set};
ghost use Rattle.mq_coder.specs.Decisions.{Interval};
ghost use Rattle.ebcot_contexts.specs.Cells.{Cell, cell_at, is_significant};
ghost use Rattle.ebcot_contexts.specs.Contexts.{Shape};
ghost use Rattle.ebcot_contexts.specs.Passes.{sign_asked, place};
ghost use Rattle.ebcot_reader.specs.Columns.{IsRow};
ghost use Rattle.ebcot_reader.specs.Reading.{Holds, after};

use flag_words::{become_significant, sign_context, touch};
use mq_decoder::Decoder;

/// Reads the sign of a place that becomes significant in plane `p` (ISO/IEC 15444-1, Annex D.3.2),
/// and returns its column's word after it.
#[inline(always)]
pub fn read_sign(
    decoder: &mut Decoder<'_>,
    words: &mut [u32; 340],
    grid: &mut [u32; 1024],
    n: usize,
    j: usize,
    word: u32,
    r: u32,
    p: u32,
) -> u32
    requires row { r < 4 }
    requires some { 35 ≤ n }
    requires few { n + 35 < 340 }
    requires grid { j + 96 < 1024 }
    requires plane { p < 31 }
    ensures { (bytes : List ℕ) (s : Shape) (i column stripe : ℕ)
        (st : List Cell × Interval) →
        IsRow s.width i column stripe r n j → i < length st.0 →
        is_significant (cell_at st.0 i) ≡ false →
        Holds bytes s p st (set words.old n word) grid.old decoder.old →
        Holds bytes s p (after bytes st (sign_asked s p i))
        (set words.new n result) grid.new decoder.new }
{
    let (cx, flip) = sign_context(words[n - 1], word, words[n + 1], r);
    let negative = flip != decoder.take(cx);
    grid[j + 32 * r as usize] = (u32::from(negative) << 31) + (1 << p);
    become_significant(words, n, word, r, negative)
}

/// Reads a bit of an insignificant place in the context `cx`, and its sign where the bit is 1, and
/// returns its column's word after it.
#[inline(always)]
pub fn read_place(
    decoder: &mut Decoder<'_>,
    words: &mut [u32; 340],
    grid: &mut [u32; 1024],
    n: usize,
    j: usize,
    word: u32,
    r: u32,
    cx: u8,
    p: u32,
) -> u32
    requires row { r < 4 }
    requires some { 35 ≤ n }
    requires few { n + 35 < 340 }
    requires grid { j + 96 < 1024 }
    requires context { cx < 19 }
    requires plane { p < 31 }
    ensures { (bytes : List ℕ) (s : Shape) (i column stripe : ℕ)
        (st : List Cell × Interval) →
        IsRow s.width i column stripe r n j → i < length st.0 →
        is_significant (cell_at st.0 i) ≡ false →
        Holds bytes s p st (set words.old n word) grid.old decoder.old →
        Holds bytes s p (after bytes st (place s cx p i))
        (set words.new n result) grid.new decoder.new }
{
    if decoder.take(cx) {
        read_sign(decoder, words, grid, n, j, word, r, p)
    } else {
        touch(word, r)
    }
}
