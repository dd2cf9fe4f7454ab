// Changes of a place's flags.
ghost use Rattle.std.specs.Prelude.{◌≡◌, ◌+◌, ◌*◌, ◌<◌, ◌≤◌, ℕ, Bool, false, true, List, length};
ghost use Rattle.std.specs.Prelude.{set};
ghost use Rattle.ebcot_contexts.specs.Cells.{Cell, cell_at, is_significant, become_significant};
ghost use Rattle.ebcot_contexts.specs.Passes.{learned};
ghost use Rattle.flag_words.specs.Words.{AreFlags, IsIn, IsOpen, IsNew, three_at, spread};

/// The word `word` of a column after the place of row `r` learned a bit of 0 and stays
/// insignificant.
#[inline(always)]
pub fn touch(word: u32, r: u32) -> u32
    requires { r < 4 }
    ensures { (w p i column stripe n : ℕ) (cells : List Cell) (words : List ℕ) →
        IsOpen w i column stripe r n cells → is_significant (cell_at cells i) ≡ false →
        AreFlags w p cells (set words n word) →
        AreFlags w p (learned p false i cells) (set words n result) }
{
    word | 1 << (21 + 3 * r)
}

/// The word of a column after the significant place of row `r` learned a bit.
#[inline(always)]
pub fn refine(word: u32, r: u32) -> u32
    requires { r < 4 }
    ensures { (w p i column stripe n : ℕ) (cells : List Cell) (words : List ℕ) (b : Bool) →
        IsOpen w i column stripe r n cells → is_significant (cell_at cells i) ≡ true →
        AreFlags w p cells (set words n word) →
        AreFlags w p (learned p b i cells) (set words n result) }
{
    word | 3 << (20 + 3 * r)
}

/// Sets bits of the words of a column and of the two beside it.
#[inline(always)]
fn set_three(words: &mut [u32; 340], n: usize, left: u32, middle: u32, right: u32)
    requires some { 1 ≤ n }
    requires few { n + 1 < 340 }
    ensures { words.new ≡ three_at words.old n left middle right }
{
    words[n - 1] |= left;
    words[n] |= middle;
    words[n + 1] |= right;
}

/// Sets the significance of row `r` of a column in the words around it.
#[inline(always)]
fn spread_around(words: &mut [u32; 340], n: usize, r: u32, minus: u32)
    requires row { r < 4 }
    requires bit { minus < 2 }
    requires some { 35 ≤ n }
    requires few { n + 35 < 340 }
    ensures { words.new ≡ spread words.old n r minus }
{
    words[n - 1] |= 0x20 << (3 * r);
    words[n + 1] |= 0x08 << (3 * r);
    if r == 0 {
        set_three(words, n - 34, 1 << 17, minus << 31 | 1 << 16, 1 << 15);
    }
    if r == 3 {
        set_three(words, n + 34, 1 << 2, minus << 18 | 1 << 1, 1);
    }
}

/// The word of a column after the place of row `r` became significant, with the words around it
/// changed.
#[inline(always)]
pub fn become_significant(
    words: &mut [u32; 340],
    n: usize,
    word: u32,
    r: u32,
    negative: bool,
) -> u32
    requires row { r < 4 }
    requires some { 35 ≤ n }
    requires few { n + 35 < 340 }
    ensures { (w p i column stripe : ℕ) (cells : List Cell) →
        IsOpen w i column stripe r n cells → IsNew (cell_at cells i) →
        AreFlags w p cells (set words.old n word) →
        AreFlags w p (set cells i (become_significant p negative (cell_at cells i)))
        (set words.new n result) }
{
    let minus = u32::from(negative);
    spread_around(words, n, r, minus);
    word | (minus << 19 | 1 << 4 | 1 << 21) << (3 * r)
}
