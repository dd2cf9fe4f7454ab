// The words of a block of which nothing is known, and those of the next plane.
ghost use Rattle.std.specs.Prelude.{◌≡◌, ◌-◌, ◌*◌, ◌<◌, ◌≤◌, ℕ, Bool, suc, List, length};
ghost use Rattle.ebcot_contexts.specs.Cells.{Cell, cell_at};
ghost use Rattle.ebcot_contexts.specs.Contexts.{Shape};
ghost use Rattle.ebcot_contexts.specs.Passes.{start};
ghost use Rattle.flag_words.specs.Words.{AreFlags};
ghost use Rattle.flag_words.specs.Blank.{is_beside, is_below, blank_of, next_of};

/// Whether a column of a stripe has no place of the block, `width` places wide, whatever its stripe,
/// or is above it. Columns count from 0 for the one left of the block, stripes from 0 for the one
/// above it.
#[inline(always)]
fn is_beside(width: usize, column: usize, stripe: usize) -> bool
    ensures { result ≡ is_beside width column stripe }
{
    column == 0 || width < column || stripe == 0
}

/// Whether row `row` of a stripe, counted from 0 for the one above the block, is below the block.
#[inline(always)]
fn is_below(height: usize, stripe: usize, row: usize) -> bool
    requires row { row < 4 }
    requires stripe { stripe < 10 }
    requires height { height ≤ 32 }
    ensures { result ≡ is_below height stripe row }
{
    height + 4 <= 4 * stripe + row
}

/// The word of a column of which nothing is known: its rows outside the block are touched.
#[inline(always)]
#[tactic(auto, using(crate::proofs::BlankLemmas::beside_blank, crate::proofs::BlankLemmas::inside_blank, crate::proofs::BlankLemmas::below_blank))]
fn blank_word(width: usize, height: usize, n: usize) -> u32
    requires index { n < 340 }
    requires height { height ≤ 32 }
    ensures { result ≡ blank_of width height n }
{
    let (column, stripe) = (n % 34, n / 34);
    if is_beside(width, column, stripe) {
        return 0x4920_0000;
    }
    // all four rows are in the block
    if 4 * stripe <= height {
        return 0;
    }
    (u32::from(is_below(height, stripe, 0)) << 21)
        + (u32::from(is_below(height, stripe, 1)) << 24)
        + (u32::from(is_below(height, stripe, 2)) << 27)
        + (u32::from(is_below(height, stripe, 3)) << 30)
}

/// The flags of a block of 1 to 32 places each way of which nothing is known.
pub fn blank(width: usize, height: usize) -> [u32; 340]
    requires width { width ≤ 32 }
    requires height { height ≤ 32 }
    ensures { (s : Shape) → s.width ≡ width → s.height ≡ height → 1 ≤ s.planes →
        AreFlags width (s.planes - 1) (start s) result }
{
    let mut words = [0; 340];
    for n in 0..340 {
        words[n] = blank_word(width, height, n);
    }
    words
}

/// The flags of the plane below, once each place's bit of the plane is known: no place of the block
/// is touched in it yet. `blank` are the flags of the block of which nothing is known.
pub fn next_plane(words: &mut [u32; 340], blank: &[u32; 340])
    ensures { (s : Shape) (p : ℕ) (cells : List Cell) → 1 ≤ s.planes →
        AreFlags s.width (s.planes - 1) (start s) blank.now →
        length cells ≡ s.width * s.height →
        ((i : ℕ) → i < s.width * s.height → (cell_at cells i).unknown ≡ suc p) →
        AreFlags s.width (suc p) cells words.old → AreFlags s.width p cells words.new }
{
    for n in 0..340 {
        words[n] = words[n] & 0xB6DF_FFFF | blank[n];
    }
}
