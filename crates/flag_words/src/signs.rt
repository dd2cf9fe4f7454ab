// Contexts of signs by a table.
ghost use Rattle.std.specs.Prelude.{◌≡◌, ◌+◌, ◌-◌, ◌*◌, ◌<◌, ℕ, List};
ghost use Rattle.ebcot_contexts.specs.Cells.{Cell};
ghost use Rattle.ebcot_contexts.specs.Contexts.{Shape, sign_at};
ghost use Rattle.flag_words.specs.Words.{IsFlagWord, IsIn};
ghost use Rattle.flag_words.specs.Lookups.{index_of};

use crate::bits::bit;

/// Tables D.2 and D.3 in one: the context of a sign, and 128 more where its bit is flipped. Of an
/// index, the bits 1, 3, 5 and 7 are the significance of the neighbours above, left, right and
/// below, and the bits 4, 0, 2 and 6 say which of them are negative.
#[rattlefmt::skip]
static SIGN_CONTEXTS: [u8; 256] = [
    9, 9, 10, 10, 9, 9, 10, 10, 12, 140, 13, 139, 12, 140, 13, 139,
    9, 9, 138, 138, 9, 9, 138, 138, 12, 140, 11, 141, 12, 140, 11, 141,
    12, 12, 13, 13, 140, 140, 139, 139, 12, 9, 13, 10, 9, 140, 10, 139,
    12, 12, 11, 11, 140, 140, 141, 141, 12, 9, 11, 138, 9, 140, 138, 141,
    9, 9, 10, 10, 9, 9, 10, 10, 12, 140, 13, 139, 12, 140, 13, 139,
    9, 9, 138, 138, 9, 9, 138, 138, 12, 140, 11, 141, 12, 140, 11, 141,
    12, 12, 13, 13, 140, 140, 139, 139, 12, 9, 13, 10, 9, 140, 10, 139,
    12, 12, 11, 11, 140, 140, 141, 141, 12, 9, 11, 138, 9, 140, 138, 141,
    10, 10, 10, 10, 10, 10, 10, 10, 13, 139, 13, 139, 13, 139, 13, 139,
    10, 10, 9, 9, 10, 10, 9, 9, 13, 139, 12, 140, 13, 139, 12, 140,
    13, 13, 13, 13, 139, 139, 139, 139, 13, 10, 13, 10, 10, 139, 10, 139,
    13, 13, 12, 12, 139, 139, 140, 140, 13, 10, 12, 9, 10, 139, 9, 140,
    138, 138, 9, 9, 138, 138, 9, 9, 11, 141, 12, 140, 11, 141, 12, 140,
    138, 138, 138, 138, 138, 138, 138, 138, 11, 141, 11, 141, 11, 141, 11, 141,
    11, 11, 12, 12, 141, 141, 140, 140, 11, 138, 12, 9, 138, 141, 9, 140,
    11, 11, 11, 11, 141, 141, 141, 141, 11, 138, 11, 138, 138, 141, 138, 141,
];

/// The index of a sign's context, by the words of the place's column and of those to its left and
/// right.
#[inline(always)]
fn sign_index(left: u32, word: u32, right: u32, r: u32) -> u32
    requires { r < 4 }
    ensures { result ≡ index_of left word right r }
{
    let above = if r == 0 {
        bit(word, 18)
    } else {
        bit(word, 3 * r + 16)
    };
    bit(left, 3 * r + 19)
        + 2 * bit(word, 3 * r + 1)
        + 4 * bit(right, 3 * r + 19)
        + 8 * bit(word, 3 * r + 3)
        + 16 * above
        + 32 * bit(word, 3 * r + 5)
        + 64 * bit(word, 3 * r + 22)
        + 128 * bit(word, 3 * r + 7)
}

/// The context of the sign of the place of row `r`, and whether its bit is flipped, by the words of
/// the place's column and of those to its left and right.
#[inline(always)]
pub fn sign_context(left: u32, word: u32, right: u32, r: u32) -> (u8, bool)
    requires { r < 4 }
    ensures few { result.0 < 19 }
    ensures context { (s : Shape) (p i column stripe : ℕ) (cells : List Cell) →
        IsIn s.width i column stripe r → 0 < s.width →
        IsFlagWord s.width p cells (column - 1) stripe left →
        IsFlagWord s.width p cells column stripe word →
        IsFlagWord s.width p cells (column + 1) stripe right → result ≡ sign_at s cells i }
{
    let packed = SIGN_CONTEXTS[sign_index(left, word, right, r) as usize];
    (packed & 0x7F, 0x80 <= packed)
}
