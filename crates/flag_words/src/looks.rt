// What a word says of a place.
ghost use Rattle.std.specs.Prelude.{◌≡◌, ◌<◌, ◌&&◌, ℕ, Bool, true, List, length};
ghost use Rattle.ebcot_contexts.specs.Cells.{Cell, cell_at, is_significant};
ghost use Rattle.ebcot_contexts.specs.Contexts.{Shape, refinement_at};
ghost use Rattle.ebcot_contexts.specs.Passes.{significance, refinement, cleanup, is_coded, is_calm};
ghost use Rattle.flag_words.specs.Words.{IsFlagWord, IsIn, IsColumn};

use crate::bits::{has, neighbours};

/// Whether a significance pass codes the place of row `r`.
#[inline(always)]
pub fn codes_significance(word: u32, r: u32) -> bool
    requires { r < 4 }
    ensures { (s : Shape) (p i column stripe : ℕ) (cells : List Cell) →
        IsIn s.width i column stripe r → 0 < s.width →
        IsFlagWord s.width p cells column stripe word →
        result ≡ is_coded significance s p i cells }
{
    let quiet = neighbours(word, r) == 0;
    !has(word, 21 + 3 * r) & !has(word, 4 + 3 * r) & !quiet
}

/// Whether a refinement pass codes the place of row `r`.
#[inline(always)]
pub fn codes_refinement(word: u32, r: u32) -> bool
    requires { r < 4 }
    ensures { (s : Shape) (p i column stripe : ℕ) (cells : List Cell) →
        IsIn s.width i column stripe r → 0 < s.width →
        IsFlagWord s.width p cells column stripe word →
        result ≡ is_coded refinement s p i cells }
{
    !has(word, 21 + 3 * r) & has(word, 4 + 3 * r)
}

/// Whether a cleanup pass codes the place of row `r`.
#[inline(always)]
pub fn codes_cleanup(word: u32, r: u32) -> bool
    requires { r < 4 }
    ensures { (s : Shape) (p i column stripe : ℕ) (cells : List Cell) →
        IsIn s.width i column stripe r → 0 < s.width →
        IsFlagWord s.width p cells column stripe word →
        result ≡ is_coded cleanup s p i cells }
{
    !has(word, 21 + 3 * r)
}

/// The context of the refinement of the place of row `r`, which is significant.
#[inline(always)]
pub fn refinement_context(word: u32, r: u32) -> u8
    requires { r < 4 }
    ensures few { result < 19 }
    ensures context { (s : Shape) (p i column stripe : ℕ) (cells : List Cell) →
        IsIn s.width i column stripe r → 0 < s.width →
        IsFlagWord s.width p cells column stripe word →
        is_significant (cell_at cells i) ≡ true → result ≡ refinement_at s cells i }
{
    let quiet = neighbours(word, r) == 0;
    ebcot_contexts::refinement(!has(word, 20 + 3 * r), !quiet)
}

/// Whether a cleanup pass codes the places of a column in run mode.
#[inline(always)]
pub fn codes_run(word: u32) -> bool
    ensures run { (s : Shape) (p column stripe a b c d : ℕ) (cells : List Cell) →
        IsColumn s.width column stripe a b c d → 0 < s.width →
        IsFlagWord s.width p cells column stripe word →
        result ≡ (is_calm s p cells a && is_calm s p cells b && is_calm s p cells c && is_calm s p cells d) }
    // such a column has four rows
    ensures inside { (s : Shape) (p i column stripe : ℕ) (cells : List Cell) →
        IsIn s.width i column stripe 3 → 0 < s.width →
        IsFlagWord s.width p cells column stripe word → result ≡ true → i < length cells }
{
    word & 0x4923_FFFF == 0
}
