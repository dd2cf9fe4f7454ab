// Single bits of a word.
ghost use Rattle.std.specs.Prelude.{◌≡◌, ◌+◌, ◌*◌, ◌<◌, ◌==◌, ℕ};
ghost use Rattle.std.specs.Int.{bit_at};
ghost use Rattle.flag_words.specs.Lookups.{neighbours_of};

/// Bit `k` of a word.
#[inline(always)]
pub fn bit(word: u32, k: u32) -> u32
    requires { k < 32 }
    ensures { result ≡ bit_at word k }
{
    word >> k & 1
}

/// Whether bit `k` of a word is set.
#[inline(always)]
pub fn has(word: u32, k: u32) -> bool
    requires { k < 32 }
    ensures { result ≡ (bit_at word k == 1) }
{
    word >> k & 1 == 1
}

/// The significance of the eight neighbours of the place of row `r`: bit 3 j + c for row j and
/// column c of the nine places in and around it, and 0 for the place itself.
#[inline(always)]
pub fn neighbours(word: u32, r: u32) -> u32
    requires { r < 4 }
    ensures { result ≡ neighbours_of word r }
{
    word >> (3 * r) & 0x1EF
}
