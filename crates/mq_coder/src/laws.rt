// Laws of the definitions, for the crates above: a call of one of these functions, which do
// nothing, gives the caller its clause.
ghost use Rattle.std.specs.Prelude.{◌≡◌, ◌≤◌, ◌+◌, ◌*◌, ℕ, Bool, List, ◌++◌, length};
ghost use Rattle.mq_coder.specs.Code.{coded, code};
ghost use Rattle.mq_coder.specs.Decisions.{value, digits};
ghost use Rattle.mq_coder.specs.Laws.{Inverts, IsCodeForm, IsBetween};

/// Decoding inverts coding: for every list of symbols, the code that the list is written as decides
/// their bits when it is asked for their contexts, whatever contexts are asked afterwards.
pub fn inversion()
    ensures { (symbols : List (ℕ × Bool)) (further : List ℕ) → Inverts symbols further }
{}

/// The value of a byte string, the sum of its weighted bytes, is what its binary digits spell, so
/// that the decisions of a string, which compare digits, are those by its value.
pub fn weights()
    ensures { (bytes : List ℕ) (scale : ℕ) → value bytes scale ≡ digits bytes scale }
{}

/// A code has from one byte to two more than were put out before its ending, never ends in FF, and
/// has no byte above 8F after an FF.
pub fn code_form()
    ensures { (symbols : List (ℕ × Bool)) → IsCodeForm symbols }
{}

/// The bounds of the registers between two symbols.
pub fn register_bounds()
    ensures { (symbols : List (ℕ × Bool)) → IsBetween (coded symbols) }
{}

/// A list of symbols puts out at most 15 bytes for 7 of them, before its ending.
pub fn few_bytes()
    ensures { (symbols : List (ℕ × Bool)) →
        7 * length (coded symbols).bytes ≤ 15 * length symbols + 5 }
{}

/// Bytes that are put out stay: each code of a list that begins with some symbols is longer than
/// what these symbols put out.
pub fn later_codes()
    ensures { (symbols later : List (ℕ × Bool)) →
        length (coded symbols).bytes + 1 ≤ length (code (symbols ++ later)) }
{}
