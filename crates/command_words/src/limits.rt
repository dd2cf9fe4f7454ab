// Byte limits that words lower.
ghost use Rattle.std.specs.Prelude.{ℕ, ◌≡◌, ◌<◌, ◌^◌, ◌↔◌, IsTrue, MatchOption};
ghost use Rattle.std.specs.Prelude.{slice_index};
ghost use Rattle.std.specs.Str.Parse.{IsNumeral, digits_value};
ghost use Rattle.budget_duals.specs.declared.limits.Limits.{Limits};
ghost use Rattle.command_words.specs.Limits.{IsLimit, LimitBy, LimitsBy};
ghost use Rattle.command_words.specs.Taken.{word_of};

use budget_duals::Limits;
use cine_nums::{Budget, Profile};

/// Whether a word begins with `+`, which `parse` would take.
fn has_plus(word: &str) -> bool
    ensures { IsTrue result ↔ (slice_index word.now 0 ≡ 43) }
{
    word.starts_with('+')
}

/// The number below 2^32 that a word spells in decimal digits, if it is one.
pub fn number_of(word: &str) -> Option<u32>
    ensures { MatchOption result
        (IsNumeral 10 word.now → digits_value 10 word.now < 2 ^ 32 → ⊥)
        (λ n. IsNumeral 10 word.now × (n ≡ digits_value 10 word.now)) }
{
    if has_plus(word) {
        return None;
    }
    match word.parse::<u32>() {
        Ok(n) => Some(n),
        Err(_) => None,
    }
}

/// The number of bytes that a word spells, if it is 1 to `most`.
fn limit_of_word(word: &str, most: u32) -> Option<u32>
    ensures { MatchOption result ((n : ℕ) → IsLimit most word.now n → ⊥)
        (λ n. IsLimit most word.now n) }
{
    match number_of(word) {
        Some(n) if n >= 1 && n <= most => Some(n),
        _ => None,
    }
}

/// The limit by the word of its option, or the largest without one.
fn lowered(word: Option<&str>, most: u32) -> Option<u32>
    ensures { MatchOption result
        ((n : ℕ) → LimitBy most (word_of word.entry) n → ⊥)
        (λ n. LimitBy most (word_of word.entry) n) }
{
    match word {
        Some(word) => limit_of_word(word, most),
        None => Some(most),
    }
}

/// The limits of a profile, lowered by the words of the options for the whole codestream, for the
/// 2K portion and for each component, if they stand. None if one of them isn't a number from 1 to
/// the profile's limit, or if there is one for the 2K portion with 2K.
pub fn lowered_limits(
    profile: Profile,
    frame: Option<&str>,
    inner: Option<&str>,
    component: Option<&str>,
) -> Option<Limits>
    ensures { MatchOption result
        ((limits : Limits) → LimitsBy profile (word_of frame.entry)
        (word_of inner.entry) (word_of component.entry) limits → ⊥)
        (λ limits. LimitsBy profile (word_of frame.entry)
        (word_of inner.entry) (word_of component.entry) limits) }
{
    let frame = lowered(frame, profile.limit(Budget::Frame))?;
    let component = lowered(component, profile.limit(Budget::C0))?;
    match (profile, inner) {
        (Profile::TwoK, None) => Some(Limits {
            frame,
            inner: None,
            component: [component; 3],
        }),
        (Profile::TwoK, Some(_)) => None,
        (Profile::FourK, word) => {
            let inner = lowered(word, profile.limit(Budget::Inner))?;
            Some(Limits {
                frame,
                inner: Some(inner),
                component: [component; 3],
            })
        }
    }
}
