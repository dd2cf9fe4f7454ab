// The mode `demo`: encodes a frame that is made from a number, and reads it back.
ghost use Rattle.std.specs.Prelude.{ℕ, ◌≡◌, IfOk, IfSome, IfNone, MatchOption};
ghost use Rattle.budget_duals.specs.declared.limits.Limits.{Limits};
ghost use Rattle.cine_nums.specs.declared.profile.Profile.{Profile};
ghost use Rattle.clap.specs.Matches.{first_value, found_of};
ghost use Rattle.clap.specs.Simple.{app_of};
ghost use Rattle.command_words.specs.Demo.{demo_command, AreDemo, IsDemo, NamesDemo};
ghost use Rattle.command_words.specs.Taken.{texts};

use crate::encode::profile_of;
use crate::limits::{lowered_limits, number_of};
use crate::taken::{is_mode, taken, with_option, with_positional, with_required_option};
use budget_duals::Limits;
use cine_nums::Profile;
use clap::{ArgMatches, Command};
use std::alloc::{AllocError, Global};

/// What the words of the mode `demo` name.
#[derive(Clone, Copy, Debug)]
pub struct DemoWords {
    /// The number that the frame is made from.
    pub number: u32,
    pub profile: Profile,
    /// The most bytes of each budget: the profile's, or less.
    pub limits: Limits,
}

/// The command of the mode.
fn demo_command<'a>(alloc: Global) -> Result<Command<'a>, AllocError>
    ensures { IfOk result (λ command. app_of command ≡ demo_command) }
{
    let mode = Command::new(alloc, "demo");
    let numbered = with_positional(alloc, mode, "number")?;
    let profiled = with_required_option(alloc, numbered, "profile")?;
    let limited = with_option(alloc, profiled, "frame-bytes")?;
    let portioned = with_option(alloc, limited, "inner-bytes")?;
    with_option(alloc, portioned, "component-bytes")
}

/// What the values of the arguments name, if each is of its kind.
fn named(matches: &ArgMatches<'_>) -> Option<DemoWords>
    ensures { MatchOption result
        ((number : ℕ) (profile : Profile) (limits : Limits) →
        NamesDemo (first_value (found_of matches.now)) number profile limits → ⊥)
        (λ words. NamesDemo (first_value (found_of matches.now)) words.number words.profile
        words.limits) }
{
    let number = number_of(matches.get_str("number")?)?;
    let profile = profile_of(matches.get_str("profile")?)?;
    let limits = lowered_limits(
        profile,
        matches.get_str("frame-bytes"),
        matches.get_str("inner-bytes"),
        matches.get_str("component-bytes"),
    )?;
    Some(DemoWords {
        number,
        profile,
        limits,
    })
}

/// What the words name if they are a command of the mode `demo`, and None exactly if they are none.
/// The number is one or more decimal digits, worth 0 to 4,294,967,295.
pub fn demo_words(alloc: Global, words: &[String]) -> Result<Option<DemoWords>, AllocError>
    ensures none { IfOk result (λ found. IfNone found (AreDemo (texts words.now) → ⊥)) }
    ensures named { IfOk result (λ found. IfSome found (λ named. IsDemo (texts words.now)
        named.number named.profile named.limits)) }
{
    if !is_mode(words, "demo") {
        return Ok(None);
    }
    let command = demo_command(alloc)?;
    match taken(command, words)? {
        Some(matches) => Ok(named(&matches)),
        None => Ok(None),
    }
}
