// The mode `encode`: encodes a folder of frames into a folder of codestreams.
ghost use Rattle.std.specs.Prelude.{ℕ, ◌≡◌, List, IfOk, IfSome, IfNone, MatchOption};
ghost use Rattle.budget_duals.specs.declared.limits.Limits.{Limits};
ghost use Rattle.cert_text.specs.Words.{profile_word};
ghost use Rattle.cine_nums.specs.declared.profile.Profile.{Profile};
ghost use Rattle.clap.specs.Matches.{first_value, found_of};
ghost use Rattle.clap.specs.Simple.{app_of};
ghost use Rattle.command_words.specs.Encode.{encode_command, AreEncode, IsEncode, NamesEncode};
ghost use Rattle.command_words.specs.Taken.{texts};

use crate::limits::lowered_limits;
use crate::taken::{is_mode, taken, with_option, with_positional, with_required_option};
use budget_duals::Limits;
use cine_nums::Profile;
use clap::{ArgMatches, Command};
use std::alloc::{AllocError, Global};

/// What the words of the mode `encode` name.
#[derive(Clone, Copy, Debug)]
pub struct EncodeWords<'a> {
    /// The folder of the frames.
    pub source: &'a str,
    /// The folder of the codestreams.
    pub target: &'a str,
    pub profile: Profile,
    /// The most bytes of each budget: the profile's, or less.
    pub limits: Limits,
}

/// The command of the mode.
fn encode_command<'a>(alloc: Global) -> Result<Command<'a>, AllocError>
    ensures { IfOk result (λ command. app_of command ≡ encode_command) }
{
    let mode = Command::new(alloc, "encode");
    let folder = with_positional(alloc, mode, "source")?;
    let folders = with_positional(alloc, folder, "target")?;
    let profiled = with_required_option(alloc, folders, "profile")?;
    let limited = with_option(alloc, profiled, "frame-bytes")?;
    let portioned = with_option(alloc, limited, "inner-bytes")?;
    with_option(alloc, portioned, "component-bytes")
}

/// The profile of a word, if it is one.
pub fn profile_of(word: &str) -> Option<Profile>
    ensures { MatchOption result ((profile : Profile) → word.now ≡ profile_word profile → ⊥)
        (λ profile. word.now ≡ profile_word profile) }
{
    match word {
        "2k" => Some(Profile::TwoK),
        "4k" => Some(Profile::FourK),
        _ => None,
    }
}

/// What the values of the arguments name, if each is of its kind.
fn named<'a>(matches: &ArgMatches<'a>) -> Option<EncodeWords<'a>>
    ensures { MatchOption result
        ((source target : List ℕ) (profile : Profile) (limits : Limits) →
        NamesEncode (first_value (found_of matches.now)) source target profile limits → ⊥)
        (λ words. NamesEncode (first_value (found_of matches.now)) words.source.now
        words.target.now words.profile words.limits) }
{
    let source = matches.get_str("source")?;
    let target = matches.get_str("target")?;
    let profile = profile_of(matches.get_str("profile")?)?;
    let limits = lowered_limits(
        profile,
        matches.get_str("frame-bytes"),
        matches.get_str("inner-bytes"),
        matches.get_str("component-bytes"),
    )?;
    Some(EncodeWords {
        source,
        target,
        profile,
        limits,
    })
}

/// What the words name if they are a command of the mode `encode`, and None exactly if they are
/// none.
pub fn encode_words<'a>(
    alloc: Global,
    words: &'a [String],
) -> Result<Option<EncodeWords<'a>>, AllocError>
    ensures none { IfOk result (λ found. IfNone found (AreEncode (texts words.entry.now) → ⊥)) }
    ensures named { IfOk result (λ found. IfSome found (λ named. IsEncode (texts words.entry.now)
        named.source.now named.target.now named.profile named.limits)) }
{
    if !is_mode(words, "encode") {
        return Ok(None);
    }
    let command = encode_command(alloc)?;
    match taken(command, words)? {
        Some(matches) => Ok(named(&matches)),
        None => Ok(None),
    }
}
