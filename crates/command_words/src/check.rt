// The mode `check`: reads a folder of codestreams.
ghost use Rattle.std.specs.Prelude.{ℕ, ◌≡◌, List, Some, codes, IfOk, IfSome, IfNone, MatchOption};
ghost use Rattle.clap.specs.Matches.{first_value, found_of};
ghost use Rattle.clap.specs.Simple.{app_of};
ghost use Rattle.command_words.specs.Check.{check_command, AreCheck, IsCheck};
ghost use Rattle.command_words.specs.Taken.{texts};

use crate::taken::{is_mode, taken, with_positional};
use clap::{ArgMatches, Command};
use std::alloc::{AllocError, Global};

/// What the words of the mode `check` name.
#[derive(Clone, Copy, Debug)]
pub struct CheckWords<'a> {
    /// The folder of the codestreams.
    pub source: &'a str,
}

/// The command of the mode.
fn check_command<'a>(alloc: Global) -> Result<Command<'a>, AllocError>
    ensures { IfOk result (λ command. app_of command ≡ check_command) }
{
    let mode = Command::new(alloc, "check");
    with_positional(alloc, mode, "source")
}

/// What the value of the argument names.
fn named<'a>(matches: &ArgMatches<'a>) -> Option<CheckWords<'a>>
    ensures { MatchOption result
        ((source : List ℕ) → first_value (found_of matches.now) (codes "source") ≡ Some source → ⊥)
        (λ words. first_value (found_of matches.now) (codes "source") ≡ Some words.source.now) }
{
    let source = matches.get_str("source")?;
    Some(CheckWords { source })
}

/// What the words name if they are a command of the mode `check`, and None exactly if they are
/// none.
pub fn check_words<'a>(
    alloc: Global,
    words: &'a [String],
) -> Result<Option<CheckWords<'a>>, AllocError>
    ensures none { IfOk result (λ found. IfNone found (AreCheck (texts words.entry.now) → ⊥)) }
    ensures named { IfOk result (λ found. IfSome found
        (λ named. IsCheck (texts words.entry.now) named.source.now)) }
{
    if !is_mode(words, "check") {
        return Ok(None);
    }
    let command = check_command(alloc)?;
    match taken(command, words)? {
        Some(matches) => Ok(named(&matches)),
        None => Ok(None),
    }
}
