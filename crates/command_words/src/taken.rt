// What the command of a mode makes of the words.
ghost use Rattle.std.specs.Prelude.{ℕ, ◌≡◌, ◌↔◌, List, [], Some, IfOk, IsTrue, MatchOption, true};
ghost use Rattle.std.specs.Prelude.{slice_get};
ghost use Rattle.clap.specs.Faults.{is_simple_and_free};
ghost use Rattle.clap.specs.Matches.{first_value, found_of};
ghost use Rattle.clap.specs.Simple.{app_of, with_rule};
ghost use Rattle.command_words.specs.Encode.{option, positional, required_option};
ghost use Rattle.command_words.specs.Taken.{refusals, texts, value_of};

use clap::error::ErrorKind;
use clap::{Arg, ArgMatches, Command};
use std::alloc::{AllocError, Global};

/// Whether the first word is this mode.
pub fn is_mode(words: &[String], mode: &str) -> bool
    ensures { IsTrue result ↔ (slice_get (texts words.now) 0 ≡ Some mode.now) }
{
    match words {
        [first, ..] => first.as_str() == mode,
        [] => false,
    }
}

/// The values of the words after the first one, if the command takes them.
pub fn taken<'a>(
    command: Command<'a>,
    words: &'a [String],
) -> Result<Option<ArgMatches<'a>>, AllocError>
    requires simple { is_simple_and_free (app_of command) ≡ true }
    ensures { IfOk result (λ found. MatchOption found
        (refusals (app_of command.entry) (texts words.entry.now) ≡ [] → ⊥)
        (λ matches. (refusals (app_of command.entry) (texts words.entry.now) ≡ [])
        × ((name : List ℕ) → first_value (found_of matches) name
        ≡ value_of (app_of command.entry) (texts words.entry.now) name))) }
{
    match command.try_get_matches_from(words) {
        Ok(matches) => Ok(Some(matches)),
        Err(error) if error.kind() == ErrorKind::OutOfMemory => Err(AllocError),
        Err(_) => Ok(None),
    }
}

/// The command with one argument more, which has no name in the words and has to stand there.
pub fn with_positional<'a>(
    alloc: Global,
    command: Command<'a>,
    name: &'a str,
) -> Result<Command<'a>, AllocError>
    ensures { IfOk result (λ more.
        app_of more ≡ with_rule (app_of command.entry) (positional name.entry.now)) }
{
    let argument = Arg::new(alloc, name).required(true);
    command.arg(argument)
}

/// The command with one option more, which has a value.
pub fn with_option<'a>(
    alloc: Global,
    command: Command<'a>,
    name: &'a str,
) -> Result<Command<'a>, AllocError>
    ensures { IfOk result (λ more.
        app_of more ≡ with_rule (app_of command.entry) (option name.entry.now)) }
{
    let argument = Arg::new(alloc, name).long(name);
    command.arg(argument)
}

/// The command with one option more, which has a value and has to stand there.
pub fn with_required_option<'a>(
    alloc: Global,
    command: Command<'a>,
    name: &'a str,
) -> Result<Command<'a>, AllocError>
    ensures { IfOk result (λ more.
        app_of more ≡ with_rule (app_of command.entry) (required_option name.entry.now)) }
{
    let argument = Arg::new(alloc, name).long(name).required(true);
    command.arg(argument)
}
