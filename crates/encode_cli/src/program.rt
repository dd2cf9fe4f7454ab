// The program below `main`: its objects, its status, and what it says on standard error.
ghost use Rattle.std.specs.Prelude.{◌≡◌, ◌⊎◌, ◌==◌, ◌≤◌, false, IfOk};
ghost use Rattle.std.specs.Process.{exit_status};
ghost use Rattle.command_words.specs.Taken.{texts};
ghost use Rattle.cinema_run.specs.Arguments.{AreCommand};

use crate::help::page_of;
use cine_ports::{Frames, NullOutputs, SteadyFrames};
use cinema_run::{FolderWords, places, run};
use std::alloc::AllocError;
use std::process::ExitCode;
use std::{fs, io};
use system_ports::{FolderFrames, FolderOutputs, StdoutReport};

/// What standard error says at the end of a run with this status, if anything.
fn message(status: u8) -> Option<&'static str> {
    match status {
        2 => Some(
            "usage: cinema encode SRC DST --profile 2k|4k | check SRC | demo N --profile 2k|4k",
        ),
        3 => Some("source failed"),
        4 => Some("output failed"),
        5 => Some("report failed"),
        6 => Some("out of memory"),
        _ => None,
    }
}

/// Runs over these frames, into the target folder if there is one, and returns the run's status.
fn run_over<F: Frames>(
    rt: &HostRuntime,
    words: &[String],
    frames: &mut F,
    target: Option<String>,
) -> Result<u8, AllocError>
    requires working { F.has_failed frames.old ≡ false }
    requires unlisted { (F.source frames.old).is_listed ≡ false }
    ensures range { IfOk result (λ status. status ≤ 6) }
    ensures command { IfOk result (λ status. AreCommand (texts words.now) → status ≡ 2 → ⊥) }
    ensures no_command { IfOk result (λ status. (AreCommand (texts words.now) → ⊥) →
        (status ≡ 2) ⊎ (status ≡ 6)) }
    ensures source_failed { IfOk result (λ status. F.has_failed frames.new ≡ (status == 3)) }
{
    let alloc = rt.alloc();
    let mut report = StdoutReport::new(rt.clone()?);
    match target {
        Some(folder) => {
            let mut outputs = FolderOutputs::new(rt.clone()?, folder);
            Ok(run(alloc, words, frames, &mut outputs, &mut report))
        }
        None => {
            let mut outputs = NullOutputs::new();
            Ok(run(alloc, words, frames, &mut outputs, &mut report))
        }
    }
}

/// Runs over no frames at all, with outputs that keep nothing, and returns the status of the run.
fn run_over_none(rt: &HostRuntime, words: &[String]) -> Result<u8, AllocError>
    ensures range { IfOk result (λ status. status ≤ 6) }
    ensures command { IfOk result (λ status. AreCommand (texts words.now) → status ≡ 2 → ⊥) }
    ensures no_command { IfOk result (λ status. (AreCommand (texts words.now) → ⊥) →
        (status ≡ 2) ⊎ (status ≡ 6)) }
{
    let mut frames = SteadyFrames::new(Vec::new(rt.alloc()));
    run_over(rt, words, &mut frames, None)
}

/// Makes the objects that the words name, runs over them, and returns the status: that of the run,
/// or 5 where standard output is closed.
fn run_words(rt: &HostRuntime, words: &[String]) -> Result<u8, AllocError>
    ensures range { IfOk result (λ status. status ≤ 6) }
    ensures command { IfOk result (λ status. AreCommand (texts words.now) → status ≡ 2 → ⊥) }
    ensures no_command { IfOk result (λ status. (AreCommand (texts words.now) → ⊥) →
        (status ≡ 2) ⊎ (status ≡ 6)) }
{
    let alloc = rt.alloc();
    let Some(folders) = places(alloc, words)? else {
        return run_over_none(rt, words);
    };
    // Where standard output is closed, the next opened file would take its place.
    if fs::metadata(rt, "/dev/stdout").is_err() {
        return Ok(5);
    }
    let FolderWords {
        source,
        target,
        suffix,
    } = folders;
    let Some(folder) = source else {
        return run_over_none(rt, words);
    };
    let mut frames = FolderFrames::new(rt.clone()?, folder, suffix);
    run_over(rt, words, &mut frames, target)
}

/// Says on standard error what a status means, and then this page, if there is one, and makes the
/// status the exit status.
fn end(rt: &HostRuntime, status: u8, page: Option<&str>) -> ExitCode
    ensures { exit_status result ≡ status }
{
    if let Some(text) = message(status) {
        let _ = eprintln!(rt; "{text}");
    }
    if let Some(text) = page {
        let _ = eprint!(rt; "{text}");
    }
    ExitCode::from(status)
}

/// Runs over what the words after the program's name say, and returns the exit status: that of the
/// run, 2 where the words can't be read, and 6 where memory runs out.
pub fn run_program(rt: &HostRuntime, words: io::Result<Vec<String>>) -> ExitCode
    ensures range { exit_status result ≤ 6 }
    // Words that are a command never end with 2, and others with 2 unless memory runs out.
    ensures command { IfOk words
        (λ words. AreCommand (texts words.items) → exit_status result ≡ 2 → ⊥) }
    ensures no_command { IfOk words (λ words. (AreCommand (texts words.items) → ⊥) →
        (exit_status result ≡ 2 → ⊥) → exit_status result ≡ 6) }
{
    match words {
        Ok(words) => match run_words(rt, words.as_slice()) {
            Ok(status) => end(rt, status, page_of(status, words.as_slice())),
            Err(AllocError) => end(rt, 6, None),
        },
        Err(error) if error.kind() == io::ErrorKind::OutOfMemory => end(rt, 6, None),
        Err(_) => end(rt, 2, None),
    }
}

#[cfg(test)]
mod tests {
    use super::*;
    use crate::tests::words;
    use std::test::Fail;

    /// A grey frame of one pixel.
    const GREY: &[u8] = b"P6\n1 1\n4095\n\x08\x00\x08\x00\x08\x00";

    /// The same with 16 bits a sample, which is refused.
    const DEEP: &[u8] = b"P6\n1 1\n65535\n\x08\x00\x08\x00\x08\x00";

    /// Words, and the exit status of the program for them.
    const STATUSES: &[(&str, &str)] = &[
        (
            "encode test-status/src test-status/dst --profile 2k",
            "ExitCode(unix_exit_status(0))",
        ),
        (
            "encode test-status/deep test-status/dst --profile 2k",
            "ExitCode(unix_exit_status(1))",
        ),
        (
            "encode test-status/src test-status/dst --profile 3k",
            "ExitCode(unix_exit_status(2))",
        ),
        (
            "encode test-status/none test-status/dst --profile 2k",
            "ExitCode(unix_exit_status(3))",
        ),
        (
            "encode test-status/src test-status/src/a.ppm --profile 2k",
            "ExitCode(unix_exit_status(4))",
        ),
        ("check test-status/dst", "ExitCode(unix_exit_status(0))"),
        ("check test-status/cut", "ExitCode(unix_exit_status(1))"),
        ("check test-status/none", "ExitCode(unix_exit_status(3))"),
        (
            "demo 0 --profile 2k --frame-bytes 349",
            "ExitCode(unix_exit_status(1))",
        ),
        (
            "demo 4294967296 --profile 2k",
            "ExitCode(unix_exit_status(2))",
        ),
    ];

    #[test]
    fn the_program_ends_with_the_status_of_its_run(rt: HostRuntime) -> Result<(), Fail> {
        let alloc = rt.alloc();
        let _ = fs::remove_dir_all(&rt, "test-status");
        fs::create_dir_all(&rt, "test-status/src")?;
        fs::create_dir_all(&rt, "test-status/deep")?;
        fs::write(&rt, "test-status/src/a.ppm", GREY)?;
        fs::write(&rt, "test-status/deep/a.ppm", DEEP)?;
        fs::create_dir_all(&rt, "test-status/cut")?;
        fs::write(&rt, "test-status/cut/a.j2c", b"\xFF\x4F")?;
        for (line, want) in STATUSES {
            let mut words = Vec::new(alloc);
            for word in line.split_whitespace() {
                words.push(String::from_str(alloc, word)?)?;
            }
            let code = run_program(&rt, Ok(words));
            let shown = format!(in alloc; "{code:?}")?;
            assert!(rt; shown.as_str() == *want, "{line}");
        }
        fs::remove_dir_all(&rt, "test-status")?;
        Ok(())
    }

    /// Words, and the source, the target and the suffix of their command, `-` for none.
    const PLACES: &[(&str, &str, &str, &str)] = &[
        ("encode src dst --profile 2k", "src", "dst", ".ppm"),
        ("check dst", "dst", "-", ".j2c"),
        ("demo 1 --profile 2k", "-", "-", ""),
    ];

    fn shown(folder: &Option<String>) -> &str {
        match folder {
            Some(folder) => folder.as_str(),
            None => "-",
        }
    }

    #[test]
    fn places_of_a_command(rt: HostRuntime) -> Result<(), Fail> {
        for (text, source, target, suffix) in PLACES {
            let words = words(rt.alloc(), text)?;
            let found = places(rt.alloc(), words.as_slice())?.ok_or("no command")?;
            assert_eq!(rt; shown(&found.source), *source);
            assert_eq!(rt; shown(&found.target), *target);
            assert_eq!(rt; found.suffix.as_str(), *suffix);
        }
        Ok(())
    }
}
