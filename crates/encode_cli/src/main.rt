//! The program `cinema`: encodes a folder of 12-bit X'Y'Z' frames (ppm(5), magic P6, maxval 4095)
//! into JPEG 2000 codestreams of a digital cinema profile, 2K or 4K (ISO/IEC 15444-1), one for each
//! frame, within the byte limits of the DCI Digital Cinema System Specification; checks a folder of
//! codestreams, whoever wrote them; and shows both with a frame that it makes from a number.
//!
//! `run` of `cinema_run` promises what is written, what is said and why a run ended. `run_program`
//! makes its objects and the exit status, and `main` only gives it the words.
//!
//! ```text
//! cinema encode frames out --profile 2k
//! cinema encode frames out --profile 4k --frame-bytes 1200000
//! cinema check out
//! cinema demo 1 --profile 2k
//! ```
#![tactic(auto)]

#[cfg(test)]
mod check_tests;
#[cfg(test)]
mod demo_tests;
mod help;
mod program;
#[cfg(test)]
mod tests;

use program::run_program;
use std::process::ExitCode;
use std::{env, io};

/// The words after the program's name.
fn words_of(rt: &HostRuntime) -> io::Result<Vec<String>> {
    let mut words = Vec::new(rt.alloc());
    for word in env::args(rt)?.skip(1) {
        words.push(word)?;
    }
    Ok(words)
}

fn main(rt: HostRuntime) -> ExitCode {
    run_program(&rt, words_of(&rt))
}
