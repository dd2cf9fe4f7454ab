//! What the words of the command line order. Each mode is one simple command of `clap`. Which words
//! are a command of the mode, and what they name, is a definition in `specs/`: the command takes
//! them (`refusals` of Taken.antt), and their values are folders, a profile and byte limits
//! (Encode.antt), one folder (Check.antt), or a number, a profile and byte limits (Demo.antt).
//!
//! Options of byte limits lower those of the profile and never raise them (DCI Digital Cinema
//! System Specification, section 4). A number is one or more decimal digits.
//!
//! ```text
//! encode frames out --profile 2k --frame-bytes 1000000
//! check out
//! demo 1 --profile 4k
//! ```
#![tactic(auto)]

mod check;
mod demo;
mod encode;
mod limits;
mod request;
mod taken;
#[cfg(test)]
mod tests;

pub use check::{CheckWords, check_words};
pub use demo::{DemoWords, demo_words};
pub use encode::{EncodeWords, encode_words};
pub use request::{Request, request_of};
