//! The lines of the report: certificate lines of frames that were written, lines of codestreams
//! that were read, and lines of files that were refused. The form of each is this project's own
//! (docs/FORMATS.md).
//!
//! A line is a function of what it says (specs/Lines.antt), and `write_cert`, `write_read` and
//! `write_refused` write exactly that. `read_cert` reads certificate lines, each and nothing else,
//! and names the place at which other bytes cease to go on as one; `read_back` says that what
//! `write_cert` wrote is read with the same values.
#![tactic(auto)]

mod cert_line;
mod cert_reading;
mod cert_refusal;
mod characters;
mod escaping;
mod head;
mod laws;
mod parts;
mod read_line;
mod read_name;
mod refusals;
mod refused_line;
mod step_reading;
mod words;

pub use cert_line::{CertLine, write_cert};
pub use cert_reading::read_cert;
pub use cert_refusal::CertRefusal;
pub use escaping::escaped;
pub use laws::read_back;
pub use read_line::{ReadLine, write_read};
pub use refusals::refusal_word;
pub use refused_line::{RefusedLine, write_refused};
pub use words::{budget_word, profile_word};

#[cfg(test)]
mod read_tests;
#[cfg(test)]
mod tests;
