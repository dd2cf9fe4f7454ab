//! A run of the program: what it makes of its words and of a source of frames or codestreams, over
//! the outside as the traits of `cine_ports` have it.
//!
//! [`run`] encodes each frame of a source, checks each codestream, or encodes a made frame and reads
//! it back, and promises what is written, what is said and why a run ended. Its words stand in
//! `specs`: Run and RightDemo, in the words of Right and RightCheck. [`places`] are the folders that
//! the words name. `said_lines` and `written_is_read` are laws: they do nothing, and their clauses
//! say that lines are read as they were written, and that codestreams are.
//!
//! ```
//! let mut outputs = MemoryOutputs::new(alloc);
//! let status = run(alloc, &words, &mut frames, &mut outputs, &mut report);
//! ```
#![tactic(auto)]

mod arguments;
mod check;
mod demo;
mod frame;
mod frames;
mod laws;
mod output;
mod refusal;
mod report_line;
mod running;
mod stop;
mod stream_refused;
mod verdict;
mod widths;

pub use arguments::{FolderWords, places};
pub use laws::{said_lines, written_is_read};
pub use running::run;
