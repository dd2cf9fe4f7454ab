//! The outside of the encoder as the system has it: a folder of frames (`FolderFrames`), a folder
//! of codestreams (`FolderOutputs`), and standard output (`StdoutReport`), each of which is one of
//! the traits of `cine_ports`.
//!
//! This crate is what has to be trusted beside the toolchain: its objects are proved to meet their
//! traits, but no contract can say which bytes a file holds or a terminal shows. So it is kept
//! small.
//!
//! An error of the system is a failure, save out of memory, which is passed on as such. A call that
//! a signal interrupted is made again, a bounded number of times.
//!
//! ```
//! let mut frames = FolderFrames::new(rt.clone()?, source, suffix);
//! let mut outputs = FolderOutputs::new(rt.clone()?, target);
//! let mut report = StdoutReport::new(rt.clone()?);
//! ```
#![tactic(auto)]

mod failure_mark;
mod folder_frames;
mod folder_outputs;
mod interrupted;
mod part;
mod stdout_report;

pub use folder_frames::FolderFrames;
pub use folder_outputs::FolderOutputs;
pub use stdout_report::StdoutReport;

#[cfg(test)]
mod tests;
