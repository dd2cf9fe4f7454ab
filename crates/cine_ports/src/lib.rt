//! The outside of the encoder as three traits: where frames come from (`Frames`), where codestreams
//! go (`Outputs`), and where the lines of a run go (`Report`). Each is here in memory, where its
//! bytes are known and chosen calls fail; as a folder or standard output it stands in
//! `system_ports`.
//!
//! An object knows whether a call of it has failed (`has_failed`): a call sets that exactly if it
//! returns Failed, and each call asks that it isn't set. So no call is made after one that failed,
//! and a failure can't be passed over by trying again. What was moved before it is a prefix of what
//! was asked for, byte for byte.
//!
//! ```
//! frames.list()?;
//! for i in 0..frames.count() {
//!     frames.begin(i)?;
//!     let n = read_fully(&mut frames, &mut buf)?;
//!     say(&mut report, frames.name(i).as_bytes())?;
//! }
//! ```
#![tactic(auto)]

mod fault;
mod fault_plan;
mod frames;
mod memory_frame;
mod memory_frames;
mod memory_outputs;
mod memory_report;
mod memory_source;
mod names;
mod null;
mod outputs;
mod report;
mod steady_frames;
mod whole_pieces;

pub use fault::{Failed, PortFault};
pub use frames::Frames;
pub use memory_frame::MemoryFrame;
pub use memory_frames::MemoryFrames;
pub use memory_outputs::MemoryOutputs;
pub use memory_report::MemoryReport;
pub use names::{is_frame_list, is_name_list};
pub use null::{NullOutputs, NullReport};
pub use outputs::Outputs;
pub use report::Report;
pub use steady_frames::SteadyFrames;
pub use whole_pieces::{read_fully, say, write_all};

#[cfg(test)]
mod tests;
