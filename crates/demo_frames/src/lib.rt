//! Frames made from a number alone, for a demonstration that needs no file: a ramp in each
//! component, with noise.
//!
//! The contract of [`demo_frame`] is the whole picture, sample by sample (specs/Demo.antt). The
//! frame of a number is the same on every machine. The only refusal is out of memory.
//!
//! ```
//! let frame = demo_frame(alloc, 0, Profile::TwoK)?;
//! assert_eq!((frame.x[0], frame.y[0], frame.z[0]), (60, 71, 209));
//! ```
#![tactic(auto)]

mod frame;
mod samples;
#[cfg(test)]
mod tests;

pub use frame::demo_frame;
