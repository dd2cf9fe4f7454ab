//! Frames as binary PPM files: ppm(5), magic `P6`, maxval 4095, the samples X', Y' and Z' of each
//! pixel in two bytes, high byte first. Comments may stand in the gaps of the header.
//!
//! `read_frame` returns a frame exactly if the bytes of a begun file spell a picture within the
//! limits, and then that picture (`Spells` in specs/Grammar.antt). Any other file is refused for
//! its first fault in reading order, a `FrameFault` with its place in bytes (`frame_of` in
//! specs/Reading.antt). A refusal that isn't for the file is its source's failure, or out of
//! memory. A caller that takes one row after the other has the same from `read_header`, `read_row`
//! and `expect_end`. The clauses of `first_fault` say that the fault is the first, and at which
//! byte it shows.
//!
//! ```
//! frames.begin(0)?;
//! let frame = read_frame(alloc, &mut frames, SizeLimits { width: 2048, height: 1080 })?;
//! assert_eq!(frame.x.len(), frame.width as usize * frame.height as usize);
//! ```
#![tactic(auto)]

mod byte;
mod fault;
mod frame;
mod header;
mod laws;
mod limits;
mod raster;
mod reading;
mod refusal;
#[cfg(test)]
mod tests;

pub use fault::FrameFault;
pub use frame::Frame;
pub use header::{Header, read_header};
pub use laws::first_fault;
pub use limits::SizeLimits;
pub use raster::{expect_end, read_row};
pub use reading::read_frame;
pub use refusal::FrameRefusal;
