//! The code-blocks of a frame with all their coding passes coded (ISO/IEC 15444-1, Annexes C and
//! D).
//!
//! [`CodedBlocks::code`] codes every coding pass of every code-block once. Afterwards what is
//! written of a block of which the first passes are included is a look-up: its entry in the packet
//! header, its bytes, and the distortion that these passes leave. `specs/Coded` says what the
//! object holds: `AreCoded` for the coefficients of a frame. Of a choice of passes
//! [`CodedBlocks::chosen`] makes [`ChosenCodes`], the bytes of these passes alone, which is all
//! that a codestream needs of the blocks beside the packet headers (`AreChosenCodes` of
//! `specs/Codes`).
//!
//! Blocks are named by their number in the geometry, from 0 on. The only refusal is out of memory.
//!
//! ```
//! let geometry = Geometry::new(Profile::TwoK, 5, 2048, 1080);
//! let steps = StepSizes::built_in(Profile::TwoK);
//! let frame = coefficients(alloc, &geometry, &steps, x, y, z)?;
//! let blocks = CodedBlocks::code(alloc, &geometry, &steps, &frame.c0, &frame.c1, &frame.c2)?;
//! blocks.push_code(4711, blocks.passes(4711), &mut bytes)?;
//! ```
#![tactic(auto)]

mod blocks;
mod chosen;
mod codes;
mod frame;
mod lookup;
mod row;

pub use blocks::CodedBlocks;
pub use codes::ChosenCodes;

#[cfg(test)]
mod tests;
