//! The packets of a frame at a choice of what is written of each code-block, and the bytes of its
//! byte budgets (ISO/IEC 15444-1, B.9, B.10 and A.4; DCI Digital Cinema System Specification,
//! section 4).
//!
//! [`FramePackets`] keeps each packet with the length of its header, and the length of each
//! tile-part. Another entry of one code-block costs one new packet header. `Keeps` (in
//! specs/Keeps.antt) is the relation of its contract: the packets, and the lengths of the
//! tile-parts, are those that `profile_reader` spells of what is written of the code-blocks. The
//! law `codestream` says that what the frame's budget holds is the length of that codestream, and
//! the law `changes` what another choice for one code-block changes in the budgets.
//!
//! ```
//! let mut packets = FramePackets::empty(alloc, &geometry, &steps)?;
//! if packets.held_with(id, entry).frame <= limits.frame {
//!     packets.set(id, entry);
//! }
//! ```
#![tactic(auto)]

mod empty;
mod frame;
mod laws;
mod part;
mod spot;
#[cfg(test)]
mod tests;

pub use frame::FramePackets;
pub use laws::{changes, codestream, keeping};
