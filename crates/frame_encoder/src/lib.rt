//! The codestream of one frame of a digital cinema profile (ISO/IEC 15444-1, Annex A), within byte
//! limits that are at most those of the DCI Digital Cinema System Specification, with a certificate
//! of how far its choice of coding passes can be from the best one (J.14.3).
//!
//! The contract of [`encode`] is one relation (`Encodes` in specs/Encoded.antt): the bytes are
//! those that the standard's parts spell for the chosen coding passes (`spell` and `chosen` of
//! profile_reader), all limits of the order are kept, headers included, they are read as the
//! coefficients cut to what these passes leave known, and no choice of passes that fits beside the
//! written headers has a distortion below this one's less the certificate's gap. A frame is refused
//! exactly if a limit is too small for the codestream without any coding pass, or if memory runs
//! out.
//!
//! ```
//! let order = EncodeOrder::of(Profile::TwoK);
//! let made = encode(alloc, &frame, &order)?;
//! assert!(made.held.frame <= order.limits.frame);
//! ```
#![tactic(auto)]

mod choosing;
mod codestream;
mod counts;
mod frame;
mod header;
mod order;
mod refusal;
#[cfg(test)]
mod tests;
mod writing;

pub use frame::{Encoded, encode};
pub use order::EncodeOrder;
pub use refusal::EncodeRefusal;
