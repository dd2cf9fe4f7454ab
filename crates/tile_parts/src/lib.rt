//! The head of a tile-part, written and read: the segment SOT, then maybe segments COM and PLT, and
//! the marker SOD (ISO/IEC 15444-1, A.4.2, A.4.3, A.7.3 and A.9.2); and the marker EOC (A.4.4).
//!
//! `part_head` returns the fourteen bytes of the writer's head. `read_part` reads a head anywhere
//! in a string of bytes that may hold anything: it returns a part exactly where the bytes spell
//! one, and each refusal exactly where it is the first fault; the writer's heads are read back.
//! Nothing takes memory.
//!
//! ```
//! let head = part_head(24, 0, 3);
//! assert_eq!(head[..6], [0xFF, 0x90, 0x00, 0x0A, 0x00, 0x00]);
//! ```
#![tactic(auto)]

mod head;
mod part;
mod refusal;

pub use head::{PART_HEAD_BYTES, end_of_codestream, head_bytes, part_head};
pub use part::{Part, read_part};
pub use refusal::PartRefusal;
