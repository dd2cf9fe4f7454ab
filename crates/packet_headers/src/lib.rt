//! Packet headers, written and read (ISO/IEC 15444-1, B.10): which code blocks a packet has bytes
//! of, their zero bit planes, coding passes and lengths.
//!
//! A header's bits are a function of the entries and of how they are spelled: the numberings of
//! each band's two tag trees, and how often each block's Lblock is raised. `header` writes the
//! spelling with the least numbers and raises, and `header_len` returns its length.
//! `read` takes every spelling, of any bytes, and refuses all else by the first fault in reading
//! order. Nothing takes memory.
//!
//! ```
//! // one band of one block: 18 planes, 11 of them zero, 18 passes and one byte
//! assert_eq!(header(&packet), [0xC0, 0x07, 0xD8, 0x02]);
//! assert_eq!(header_len(&packet), 4);
//! ```
#![tactic(auto)]

mod entry;
mod kept;
#[cfg(test)]
mod kept_tests;
pub mod laws;
mod packet;
mod reading;
mod refusal;
mod writing;

pub use entry::Entry;
pub use kept::KeptPacket;
pub use packet::{BandShape, Packet, PacketBand, PacketRead, PacketShape};
pub use reading::packet::read;
pub use refusal::PacketRefusal;
pub use writing::header::{header, header_len};
