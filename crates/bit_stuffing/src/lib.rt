//! The bits of a packet header, packed into bytes and taken from bytes (ISO/IEC 15444-1, B.10.1):
//! after a byte FF the high bit of the next byte is a stuffed 0.
//!
//! A `BitOut` stands for the list of bits that were put, and its bytes are the standard's packing
//! of that list; a `BitCount` takes the same bits and returns the number of bytes alone. Both are a
//! `BitSink`. A `BitIn` has the bits that were taken and those that are ahead, and its faults come
//! exactly where the bytes end or a stuffed bit is set. Nothing takes memory.
//!
//! ```
//! let mut out = BitOut::new();
//! out.put_number(9, 0b1_1111_1111);
//! assert_eq!(out.finish().as_slice(), [0xff, 0x40]); // in 40 a stuffed 0, then the ninth bit
//!
//! let mut bits = BitIn::new(&[0xff, 0x40]);
//! assert!(bits.take()?); // the first of nine bits
//! ```
#![tactic(auto)]

mod bit_count;
mod bit_in;
mod bit_out;
mod bit_register;
mod bit_sink;
mod fault;
pub mod laws;
#[cfg(test)]
mod tests;
mod width;

pub use bit_count::BitCount;
pub use bit_in::BitIn;
pub use bit_out::BitOut;
pub use bit_sink::BitSink;
pub use fault::BitFault;
