//! The MQ arithmetic decoder of ISO/IEC 15444-1, Annex C.3.
//!
//! A [`Decoder`] is asked for one decision after the other, each in a context. Its bits are the
//! decisions that the byte string makes by its value, for every string and every list of contexts;
//! over the code of a list of symbols they are the bits of that list. Past the end of the string it
//! reads ones. Nothing takes memory, and nothing is refused.
//!
//! ```
//! let mut decoder = Decoder::new(&[0x0C]);
//! let bits = [decoder.take(0), decoder.take(0), decoder.take(0), decoder.take(9)];
//! assert_eq!(bits, [false, false, true, false]);
//! ```
#![tactic(auto)]

mod byte_in;
mod decoder;
mod registers;
mod renormalise;
mod subintervals;
#[cfg(test)]
mod tests;

pub use decoder::Decoder;
