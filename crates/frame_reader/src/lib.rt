//! The separate reader: what the bytes of a codestream of the two digital cinema profiles mean, or
//! why they mean nothing (ISO/IEC 15444-1, Annexes A to D), by no code of the encoder above its
//! parts.
//!
//! What bytes mean says `profile_reader`: the relation `Reads` of bytes and what is decoded of them.
//! [`read`] returns that meaning where there is one within the limits of the profile, and else
//! refuses the first fault in reading order with its place, as `codestream_reader` finds it. A
//! codestream has one meaning, so the one that is returned is that of any other reader that obeys
//! the relation.
//!
//! The bytes are trusted with nothing: they are read once from their beginning up to EOC, nothing
//! is read past them, and memory is taken for the picture whose size the profile allows, once the
//! main header has been judged.
//!
//! ```
//! match read(alloc, bytes) {
//!     Ok(decoded) => println!(rt; "{} bytes", decoded.held.frame)?,
//!     Err(refusal) => println!(rt; "{refusal}")?,
//! }
//! ```
#![tactic(auto)]

mod block;
mod blocks;
mod decode;
mod decoded;
mod reading;
#[cfg(test)]
mod tests;

pub use decoded::{BlockRead, Decoded};
pub use reading::read;
