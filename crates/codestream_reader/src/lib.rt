//! Reading codestreams of the two digital cinema profiles up to their code-blocks (ISO/IEC 15444-1,
//! Annexes A and B), whatever the bytes are, by no code of the encoder above its parts.
//!
//! What bytes mean says `profile_reader`. [`spans`] reads a whole codestream: what it returns is
//! found exactly where words of `profile_reader` spell the bytes and the limits of the profile hold,
//! and else the first fault in reading order is refused with its place. What the words say of each
//! code-block stands in a [`BlockSpan`] for it, by block number, and its bytes stay where they are.
//!
//! From the inside out: [`read_packets`] reads packets one after the other, [`read_tile_part`] a
//! tile-part, whose head has to have the length in TLM and whose packets have to fill it, and
//! [`read_tile_parts`] all tile-parts after a main header. Each makes the same two promises of its
//! part of the bytes. Only the last of these and [`spans`] take memory.
//!
//! The law [`one_reading`] says that the bytes of a codestream have one decoding.
#![tactic(auto)]

mod blocks;
mod body;
mod end;
mod laws;
mod packet;
mod packets;
mod part;
mod parts;
mod place;
mod planes;
mod refusal;
mod rest;
mod shape;
mod span;
mod stream;
#[cfg(test)]
mod tests;
mod whole;
#[cfg(test)]
mod whole_tests;

pub use laws::one_reading;
pub use packets::read_packets;
pub use part::{PartKnown, read_tile_part};
pub use parts::read_tile_parts;
pub use refusal::ReadRefusal;
pub use span::BlockSpan;
pub use stream::StreamSpans;
pub use whole::spans;
