//! Code-blocks of a frame whose coding passes are coded on demand (ISO/IEC 15444-1, Annexes C and
//! D, and J.14.3, on rate control).
//!
//! A [`DemandBlock`] is a block of a plane, of which the first passes are coded: each with its mark
//! and the distortion that it leaves. It keeps where its coder was left and the bytes that the
//! passes were coded to, so that the next pass goes on from there. These are a cache: where memory
//! for the bytes is missing nothing is kept, and the passes are coded from the first one again.
//! [`DemandBlocks`] are such blocks by their numbers, as `offers_on_demand` asks for passes. What
//! is said of a block never depends on which passes are coded.
#![tactic(auto)]

mod block;
mod blocks;
mod bytes;
mod coding;
mod goal;
mod known;
#[cfg(test)]
mod tests;
mod writing;

pub use block::DemandBlock;
pub use blocks::DemandBlocks;
