//! The distortion of a code-block after its first passes, place by place.
//!
//! `specs/Distortion` is the definition: the sum over the block's places of the squared error of an
//! index of which the bit-planes are unknown that the passes leave unknown, in units of half a step
//! squared. [`with_new`] and [`with_refined`] carry it over a place that a pass codes, so no block
//! is walked a second time. They work in 64 bits and wrap; the distortion of a block is less.
//!
//! Nothing takes memory or is refused.
#![tactic(auto)]

mod places;
#[cfg(test)]
mod tests;

pub use places::{undecoded_error, with_new, with_refined};
