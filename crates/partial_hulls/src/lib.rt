//! The next step of a code-block's lower hull, found before all its coding passes are coded
//! (ISO/IEC 15444-1, J.14.3, on rate control).
//!
//! [`KnownPoints`] are the points of bytes and distortion of the passes that are coded so far, with
//! a lower bound on the bytes of every ended code of more passes. From any corner of the hull over
//! the points of **all** passes they offer the hull's next step where it is sure, whatever the
//! points of the other passes turn out to be, and else a bound on its slope. `excess` is by how much
//! the steps that are left are above a multiplier, or the news that more passes have to be coded to
//! know it.
//!
//! ```
//! let known = KnownPoints { block, points: &points, low, whole: false };
//! match known.offer(present) {
//!     Offer::Step(step) => take(step),
//!     Offer::AtMost(bound) => code_while_steeper(bound),
//!     Offer::Nothing => {}
//! }
//! ```
#![tactic(auto)]

mod bound;
mod known;
mod least;
#[cfg(test)]
mod tests;

pub use known::KnownPoints;
