//! The lower hull of a code-block's points of rate and distortion: the steps between numbers of
//! coding passes that are worth their bytes (ISO/IEC 15444-1, J.14.3, on rate control).
//!
//! A point says, for a number of coding passes, how many bytes their ended code has and how much
//! distortion is left. `hull` finds the strict corners of the lower hull of a block's points and
//! gives the steps from corner to corner. Its clauses say that the steps follow on from no passes,
//! that each one's bytes and gain are the differences of its two points, that no point lies under a
//! step's line, that the slopes fall strictly, and that the last step ends at the point of least
//! distortion, then of fewest bytes, then of fewest passes. `best_step` is one step of it, also from
//! points of which only the first are known.
//!
//! ```
//! let steps = hull(block, &points);
//! let total: u32 = steps.iter().map(|step| step.len).sum();
//! ```
#![tactic(auto)]

mod lower;
mod order;
mod point;
mod search;
mod step;
#[cfg(test)]
mod tests;

pub use lower::hull;
pub use point::{Point, are_points};
pub use search::best_step;
pub use step::Step;
