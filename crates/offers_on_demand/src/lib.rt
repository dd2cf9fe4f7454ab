//! The offers of code-blocks whose coding passes are coded on demand (ISO/IEC 15444-1, J.14.3, on
//! rate control).
//!
//! [`Passes`] are blocks of which the points of the first passes are known, and which code more
//! passes when asked. [`OnDemand`] makes of them what a walk over offers goes by: each block offers
//! the next step of the hull over **all** its passes where the known points make it sure, and else
//! a bound on it; a look at it codes more passes. So a walk makes the same choice, with the same
//! certificate, as over hulls of passes that are all coded.
#![tactic(auto)]

#[cfg(test)]
mod bodies;
mod known;
mod listed;
mod listed_passes;
mod on_demand;
mod passes;
mod row;
mod rows;
#[cfg(test)]
mod walk_tests;

pub use listed::{ListedPoints, are_listed};
pub use listed_passes::ListedPasses;
pub use on_demand::OnDemand;
pub use passes::Passes;
pub use row::DemandRow;
