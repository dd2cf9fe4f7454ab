//! The choice of coding passes under byte budgets, with a certificate of how far it can be from the
//! best one.
//!
//! A frame has up to five byte budgets, one around the other (DCI Digital Cinema System
//! Specification, section 4): the whole codestream, for 4K its 2K portion, and a tile-part a
//! component. `Held` is what a codestream holds in each, `Limits` what it may hold, `Members` in
//! which of them a code-block's bytes stand. `Price` reports what the budgets hold at the present
//! choice, headers included, and after one step more. `Offers` are the blocks, each of which offers
//! the steps of its hull one after the other.
//!
//! `allocate` chooses among whole lists of steps, and `allocate_offers`, of which it is made, among
//! what blocks offer: each reports a `Certificate` with a multiplier for each budget, the gap and
//! the refused steps. `allocate_over` does the same beside any tree of nested budgets.
#![tactic(auto)]

#[cfg(test)]
mod allocate_tests;
mod begin;
mod certificate;
mod duals;
mod entry;
mod frame;
mod held;
mod holdings;
mod levels;
mod limits;
mod listed;
mod members;
mod moves;
mod offer;
mod offers;
mod price;
mod price_holdings;
mod queue;
mod refused;
#[cfg(test)]
mod shy;
mod sums;
#[cfg(test)]
mod tests;
mod tree;
#[cfg(test)]
mod two_blocks;
mod walking;

pub use certificate::{AllocateRefusal, Certificate, RefusedStep};
pub use duals::{Duals, allocate_over};
pub use frame::{allocate, allocate_offers, frame_members};
pub use held::Held;
pub use holdings::Holdings;
pub use limits::Limits;
pub use listed::ListedOffers;
pub use members::Members;
pub use offer::{Offer, Slope};
pub use offers::Offers;
pub use price::Price;
pub use tree::Tree;
