//! What a choice of a frame's coding passes costs (ISO/IEC 15444-1, J.14.3, on rate control; DCI
//! Digital Cinema System Specification, section 4).
//!
//! [`FramePrice`] is a choice of passes of a frame of quantised coefficients ([`QuantisedFrame`]):
//! what the byte budgets hold, headers included, and would hold after one step more. The length of
//! a step says by how many bytes the code of its block grows, so no coding pass is asked for.
//! [`choose`] walks over the steps of the hulls of all code-blocks (`budget_duals`), from the
//! steepest to the flattest, and codes the passes of a block as it comes down to its steps
//! (`offers_on_demand` over `demand_blocks`). It returns its choice with the bytes of the chosen
//! passes and with a certificate: `IsChosen` of specs/Chosen.antt bounds how much better any other
//! choice of passes could be. The only refusal is out of memory. The law [`headers_and_bodies`]
//! says what a budget holds beside the headers: the body bytes, by which the other choices are
//! counted.
#![tactic(auto)]

mod allocation;
mod blocks;
mod laws;
mod present;
mod price;
mod quantised;
#[cfg(test)]
mod tests;

pub use allocation::{Choice, choose};
pub use laws::headers_and_bodies;
pub use present::PresentBlock;
pub use price::FramePrice;
pub use quantised::QuantisedFrame;
