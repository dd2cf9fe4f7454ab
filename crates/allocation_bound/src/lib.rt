//! How far a choice of coding passes under nested byte budgets can be from the best one: the theory
//! of `budget_duals`, and of whoever audits a certificate or adds a budget for a whole reel.
//!
//! `specs/` has the definitions: costs of a block's steps at a multiplier (`Steps`), nested budgets
//! and their multipliers (`Budgets`), the lower bound and the gap (`Ledger`), the state in which a
//! walk over the steps ends (`Settled`) and its moves (`Walk`), and refused steps with their prices
//! (`Refused`). `laws` has what they promise together; a call of a law does nothing and gives the
//! caller its clause.
#![tactic(auto)]

mod laws;

pub use laws::{certificate, closing, pass_certificate, settling, starting, taking};
