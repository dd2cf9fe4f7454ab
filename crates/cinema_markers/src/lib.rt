//! The main header of a codestream of the two digital cinema profiles (ISO/IEC 15444-1, Annex A):
//! the marker segments SOC, SIZ, COD, QCD, for the 4K profile POC, and TLM, in this order.
//!
//! The contract of [`main_bytes`] gives the exact bytes and their number. It takes no memory and
//! refuses nothing.
//!
//! ```
//! let header = MainHeader {
//!     profile: Profile::TwoK,
//!     width: 2048,
//!     height: 1080,
//!     levels: 5,
//!     flag: 1,
//!     steps: StepSizes::built_in(Profile::TwoK),
//!     parts,
//! };
//! assert_eq!(main_bytes(&header).len(), 129);
//! ```
#![tactic(auto)]

mod cod;
mod fields;
mod found;
mod header;
mod marker;
mod poc;
mod qcd;
mod read;
mod refusal;
mod segments;
mod siz;
#[cfg(test)]
mod tests;
mod tlm;
mod value;
mod write;

pub use header::{MainHeader, MainRead};
pub use read::read_main;
pub use refusal::MarkerRefusal;
pub use write::main_bytes;
