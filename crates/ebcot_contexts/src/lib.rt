//! The contexts and coding passes of bit-plane coding: ISO/IEC 15444-1, Annex D.
//!
//! `specs/` has the definitions. `Cells` is what is known of a coefficient, `Contexts` Tables D.1
//! to D.4 over cells, `Passes` the scan and the three passes, written once as a row of questions
//! (`Asks`) that an encoder answers by the coefficients and a decoder by the bytes; `Meaning` the
//! symbols of a block's first passes, what they leave unknown, and the meaning of its bytes.
//!
//! The calls answer the tables' values. The laws (`meaning_holds` to `few_symbols`) do nothing;
//! their contracts say what holds of the definitions. Nothing takes memory or is refused.
//!
//! ```
//! assert_eq!(significance(Orient::LL, 1, 0, 1), 6);
//! assert_eq!(sign(0, -1), (10, true));
//! assert_eq!(refinement(true, false), 14);
//! ```
#![tactic(auto)]

mod laws;
mod neighbours;
mod tables;
#[cfg(test)]
mod tests;

pub use laws::{few_symbols, meaning_holds, one_meaning, read_back, without_orient};
pub use neighbours::{Neighbours, near};
pub use tables::{refinement, sign, significance};
