//! The MQ arithmetic coder of ISO/IEC 15444-1, Annex C: its states, its contexts, the decisions
//! that a byte string spells and the code that a list of symbols is written as.
//!
//! `specs/` has the definitions: `States` the table and the contexts, `Decisions` what a byte
//! string decides, as one growing sum with no registers, and `Code` the encoder's procedures.
//!
//! An [`Encoder`] writes symbols to a buffer that its caller lends, a [`Mark`] says where it stood,
//! and [`ending`] returns the ended code at a mark, which is the code of the symbols put before it,
//! also when the encoder has gone on since. An encoder that was left is gone on with by
//! [`Encoder::resume`], from its mark, its contexts and its buffer. Nothing takes memory.
//!
//! ```
//! let mut buffer = [0; 16];
//! let mut encoder = Encoder::new(&mut buffer);
//! encoder.put(0, true);
//! encoder.put(9, false);
//! let code = ending(&encoder.mark());
//! assert_eq!(code.tail.as_slice(), &[0x03]);
//! ```
#![tactic(auto)]

mod byte_out;
mod contexts;
mod encoder;
mod flush;
mod laws;
mod mark;
mod registers;
mod renormalise;
mod states;
mod subintervals;
#[cfg(test)]
mod tests;

pub use contexts::Contexts;
pub use encoder::Encoder;
pub use flush::{EndedCode, ended_len, ending};
pub use laws::{code_form, few_bytes, inversion, later_codes, register_bounds, weights};
pub use mark::Mark;
pub use renormalise::THREE_QUARTERS;
pub use states::Context;
