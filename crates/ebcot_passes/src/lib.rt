//! The coding passes of code-blocks: ISO/IEC 15444-1, Annex D, coded with the MQ coder of Annex C.
//!
//! [`code`] codes all passes of a block. A [`BlockCoder`] codes them one at a time, each call one
//! pass, so that a block can be left after any of them and gone on with later. After the k-th pass
//! the mark stands for the symbols of the block's first k passes, as `ebcot_contexts` defines them
//! over what is known of each place; the ended code at the mark, from `mq_coder`, is then the code
//! of these passes. Beside the mark stands the distortion that these passes leave, as
//! `distortion_sums` defines it; it is carried on place by place, and no block is walked a second
//! time; [`undecoded_distortion`] is what is left where no pass is coded. The flags are the words of
//! `flag_words`. Nothing takes memory or is refused.
//!
//! From the inside out: a place (`place`), the row of a column in each kind of pass (`rows`), a
//! column (`columns`, `cleanup`), a stripe, a pass, a block. In each, `distortion` is that which is
//! left of the block, modulo 2^64.
//!
//! ```
//! let block = BlockView::of(&plane, rect);
//! let coded = code(&block, Orient::HH, &mut bytes);
//! assert_eq!((coded.planes, coded.passes.len(), coded.start), (7, 19, 16641));
//! assert_eq!(coded.passes[18].distortion, 0);
//! ```
#![tactic(auto)]

mod block;
mod cleanup;
mod coded;
mod coder;
mod columns;
mod left;
mod load;
mod passes;
mod place;
mod rows;
mod stripes;
#[cfg(test)]
mod tests;
mod undecoded;

pub use block::BlockCoder;
pub use coded::{BlockCode, CodedPass};
pub use coder::code;
pub use left::LeftBlock;
pub use undecoded::undecoded_distortion;
