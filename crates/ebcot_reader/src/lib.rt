//! Reading the coding passes of code-blocks: ISO/IEC 15444-1, Annex D, with the MQ decoder of
//! Annex C.
//!
//! [`read`] sets the cells of a block to what its first passes give over a byte string, whatever
//! the bytes are. What it sets is a meaning of the bytes as `ebcot_contexts` defines it, and the
//! only one; over the code of a block's first passes it is that block, without the bit-planes that
//! these passes leave unknown. Its flags are the words of `flag_words`. Nothing takes memory, and
//! nothing is refused.
//!
//! From the inside out: a place (`place`), the row of a column in each kind of pass (`rows`), a
//! column (`columns`, `cleanup`), a stripe, a pass, a block (`block`), and its cells in a plane
//! (`show`).
//!
//! ```
//! let mut plane = KnownPlane::new(alloc, 1, 1)?;
//! let rect = Rect { x: 0, y: 0, width: 1, height: 1 };
//! read(&[0x04], 6, 7, Orient::LL, &mut BlockViewMut::of(&mut plane, rect));
//! assert_eq!(plane.cells[0], Known { magnitude: 4, negative: false, unknown: 4 });
//! ```
#![tactic(auto)]

mod block;
mod cleanup;
mod columns;
mod passes;
mod place;
mod rows;
mod show;
mod stripes;
#[cfg(test)]
mod tests;

pub use block::read;
