//! Tag trees of a packet header, written and read (ISO/IEC 15444-1, B.10.2).
//!
//! A `Tree` stands for the writings, or the readings, that it has seen: what it puts is the
//! definition's bits after them, and it reads back what was written, whatever the numbering.
//! Nothing takes memory.
//!
//! ```
//! let mut out = BitOut::new();
//! let mut tree = Tree::of(2, 1, &[3, 5]);
//! tree.write_upto(0, 0, 4, &mut out); // 0001 1
//! tree.write_upto(1, 0, 6, &mut out); // 001
//! let bytes = out.finish(); // 0001 1001
//!
//! let mut bits = BitIn::new(bytes.as_slice());
//! let mut tree = Tree::unread(2, 1);
//! assert!(tree.read_upto(0, 0, 4, &mut bits)?); // the first value is below 4
//! ```
#![tactic(auto)]

mod node;
#[cfg(test)]
mod tests;
mod tree;

pub use tree::Tree;
