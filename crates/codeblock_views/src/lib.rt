//! Planes of coefficients, of indexes as a reader knows them, and views of the code blocks in them
//! (ISO/IEC 15444-1, B.7 and Annex D.1).
//!
//! A [`BlockView`] gives exactly the coefficients of a rectangle of a plane, and what codes a block
//! takes any [`Coefs`]. A [`BlockViewMut`] reads and sets the cells of a rectangle, and no others.
//! The law [`assembled`] says that each code block is a rectangle that a view takes, and that the
//! cells of each block are those from which a plane was put together. Only the planes take memory,
//! and the only refusal is out of memory.
//!
//! ```
//! let mut plane = CoefPlane::new(alloc, 5, 3)?;
//! plane.cells[7] = Coef::new(9, true);
//! let block = BlockView::of(&plane, Rect { x: 1, y: 1, width: 4, height: 2 });
//! assert_eq!(block.coef(1, 0), Coef::new(9, true));
//! assert_eq!(block.planes(), 4);
//! ```
#![tactic(auto)]

mod coefs;
mod known;
mod laws;
mod plane;
mod view;
mod view_mut;

pub use coefs::Coefs;
pub use known::{Known, KnownPlane};
pub use laws::assembled;
pub use plane::CoefPlane;
pub use view::BlockView;
pub use view_mut::BlockViewMut;

#[cfg(test)]
mod tests;
