//! How a frame is cut up (ISO/IEC 15444-1, B.5 to B.7): the sizes of the resolutions of a
//! component, their bands, precincts and code blocks, the numbers of the blocks and the tile-parts
//! that hold them, for an image and a tile whose corner is the origin of the reference grid.
//!
//! Every call returns the value of a definition in `specs/`, takes no memory and refuses nothing.
//! The law `plane` says that each place of the transformed plane is in exactly one band, and in
//! exactly one code block of each component.
//!
//! ```
//! let geometry = Geometry::new(Profile::TwoK, 5, 2048, 1080);
//! assert_eq!(geometry.res_size(0), (64, 34));
//! assert_eq!(geometry.precincts(5), (8, 5));
//! assert_eq!(geometry.blocks(), 6708);
//! assert_eq!(geometry.number(geometry.block_id(4711)), 4711);
//! ```
#![tactic(auto)]

mod bands;
mod geometry;
mod laws;
mod numbering;
mod places;
mod sides;
mod tile_parts;

pub use cine_nums::precinct_side;
pub use geometry::Geometry;
pub use laws::plane;
pub use places::{BlockId, BlockRange, Rect};
