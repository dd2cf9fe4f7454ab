//! The order of the packets in a tile-part: progression by component, position and resolution
//! (ISO/IEC 15444-1, B.12.1.5), for a tile-part that holds one component.
//!
//! `order` returns the list of all precincts of the tile-part, sorted by the place of their upper
//! left corner on the reference grid, row first, and where places are equal by the resolution. Its
//! clauses say so twice: as a sorted list, and with no list and no sorting (each precinct that
//! begins within the frame is there, nothing else is, and each comes before all later ones). The
//! law `blocks` says that each code block is in exactly one of these packets.
//!
//! ```
//! let geometry = Geometry::new(Profile::TwoK, 5, 1, 1);
//! let packets = order(alloc, &geometry, 0)?;
//! assert_eq!(packets.len(), 6);
//! ```
#![tactic(auto)]

mod laws;
mod ordering;
mod packet;
mod place;

pub use laws::blocks;
pub use ordering::order;
pub use packet::PacketId;
