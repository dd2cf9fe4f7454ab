//! The irreversible 9-7 wavelet transform of ISO/IEC 15444-1, Annex F, in fixed point with 16 bits
//! after the point.
//!
//! `forward_line` returns the transform of a line as `specs/Line.antt` defines it: four lifting
//! steps, two scalings, then the low-pass samples followed by the high-pass ones. `forward` returns
//! that of a `Plane`, level after level, as `specs/Plane.antt` defines it: every column, then every
//! row. Samples stay in -2^30 .. 2^30 - 1. No call but `Plane::new` takes memory, and none refuses
//! anything.
//!
//! ```
//! let mut line = [8192, 0];
//! forward_line(&mut line, &mut [0, 0]);
//! assert_eq!(line, [4097, -8191]);
//! ```
#![tactic(auto)]

mod line;
mod plane;
mod steps;
mod transform;
mod vertical;

pub use line::forward_line;
pub use plane::Plane;
pub use transform::forward;
