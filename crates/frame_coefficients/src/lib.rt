//! The coefficients of a frame: the component transform, the wavelet transform and the quantiser,
//! by ISO/IEC 15444-1, Annexes G.3, F and E, from three lists of samples to the index and sign of
//! each place of the transformed planes.
//!
//! The contract of [`coefficients`] gives the exact lists, and says that each magnitude of each
//! band is below 2 to that band's number of magnitude bit-planes. That of [`quantise_plane`] says
//! of each place of each band that it has the index by that band's step. The only refusal is out
//! of memory.
//!
//! ```
//! let geometry = Geometry::new(Profile::TwoK, 5, 1, 1);
//! let steps = StepSizes::built_in(Profile::TwoK);
//! let frame = coefficients(alloc, &geometry, &steps, &[2049], &[2049], &[2049])?;
//! assert_eq!(frame.c0.cells[0].magnitude(), 64);
//! ```
#![tactic(auto)]

mod band;
mod frame;
mod quantise;

pub use frame::{FrameCoefficients, coefficients};
pub use quantise::quantise_plane;
