//! The quantiser of ISO/IEC 15444-1, Annex E: the steps of the bands, and the index of a
//! transformed sample, with the error that is left while only some of its bit-planes are known.
//!
//! A [`Coef`] is the index of a place in four bytes, and contracts see its magnitude and sign. A
//! [`BandQuantiser`] is what [`index`] needs of a band, and its type says that `index` takes it.
//! Every call returns the value of a definition in `specs/`, takes no memory and refuses nothing.
//!
//! ```
//! let steps = StepSizes::built_in(Profile::TwoK);
//! let coef = index(8192, steps.band(5, 0, Orient::LL));
//! assert_eq!((coef.magnitude(), coef.is_negative()), (64, false));
//! ```
#![tactic(auto)]

mod band;
mod coef;
mod error;
mod quantiser;
mod steps;

pub use band::{BandQuantiser, BandStep};
pub use coef::Coef;
pub use error::squared_error;
pub use quantiser::index;
pub use steps::{StepSizes, band_number, planes, range};
