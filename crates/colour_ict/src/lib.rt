//! The irreversible component transform of ISO/IEC 15444-1, Annex G.3, in fixed point.
//!
//! [`row`] turns three rows of samples of 12 bits into the three transformed components, with 13
//! bits after the point. Its contract gives each place's exact value, by the matrix of the
//! standard with its coefficients over 65,536, and says that the values lie in the range that the
//! wavelet transform asks for.
//!
//! ```
//! let (mut c0, mut c1, mut c2) = ([0; 1], [0; 1], [0; 1]);
//! row(&[4095], &[2048], &[2048], &mut c0, &mut c1, &mut c2);
//! assert_eq!((c0[0], c1[0], c2[0]), (5_013_871, -2_829_722, 8_384_512));
//! ```
#![tactic(auto)]

mod pixel;
mod rows;

pub use rows::row;
