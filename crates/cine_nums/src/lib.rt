//! The numbers and names that every part of the encoder shares: the rules of the two digital cinema
//! profiles (ISO/IEC 15444-1, A.10) and the byte limits of a frame (DCI Digital Cinema System
//! Specification), each standing here once; the orientation of a band; numbers in a string of
//! bytes; halving with its rounding; and the fixed-point product and range of the wavelet
//! transform.
//!
//! Every call returns the value of a definition in `specs/`, takes no memory and refuses nothing.
//! `specs/` also has the words of marker segments and of tables of faults, which the readers of
//! Annex A share.
//!
//! ```
//! assert_eq!(Profile::TwoK.levels(), 5);
//! assert_eq!(half_up(1080), 540);
//! assert_eq!(half_up(135), 68);
//! assert_eq!(mul16(32768, 3), 2);
//! ```
#![tactic(auto)]

mod bits;
mod budget;
mod bytes;
mod coding;
mod fixed;
mod halves;
mod orient;
mod profile;

pub use bits::bit_len;
pub use budget::Budget;
pub use bytes::{long_at, word_at};
pub use coding::{
    BAND_PRECINCT_SIDE, BLOCK_EXPONENT, BLOCK_SIDE, PROGRESSION, band_level, coding_style,
    precinct_byte, precinct_side,
};
pub use fixed::{limit30, mul16};
pub use halves::{half_down, half_up};
pub use orient::Orient;
pub use profile::Profile;
