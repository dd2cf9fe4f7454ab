//! The flags of a code-block while its passes are coded or read: one word of 32 bits for each
//! column of a stripe (ISO/IEC 15444-1, Annex D.1 and D.3).
//!
//! `specs/Words` says what each bit of a word is: the significance of each place in and around the
//! column, and of the column's own places whether they are negative, were refined before, and are
//! touched, that is known in the plane. So a context is one table look-up, and a place that becomes
//! significant changes three words, six at the first and last row of a stripe. Outside a block no
//! place is significant, and each counts as touched, since none is coded.
//!
//! The contracts speak of the cells of `ebcot_contexts` alone: what a word says of a place is what
//! the passes ask of its cell, and after a call the words are those of the changed cells. Encoder
//! and decoder stand on the same calls. Nothing takes memory or is refused.
//!
//! A column's own word is held in a local while its places are coded: the words are then those of
//! the cells with that word in its place.
#![tactic(auto)]

mod bits;
mod contexts;
mod looks;
mod planes;
mod signs;
mod updates;

pub use contexts::{significance_context, significance_contexts};
pub use looks::{
    codes_cleanup, codes_refinement, codes_run, codes_significance, refinement_context,
};
pub use planes::{blank, next_plane};
pub use signs::sign_context;
pub use updates::{become_significant, refine, touch};
