//! What the bytes of a digital cinema codestream mean (ISO/IEC 15444-1, Annexes A, B and D).
//!
//! `specs/Packets` and `specs/Spell` spell a codestream from what is written of each code-block:
//! main header, tile-parts with their packets, end of codestream. `specs/Chosen` is what is written
//! of the code-blocks of a frame's coefficients by a choice of coding passes. An encoder promises
//! these bytes.
//!
//! `specs/Words` has the packets and the tile-parts as they stand in any codestream of the two
//! profiles, and `specs/Reads` is the relation of bytes and what is decoded of them: some words
//! spell the bytes and say of each code-block its entry and its bytes, of which the block's cells
//! are the meaning. A reader promises it.
//!
//! The law [`spelled_reads`] says that what is spelled of code-blocks that mean cells is read as
//! these cells, and the law [`chosen_reads`] that the codestream of a choice of coding passes is
//! read as the frame's coefficients, each without the bit-planes that the chosen passes of its
//! code-block leave unknown. The law [`said_once`] says that the words of a codestream leave no
//! choice of what is decoded. The laws [`one_pixel`] and [`small_frames`] have codestreams of small
//! frames byte by byte. The laws do nothing; their contracts say what holds of the definitions.
#![tactic(auto)]

mod laws;

pub use laws::{chosen_reads, one_pixel, said_once, small_frames, spelled_reads};
