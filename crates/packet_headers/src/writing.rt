//! Writing a packet header: from the packet to its bits.

pub mod band;
pub mod block;
pub mod codeword;
pub mod header;
pub mod inner_nodes;
pub mod passes;
pub mod quarters;
#[cfg(test)]
mod tests;
