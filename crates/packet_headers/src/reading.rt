//! Reading a packet header: from any bytes to a packet, or to the first fault.

pub mod band;
pub mod block;
pub mod body;
pub mod fault;
pub mod header;
pub mod numbers;
pub mod packet;
#[cfg(test)]
mod tests;
pub mod zero_planes;
