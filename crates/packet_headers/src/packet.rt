// A packet and its shape.
use crate::entry::Entry;
use arrayvec::ArrayVec;

/// A band's part of a packet: the code blocks of one precinct, at most 4 by 4 of them.
#[derive(Clone, Debug, Default, Drop, PartialEq, Eq)]
pub struct PacketBand {
    /// Columns of code blocks. A band without blocks has no columns or no rows.
    pub width: u8,
    /// Rows of code blocks.
    pub height: u8,
    /// The band's magnitude bit planes.
    pub planes: u8,
    /// One entry a block, in raster order.
    pub entries: ArrayVec<Entry, 16>,
}

/// What a packet header says: the bands LL, or HL, LH and HH, in this order.
#[derive(Clone, Debug, Default, Drop, PartialEq, Eq)]
pub struct Packet {
    pub bands: ArrayVec<PacketBand, 3>,
}

/// A band's part of a packet that is to be read.
#[derive(Clone, Copy, Debug, Default, PartialEq, Eq)]
pub struct BandShape {
    /// Columns of code blocks, at most 4. A band without blocks has no columns or no rows.
    pub width: u8,
    /// Rows of code blocks, at most 4.
    pub height: u8,
    /// The band's magnitude bit planes, 1 to 31.
    pub planes: u8,
}

/// The bands of a packet that is to be read: LL, or HL, LH and HH, in this order.
#[derive(Clone, Debug, Default, Drop, PartialEq, Eq)]
pub struct PacketShape {
    pub bands: ArrayVec<BandShape, 3>,
}

/// A packet that was read, with the lengths in bytes of its header and of its body.
#[derive(Debug, Drop, PartialEq, Eq)]
pub struct PacketRead {
    pub packet: Packet,
    pub header: u32,
    pub body: u32,
}
