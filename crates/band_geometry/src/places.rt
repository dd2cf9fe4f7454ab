// Rectangles of a plane, and the names of code blocks.
use cine_nums::Orient;

/// A rectangle of places: its upper left corner and its size, in samples.
#[derive(Clone, Copy, Debug, PartialEq, Eq)]
pub struct Rect {
    /// The first column.
    pub x: u32,
    /// The first row.
    pub y: u32,
    /// How many columns; there may be none.
    pub width: u32,
    /// How many rows; there may be none.
    pub height: u32,
}

/// Which code block is meant.
#[derive(Clone, Copy, Debug, PartialEq, Eq)]
pub struct BlockId {
    /// The component, from 0 on.
    pub component: u8,
    /// The resolution, from 0 on.
    pub res: u8,
    /// The band of the resolution.
    pub orient: Orient,
    /// The column of blocks in the band, from 0 on.
    pub x: u32,
    /// The row of blocks in the band, from 0 on.
    pub y: u32,
}

/// A rectangle of code blocks of one band; the upper ends do not belong to it.
#[derive(Clone, Copy, Debug, PartialEq, Eq)]
pub struct BlockRange {
    /// The first column of blocks.
    pub x0: u32,
    /// The first row of blocks.
    pub y0: u32,
    /// The column after the last one.
    pub x1: u32,
    /// The row after the last one.
    pub y1: u32,
}
