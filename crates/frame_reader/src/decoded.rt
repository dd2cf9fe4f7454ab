// What is decoded of a codestream.

use budget_duals::Held;
use cinema_markers::MainHeader;
use codeblock_views::KnownPlane;

/// What is decoded of a code-block.
#[derive(Clone, Copy, Debug, Default, PartialEq, Eq)]
pub struct BlockRead {
    /// Its magnitude bit-planes: those of its band without its zero bit-planes.
    pub planes: u8,
    /// Its coding passes, 0 where it isn't included.
    pub passes: u8,
}

/// What is decoded of a codestream.
#[derive(Drop)]
pub struct Decoded {
    /// What its main header says.
    pub main: MainHeader,
    /// The bytes that it holds in each budget.
    pub held: Held,
    /// The code-blocks, by block number. One that isn't included has no passes, and all bit-planes
    /// of its band.
    pub blocks: Vec<BlockRead>,
    /// What is known of the coefficients of component 0: a plane of the frame's size, in which the
    /// bands stand in their places. The cells of a block that isn't included are magnitude 0, with
    /// all bit-planes unknown.
    pub c0: KnownPlane,
    /// The same of component 1.
    pub c1: KnownPlane,
    /// The same of component 2.
    pub c2: KnownPlane,
}

/// The planes of the three components.
#[derive(Drop)]
pub(crate) struct Planes {
    pub c0: KnownPlane,
    pub c1: KnownPlane,
    pub c2: KnownPlane,
}
