// A codestream that was read up to its code-blocks.

use crate::span::BlockSpan;
use band_geometry::Geometry;
use budget_duals::Held;
use cinema_markers::MainRead;

/// What is found of a codestream without decoding its code-blocks.
#[derive(Drop)]
pub struct StreamSpans {
    /// Its main header, and where it stands.
    pub read: MainRead,
    /// The geometry of its frame.
    pub geometry: Geometry,
    /// The bytes that it holds in each budget.
    pub held: Held,
    /// For each code-block, by block number, what is said of it and where its bytes stand.
    pub spans: Vec<BlockSpan>,
}
