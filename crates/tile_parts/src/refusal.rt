// Why a tile-part couldn't be read.
use thiserror::Error;

/// Why `read_part` refused the bytes. Each place is counted in bytes from the first byte of the
/// whole.
#[derive(Clone, Copy, Debug, PartialEq, Eq, Error)]
pub enum PartRefusal {
    /// A field of SOT is not what it has to be, or a segment ends past the end of the tile-part.
    #[error("bad tile-part at byte {0}")]
    BadTilePart(u32),
    /// The length of the tile-part is given as 0, which stands for "up to the end".
    #[error("tile-part of open length at byte {0}")]
    PsotZero(u32),
    /// A marker before SOD that is neither COM nor PLT: its place and the marker.
    #[error("marker {1} in a tile-part's header at byte {0}")]
    TilePartMarker(u32, u16),
}
