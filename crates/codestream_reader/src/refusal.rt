// Why a codestream couldn't be read.
ghost use Rattle.std.specs.Prelude.{◌≡◌};
ghost use Rattle.codestream_reader.specs.declared.refusal.ReadRefusal.TheVariants.{Memory};

use cine_nums::Budget;
use cinema_markers::MarkerRefusal;
use packet_headers::PacketRefusal;
use std::alloc::AllocError;
use thiserror::Error;
use tile_parts::PartRefusal;

/// Why a codestream was refused: its first fault in reading order. Places are counted in bytes from
/// 0.
#[derive(Clone, Copy, Debug, PartialEq, Eq, Error)]
pub enum ReadRefusal {
    /// 40 to 52: a fault of the main header, with its place; 49 also where the length of a
    /// tile-part in TLM isn't its Psot, with the place of that length in TLM.
    #[error("{0}")]
    Main(MarkerRefusal),
    /// 30 to 32: a fault of a tile-part's head, with its place.
    #[error("{0}")]
    Part(PartRefusal),
    /// 20 to 24: a fault of a packet, with its place.
    #[error("{0}")]
    Packet(PacketRefusal),
    /// 60: a byte follows EOC, at this place.
    #[error("bytes after the end of the codestream at byte {0}")]
    BytesAfterEnd(u32),
    /// 61: the codestream has so many bytes on this budget, more than its limit.
    #[error("too many bytes: {1}")]
    LimitExceeded(Budget, u32),
    /// 62: this band, in the order of QCD, has more than 31 magnitude bit-planes.
    #[error("too many bit-planes in band {0}")]
    TooManyPlanes(u8),
    /// 63: EOC doesn't stand after the last tile-part, at this place.
    #[error("no end of codestream at byte {0}")]
    MissingEnd(u32),
    /// 64: bytes remain in a tile-part after its last packet; the place of the first of them.
    #[error("bytes after the last packet of a tile-part at byte {0}")]
    PartTooLong(u32),
    /// There was no memory left.
    #[error("out of memory")]
    Memory,
}

impl From<AllocError> for ReadRefusal {
    ghost from_gives = { λ _ e. e ≡ Memory };

    fn from(_: AllocError) -> ReadRefusal {
        ReadRefusal::Memory
    }
}
