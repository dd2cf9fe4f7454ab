// Why a packet couldn't be read.
use thiserror::Error;

/// Why `read` refused a packet. Each place is a byte's, counted from 0 at the
/// packet's first byte; the numbers are those of report lines.
#[derive(Clone, Copy, Debug, PartialEq, Eq, Error)]
pub enum PacketRefusal {
    /// 20: the bytes end before a bit or a byte of the header; with the number of bytes.
    #[error("packet header truncated at byte {0}")]
    HeaderTruncated(u32),
    /// 21: a byte after FF in the header has its high bit set; with its place.
    #[error("stuffed bit set in a packet header at byte {0}")]
    StuffedBitSet(u32),
    /// 22: a bit brings the lower bound of an included block's zero planes to the band's planes;
    /// with the place of the byte that has it.
    #[error("too many zero planes at byte {0}")]
    ZeroPlanesTooMany(u32),
    /// 23: a block has more passes than its planes give; with the place of the byte that has the
    /// last bit of their number.
    #[error("too many coding passes at byte {0}")]
    PassesTooMany(u32),
    /// 24: the blocks' lengths together are more than the bytes after the header; with the number
    /// of bytes.
    #[error("packet body truncated at byte {0}")]
    BodyTruncated(u32),
}
