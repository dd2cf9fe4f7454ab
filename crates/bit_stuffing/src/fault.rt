// Why bits can't be taken.

/// Why no bit can be taken from the bytes of a packet header (ISO/IEC 15444-1, B.10.1). Places
/// count from 0.
#[derive(Clone, Copy, Debug, PartialEq, Eq)]
pub enum BitFault {
    /// The bytes end before a wanted bit, or before the byte after a last FF; with the number of
    /// bytes.
    OutOfBits(u32),
    /// A byte after FF has its high bit set; with its place.
    StuffedBitSet(u32),
}
