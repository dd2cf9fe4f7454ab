// A block's entry in a packet header.

/// What a packet header says of a code block (ISO/IEC 15444-1, B.10.4 to B.10.7). An entry that
/// isn't included has zeros.
#[derive(Clone, Copy, Debug, Default, PartialEq, Eq)]
pub struct Entry {
    /// Whether the packet has bytes of the block.
    pub included: bool,
    /// How many of the band's magnitude bit planes are missing: all that stand above the block's
    /// highest.
    pub zero_planes: u8,
    /// The number of coding passes.
    pub passes: u8,
    /// The length of the block's bytes.
    pub len: u32,
}
