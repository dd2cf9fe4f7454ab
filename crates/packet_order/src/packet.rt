// Which packet is meant.

/// Which packet is meant: with one quality layer, each precinct of each resolution of each
/// component has one.
#[derive(Clone, Copy, Debug, PartialEq, Eq)]
pub struct PacketId {
    /// The component, from 0 on.
    pub component: u8,
    /// The resolution, from 0 on.
    pub res: u8,
    /// The column of precincts, from 0 on.
    pub px: u32,
    /// The row of precincts, from 0 on.
    pub py: u32,
}
