// What is kept of a block.
use budget_duals::Offer;

/// What is kept of a block beside its points.
#[derive(Clone, Copy, Debug)]
pub struct DemandRow {
    /// How many coding passes are taken.
    pub present: u8,
    /// How many steps of the hull lead to them.
    pub taken: u8,
    /// What the block offers next.
    pub offer: Offer,
}
