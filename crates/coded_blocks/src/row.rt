// What is kept of each code-block.

/// What is kept of a code-block beside its passes and its bytes, which stand among those of all
/// blocks.
#[derive(Clone, Copy, Debug)]
pub struct CodedBlock {
    /// The magnitude bit-planes of the band above those of the block's largest magnitude.
    pub zero_planes: u8,
    /// How many coding passes it has.
    pub passes: u8,
    /// Where its first pass stands among the passes of all blocks.
    pub first: usize,
    /// Where its first byte stands among the bytes of all blocks.
    pub at: usize,
    /// Its distortion while nothing of it is known, in units of half a step squared.
    pub start: u64,
}
