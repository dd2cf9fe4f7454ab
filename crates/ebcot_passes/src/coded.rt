// What is left of a code-block that was coded.
use arrayvec::ArrayVec;
use mq_coder::Mark;

/// A coding pass that was coded.
#[derive(Clone, Copy, Debug, Default)]
pub struct CodedPass {
    /// Where the coder was after it: the code of the passes up to this one ends at this mark.
    pub mark: Mark,
    /// The distortion that is left of the block after it, in units of half a step squared.
    pub distortion: u64,
}

/// A code-block whose coding passes were all coded.
#[derive(Debug, Drop)]
pub struct BlockCode {
    /// How many bit-planes its magnitudes have, at most 20.
    pub planes: u8,
    /// Its distortion while nothing of it is known, in units of half a step squared.
    pub start: u64,
    /// Its passes, in order: three for each bit-plane, less two, and none without a bit-plane.
    pub passes: ArrayVec<CodedPass, 58>,
}
