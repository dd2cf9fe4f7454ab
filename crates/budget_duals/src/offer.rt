// What a block offers next.
ghost use Rattle.std.specs.Prelude.{◌<◌, ◌≤◌, ◌^◌};

use rd_hulls::Step;

/// A slope that bounds others: so much gain for so many bytes, from 1 to 131,072.
#[derive(Clone, Copy, Debug)]
pub struct Slope {
    pub gain: u128,
    pub len: u32,
    pub ghost longer: { 1 ≤ len },
    pub ghost short: { len ≤ 131072 },
    pub ghost wide: { gain < 2 ^ 64 },
}

/// What a block offers next.
#[derive(Clone, Copy, Debug)]
pub enum Offer {
    /// No step is left.
    Nothing,
    /// The next step.
    Step(Step),
    /// Some step is left, and none is steeper than this.
    AtMost(Slope),
}
