// A step between two corners of a hull.
ghost use Rattle.std.specs.Prelude.{◌≢◌, ◌<◌, ◌≤◌, ◌^◌};

/// A step of a code-block from one number of coding passes to another: so many more bytes, and so
/// much less distortion.
///
/// `block` counts blocks from 0. `from` and `to` are numbers of passes and differ; `to` may be the
/// smaller one. `len` is in bytes, from 1 to 131,072. `gain` is from 1 to 2^64 - 1.
#[derive(Clone, Copy, Debug, PartialEq, Eq)]
pub struct Step {
    pub block: u32,
    pub from: u8,
    pub to: u8,
    pub len: u32,
    pub gain: u128,
    pub ghost moves: { from ≢ to },
    pub ghost longer: { 1 ≤ len },
    pub ghost short: { len ≤ 131072 },
    pub ghost gains: { 1 ≤ gain },
    pub ghost wide: { gain < 2 ^ 64 },
}

impl Default for Step {
    ghost use Rattle.rd_hulls.specs.Steps.{IsLeastStep};

    ghost is_default = { IsLeastStep };

    /// The step that fills a place of an `ArrayVec` where none stands.
    fn default() -> Step {
        Step {
            block: 0,
            from: 0,
            to: 1,
            len: 1,
            gain: 1,
        }
    }
}

impl Step {
    ghost use Rattle.rd_hulls.specs.Steps.{Beats};
    ghost use Rattle.std.specs.Prelude.{◌↔◌, IsTrue};

    /// Whether this step is steeper than the other one, or as steep and longer.
    pub fn beats(&self, other: &Step) -> bool
        ensures { IsTrue result ↔ Beats self.now other.now }
    {
        let mine = self.gain * u128::from(other.len);
        let its = other.gain * u128::from(self.len);
        mine > its || (mine == its && self.len > other.len)
    }
}
