// One direction of a frame: sizes of resolutions and counts of precincts.
ghost use Rattle.std.specs.Prelude.{◌≡◌, ◌<◌, ◌≤◌, ◌^◌};
ghost use Rattle.cine_nums.specs.Division.{div_up};
ghost use Rattle.cine_nums.specs.Coding.{block_side, precinct_side};

use cine_nums::{BLOCK_SIDE, precinct_side};

/// A number of samples, halved so often and rounded up once.
pub(crate) fn halved_up(samples: u32, halvings: u8) -> u32
    requires samples { samples ≤ 4096 }
    requires halvings { halvings ≤ 6 }
    ensures { result ≡ div_up samples (2 ^ halvings) }
{
    let step = 1u32 << halvings;
    (samples + (step - 1)) >> halvings
}

/// How many precincts of resolution `res` lie along so many of its samples.
pub(crate) fn precincts_along(samples: u32, res: u8) -> u32
    requires { samples ≤ 4096 }
    ensures { result ≡ div_up samples (precinct_side res) }
{
    samples.div_ceil(precinct_side(res))
}

/// How many code blocks lie along so many samples of a band.
pub(crate) fn blocks_along(samples: u32) -> u32
    requires { samples ≤ 4096 }
    ensures count { result ≡ div_up samples block_side }
    ensures few { result ≤ 128 }
{
    samples.div_ceil(BLOCK_SIDE)
}
