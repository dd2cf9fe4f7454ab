// The slope that no step to a code of more passes exceeds.
ghost use Rattle.std.specs.Prelude.{◌≡◌, ◌↔◌, ◌*◌, ◌<◌, ◌≤◌, ◌^◌, IsTrue};
ghost use Rattle.partial_hulls.specs.Offered.{IsBoundFrom};

use budget_duals::Slope;
use rd_hulls::{Point, Step};

// All the distortion that is left at a corner, for the fewest bytes that a code of more passes can
// have more than the corner has: no such code has fewer than `low`.
pub(crate) fn bound_from(low: u32, corner: &Point) -> Slope
    requires low { low ≤ 131072 }
    requires wide { corner.now.dist < 2 ^ 64 }
    ensures { IsBoundFrom low corner.now result }
{
    let len = if corner.len < low {
        low - corner.len
    } else {
        1
    };
    Slope {
        gain: corner.dist,
        len,
    }
}

// Whether a step is steeper than a bound.
pub(crate) fn is_steeper(step: &Step, bound: &Slope) -> bool
    ensures { IsTrue result ↔ (bound.now.gain * step.now.len < step.now.gain * bound.now.len) }
{
    step.gain * u128::from(bound.len) > bound.gain * u128::from(step.len)
}
