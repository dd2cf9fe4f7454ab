// The search for the best step from a corner.
ghost use Rattle.std.specs.Prelude.{◌≡◌, ◌≢◌, ◌<◌, ◌≤◌, ◌^◌, ◌+◌, MatchOption, length};
ghost use Rattle.rd_hulls.specs.Steps.{IsStepTo, KeepsBetter};
ghost use Rattle.rd_hulls.specs.Points.{ArePoints, IsPointOf};
ghost use Rattle.rd_hulls.specs.Search.{IsBest, HasNone};

use crate::{Point, Step};

// The step from a corner to a point, where that has more bytes and less distortion.
fn step_to(block: u32, corner: &Point, point: &Point) -> Option<Step>
    requires short { point.now.len ≤ 131072 }
    requires wide { corner.now.dist < 2 ^ 64 }
    requires moves { corner.now.passes ≡ point.now.passes → point.now.len ≤ corner.now.len }
    ensures { MatchOption result (corner.now.len < point.now.len → corner.now.dist ≤ point.now.dist)
        (λ s. IsStepTo block corner.now point.now s) }
{
    if point.len <= corner.len || point.dist >= corner.dist {
        return None;
    }
    Some(Step {
        block,
        from: corner.passes,
        to: point.passes,
        len: point.len - corner.len,
        gain: corner.dist - point.dist,
    })
}

// Of the step kept so far and the one just found, the found one where it beats the kept one.
fn better(kept: Option<Step>, found: Option<Step>) -> Option<Step>
    ensures { KeepsBetter kept found result }
{
    match (kept, found) {
        (None, found) => found,
        (Some(old), None) => Some(old),
        (Some(old), Some(new)) => {
            if new.beats(&old) {
                Some(new)
            } else {
                Some(old)
            }
        }
    }
}

/// The steepest step from a corner to one of these points that has more bytes and less distortion;
/// of equal slopes the longest one, and of equal points the first. `None` where no point has both.
/// These may be the first points of a block only.
pub fn best_step(block: u32, points: &[Point], corner: &Point) -> Option<Step>
    requires points { ArePoints points.now }
    requires within { corner.now.passes < length points.now }
    requires corner { IsPointOf points.now corner.now }
    ensures { MatchOption result (HasNone points.now corner.now (length points.now))
        (λ s. IsBest block points.now corner.now (length points.now) s) }
{
    let mut best: Option<Step> = None;
    for point in points {
        best = better(best, step_to(block, corner, point));
    }
    best
}
