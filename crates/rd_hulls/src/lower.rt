// The lower hull of a code-block, corner by corner.
ghost use Rattle.rd_hulls.specs.Hull.{FollowFrom, IsLowest, end_of};
ghost use Rattle.rd_hulls.specs.Points.{ArePoints};
ghost use Rattle.rd_hulls.specs.Steps.{IsFalling};

use crate::search::best_step;
use crate::{Point, Step};
use arrayvec::ArrayVec;

/// The lower hull of a code-block's points, as the steps between its strict corners, from no passes
/// to the point of least distortion and, among those, of fewest bytes. It takes no memory.
///
/// `points` has the point of k passes at place k; `are_points` is the test of what is asked of it.
/// Each step's `len` (bytes) and `gain` are the differences of its two points. Of equal points the
/// one of fewest passes counts, and a point on the line between two corners is no corner. Neither
/// bytes nor distortion are monotone in the passes, so a step's `to` may be below its `from`.
pub fn hull(block: u32, points: &ArrayVec<Point, 59>) -> ArrayVec<Step, 58>
    requires { ArePoints points.now.items }
    ensures follow { FollowFrom block points.now.items 0 result.items }
    ensures fall { IsFalling result.items }
    ensures lowest { IsLowest points.now.items (end_of 0 result.items) }
{
    let all = points.as_slice();
    let mut steps = ArrayVec::new();
    let mut corner = all[0];
    while let Some(step) = best_step(block, all, &corner) {
        corner = all[usize::from(step.to)];
        steps.push(step);
    }
    steps
}
