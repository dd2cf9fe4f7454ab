// Points of a code-block that stand in memory.
ghost use Rattle.std.specs.Prelude.{ℕ, ◌≡◌, ◌↔◌, ◌+◌, ◌<◌, ◌≤◌, ◌==◌, IsTrue, length, take};
ghost use Rattle.std.proofs.Props.{props};
ghost use Rattle.rd_hulls.specs.Points.{ArePoints, point_at};
ghost use Rattle.offers_on_demand.specs.Listed.{IsBound, IsListed, bound_at};

use arrayvec::ArrayVec;
use rd_hulls::{Point, are_points};

/// The points of all passes of a code-block, of which the first ones are known, as if the others
/// were not coded yet.
#[derive(Debug, Drop)]
pub struct ListedPoints {
    points: ArrayVec<Point, 59>,
    least: ArrayVec<u32, 59>,
    coded: u8,
    ghost listed: { IsListed points.items least.items } by { Prim.hlevel props },
    ghost few: { length points.items ≤ 59 },
    ghost inside: { coded < length points.items },
}

// Whether a number of bytes is from 1 to 131,072, and no point after that of so many passes has
// fewer.
fn is_bound(points: &[Point], passes: usize, least: u32) -> bool
    requires { passes < length points.now }
    ensures { IsTrue result ↔ IsBound points.now passes least }
{
    for later in passes + 1..points.len() {
        if points[later].len < least {
            return false;
        }
    }
    1 <= least && least <= 131_072
}

// Whether each number is such a bound, one for each point.
fn are_bounds(points: &[Point], least: &[u32]) -> bool
    requires { length least.now ≡ length points.now }
    ensures { IsTrue result ↔
        ((k : ℕ) → k < length points.now → IsBound points.now k (bound_at least.now k)) }
{
    for passes in 0..points.len() {
        if !is_bound(points, passes, least[passes]) {
            return false;
        }
    }
    true
}

/// Whether these can be the points of all passes of a block, with a bound for each count of coded
/// passes: points that a hull may be asked of, of which the last has no distortion; and as many
/// numbers from 1 to 131,072, where no point of more passes has fewer bytes than that at place k.
pub fn are_listed(points: &ArrayVec<Point, 59>, least: &ArrayVec<u32, 59>) -> bool
    ensures { IsTrue result ↔ IsListed points.now.items least.now.items }
{
    if !are_points(points) || least.len() != points.len() {
        return false;
    }
    let all = points.as_slice();
    all[all.len() - 1].dist == 0 && are_bounds(all, least.as_slice())
}

// The first so many points.
fn first_points(points: &[Point], count: usize) -> ArrayVec<Point, 59>
    requires within { count ≤ length points.now }
    requires few { count ≤ 59 }
    ensures { result.items ≡ take count points.now }
{
    let mut first = ArrayVec::new();
    for place in 0..count {
        first.push(points[place]);
    }
    first
}

impl ListedPoints {
    /// A block of these points, of which those of the first `coded` passes and of no passes are
    /// known. With `coded` passes known no point of more has fewer bytes than `least` has at that
    /// place; `are_listed` is the test of what is asked.
    pub fn new(points: ArrayVec<Point, 59>, least: ArrayVec<u32, 59>, coded: u8) -> ListedPoints
        requires listed { IsListed points.items least.items }
        requires inside { coded < length points.items }
        ensures points { result.points.items ≡ points.items }
        ensures least { result.least.items ≡ least.items }
        ensures coded { result.coded ≡ coded }
    {
        ListedPoints {
            points,
            least,
            coded,
        }
    }

    // The known points.
    pub(crate) fn known(&self) -> ArrayVec<Point, 59>
        ensures { result.items ≡ take (self.now.coded + 1) self.now.points.items }
    {
        first_points(self.points.as_slice(), usize::from(self.coded) + 1)
    }

    // The bound on the bytes of the other points.
    pub(crate) fn least_bytes(&self) -> u32
        ensures { result ≡ bound_at self.now.least.items self.now.coded }
    {
        self.least[usize::from(self.coded)]
    }

    // Whether all points are known.
    pub(crate) fn is_whole(&self) -> bool
        ensures { result ≡ (self.now.coded + 1 == length self.now.points.items) }
    {
        usize::from(self.coded) + 1 == self.points.len()
    }

    // One point more is known.
    pub(crate) fn know_more(&mut self)
        requires { self.old.coded + 1 < length self.old.points.items }
        ensures points { self.new.points.items ≡ self.old.points.items }
        ensures coded { self.new.coded ≡ self.old.coded + 1 }
    {
        self.coded += 1;
    }
}
