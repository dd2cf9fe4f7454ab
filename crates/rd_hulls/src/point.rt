// What a code-block costs, and what is left of its error, after so many coding passes.
ghost use Rattle.std.specs.Prelude.{◌↔◌, IsTrue};
ghost use Rattle.rd_hulls.specs.Points.{IsPoint, ArePoints};

use arrayvec::ArrayVec;

/// A code-block after `passes` coding passes: the bytes of the ended code, and the distortion left.
#[derive(Clone, Copy, Debug, Default)]
pub struct Point {
    pub len: u32,
    pub dist: u128,
    pub passes: u8,
}

// Whether a point may stand at the place of so many passes.
fn is_point(passes: usize, point: &Point) -> bool
    ensures { IsTrue result ↔ IsPoint passes point.now }
{
    let bytes = if passes == 0 {
        point.len == 0
    } else {
        1 <= point.len && point.len <= 131_072
    };
    usize::from(point.passes) == passes && bytes && point.dist < 0x1_0000_0000_0000_0000
}

/// Whether a hull may be asked of these points: there is one at least, each stands at the place of
/// its number of passes, the first alone has no bytes, none has more than 131,072 bytes, and every
/// distortion is below 2^64.
pub fn are_points(points: &ArrayVec<Point, 59>) -> bool
    ensures { IsTrue result ↔ ArePoints points.now.items }
{
    let all = points.as_slice();
    for k in 0..all.len() {
        if !is_point(k, &all[k]) {
            return false;
        }
    }
    !all.is_empty()
}
