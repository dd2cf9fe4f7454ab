// The least term of points: 2^32 times distortion, and a multiplier times bytes.
ghost use Rattle.std.specs.Prelude.{◌≡◌, ◌<◌, ◌≤◌, ◌^◌};
ghost use Rattle.allocation_bound.specs.Passes.{IsLeastTerm, term};
ghost use Rattle.rd_hulls.specs.Points.{ArePoints};

use rd_hulls::Point;

// What a point costs at a multiplier.
pub(crate) fn term(point: &Point, multiplier: u128) -> u128
    requires short { point.now.len ≤ 131072 }
    requires wide { point.now.dist < 2 ^ 64 }
    requires multiplier { multiplier < 2 ^ 96 }
    ensures { result ≡ term multiplier point.now }
{
    0x1_0000_0000 * point.dist + multiplier * u128::from(point.len)
}

// The least that one of the points costs.
pub(crate) fn least_term(points: &[Point], multiplier: u128) -> u128
    requires points { ArePoints points.now }
    requires multiplier { multiplier < 2 ^ 96 }
    ensures { IsLeastTerm points.now multiplier result }
{
    let mut least = term(&points[0], multiplier);
    for point in points {
        least = least.min(term(point, multiplier));
    }
    least
}
