// The distortion of a block of which nothing is decoded.
ghost use Rattle.std.specs.Prelude.{ℕ, ◌≡◌, ◌+◌, ◌*◌, ◌<◌, ◌≤◌, ◌^◌};
ghost use Rattle.ebcot_contexts.specs.Cells.{coef_at};
ghost use Rattle.ebcot_contexts.specs.Contexts.{Shape};
ghost use Rattle.codeblock_views.specs.Magnitudes.{block_planes};
ghost use Rattle.distortion_sums.specs.Coefs.{coefs_of};
ghost use Rattle.distortion_sums.specs.Distortion.{distortion};
ghost use Rattle.distortion_sums.specs.Places.{start_sum};

use codeblock_views::Coefs;
use distortion_sums::undecoded_error;

/// The sum of the squared errors of the coefficients of row `y`, counted from 0, while nothing of
/// them is known.
fn row_error<C: Coefs>(block: &C, y: u32) -> u64
    requires row { y < C.rows block.now }
    ensures sum { (planes : ℕ) →
        ((i : ℕ) → (coef_at (coefs_of (C.cells block.now)) i).0 < 2 ^ planes) →
        start_sum planes (y * C.columns block.now) (coefs_of (C.cells block.now)) + result
        ≡ start_sum planes ((y + 1) * C.columns block.now) (coefs_of (C.cells block.now)) }
    ensures small { result ≤ 2 ^ 47 }
{
    let mut sum = 0;
    for x in 0..block.width() {
        sum += undecoded_error(block.coef(x, y).magnitude());
    }
    sum
}

/// The distortion of a block of which no pass is coded, in units of half a step squared: the sum of
/// the squared errors of its coefficients while nothing of them is known. It is 0 where all of them
/// are 0.
pub fn undecoded_distortion<C: Coefs>(block: &C) -> u64
    ensures { (s : Shape) → s.width ≡ C.columns block.now → s.height ≡ C.rows block.now →
        s.planes ≡ block_planes (C.cells block.now) →
        result ≡ distortion (coefs_of (C.cells block.now)) s 0 }
{
    let mut sum = 0;
    for y in 0..block.height() {
        sum += row_error(block, y);
    }
    sum
}
