// The coefficients of a transformed plane.
ghost use Rattle.std.specs.Prelude.{ℕ, ◌≡◌, ◌+◌, ◌*◌, ◌<◌, ◌≤◌, ◌^◌, ℤ, pos, length};
ghost use Rattle.std.specs.Prelude.{slice_index_or};
ghost use Rattle.std.specs.List.{All};
ghost use Rattle.cine_nums.specs.Fixed.{Within30};
ghost use Rattle.dz_quantiser.specs.Bands.{AreUsable};
ghost use Rattle.dz_quantiser.specs.Index.{index_of};
ghost use Rattle.dz_quantiser.specs.Coefficient.{Coefficient};
ghost use Rattle.codeblock_views.specs.Magnitudes.{AreSmall};
ghost use Rattle.frame_coefficients.specs.Planes.{AreBelow, ArePlain};
ghost use Rattle.frame_coefficients.specs.Places.{coef_at, index_in, quantised};
ghost use Rattle.cine_nums.specs.declared.orient.Orient.{Orient};
ghost use Rattle.band_geometry.specs.Bands.{HasBand, band_of, IsPlaceIn};

use crate::band::{band_at, row_res};
use band_geometry::Geometry;
use dz_quantiser::{BandQuantiser, Coef, StepSizes, index};

/// Sets the coefficients from place `from` up to place `to`, which are all of one band.
fn quantise_run(cells: &[i32], band: BandQuantiser, from: usize, to: usize, coefs: &mut [Coef])
    requires order { from ≤ to }
    requires within { to ≤ length cells.now }
    requires len { length coefs.old ≡ length cells.now }
    requires cells { All Within30 cells.now }
    ensures before { (k : ℕ) (d : Coefficient) → k < from →
        slice_index_or coefs.new k d ≡ slice_index_or coefs.old k d }
    ensures done { (k : ℕ) (d : Coefficient) → from ≤ k → k < to →
        slice_index_or coefs.new k d ≡ index_of
        (slice_index_or cells.now k (pos 0)) band.step band.range band.planes }
{
    for i in from..to {
        coefs[i] = index(cells[i], band);
    }
}

/// Sets the coefficients of row `y`.
fn quantise_row(geometry: &Geometry, steps: &StepSizes, cells: &[i32], y: u32, coefs: &mut [Coef])
    requires row { y < geometry.now.height }
    requires usable { AreUsable geometry.now.levels steps.now }
    requires cells { All Within30 cells.now }
    requires places { length cells.now ≡ geometry.now.height * geometry.now.width }
    requires len { length coefs.old ≡ length cells.now }
    ensures before { (k : ℕ) (d : Coefficient) → k < y * geometry.now.width →
        slice_index_or coefs.new k d ≡ slice_index_or coefs.old k d }
    ensures done { (k : ℕ) (d : Coefficient) → y * geometry.now.width ≤ k →
        k < (y + 1) * geometry.now.width →
        slice_index_or coefs.new k d
        ≡ coef_at geometry.now.levels geometry.now.width geometry.now.height steps.now cells.now k }
{
    let row = row_res(geometry, y);
    let at = y as usize * geometry.width as usize;
    let mut from = at;
    for column in 0..geometry.levels + 1 {
        let to = at + geometry.res_size(column).0 as usize;
        let band = band_at(steps, geometry.levels, column, row);
        quantise_run(cells, band, from, to, coefs);
        from = to;
    }
}

/// The coefficients of a transformed plane: the index of each cell by the step of its band.
pub fn quantise_plane(geometry: &Geometry, steps: &StepSizes, cells: &[i32], coefs: &mut [Coef])
    requires usable { AreUsable geometry.now.levels steps.now }
    requires cells { All Within30 cells.now }
    requires places { length cells.now ≡ geometry.now.height * geometry.now.width }
    requires len { length coefs.old ≡ length cells.now }
    ensures value { coefs.new
        ≡ quantised geometry.now.levels geometry.now.width geometry.now.height steps.now cells.now }
    ensures magnitudes { AreSmall coefs.new }
    ensures below { AreBelow geometry.now steps.now coefs.new }
    ensures plain { ArePlain coefs.new }
    // each place of each band has the index by that band's step
    ensures bands { (r : ℕ) (o : Orient) (x y : ℕ) (d : Coefficient) → HasBand geometry.now r o →
        IsPlaceIn (band_of geometry.now r o) x y →
        slice_index_or coefs.new (y * geometry.now.width + x) d ≡
        index_in steps.now r o (slice_index_or cells.now (y * geometry.now.width + x) (pos 0)) }
{
    for y in 0..geometry.height {
        quantise_row(geometry, steps, cells, y, coefs);
    }
}

#[cfg(test)]
mod tests {
    use super::*;
    use cine_nums::Profile;

    #[test]
    fn bands_of_two_by_two_places(rt: HostRuntime) {
        let geometry = Geometry::new(Profile::TwoK, 5, 2, 2);
        let steps = StepSizes::built_in(Profile::TwoK);
        let mut coefs = [Coef::zero(); 4];
        quantise_plane(&geometry, &steps, &[-8192, 8191, -4095, 16384], &mut coefs);
        let coefs = &coefs[..];
        assert_eq!(rt; coefs[0], Coef::new(64, true));
        assert_eq!(rt; coefs[1], Coef::new(1, false));
        assert_eq!(rt; coefs[2], Coef::new(0, false));
        assert_eq!(rt; coefs[3], Coef::new(2, false));
    }
}
