// The band of a place of the transformed plane.
ghost use Rattle.std.specs.Prelude.{◌≡◌, ◌≤◌, max};
ghost use Rattle.dz_quantiser.specs.Bands.{step_of, range_of, band_planes, AreUsable};
ghost use Rattle.band_geometry.specs.Places.{res_at, orient_of};

use band_geometry::Geometry;
use cine_nums::Orient;
use dz_quantiser::{BandQuantiser, StepSizes};

/// The resolution of a row of the transformed plane.
pub fn row_res(geometry: &Geometry, y: u32) -> u8
    ensures value { result ≡ res_at geometry.now.levels geometry.now.height y }
    ensures within { result ≤ geometry.now.levels }
{
    let mut res = geometry.levels;
    while res > 0 && y < geometry.res_size(res - 1).1 {
        res -= 1;
    }
    res
}

/// The orientation of the band in a column and a row of these resolutions.
fn orient_of(column_res: u8, row_res: u8) -> Orient
    ensures { result ≡ orient_of column_res row_res }
{
    if row_res < column_res {
        Orient::HL
    } else if column_res < row_res {
        Orient::LH
    } else if column_res == 0 {
        Orient::LL
    } else {
        Orient::HH
    }
}

/// The band in a column and a row of these resolutions, of so many levels.
pub fn band_at(steps: &StepSizes, levels: u8, column_res: u8, row_res: u8) -> BandQuantiser
    requires levels { levels ≤ 6 }
    requires usable { AreUsable levels steps.now }
    requires column { column_res ≤ levels }
    requires row { row_res ≤ levels }
    ensures step { result.step ≡ step_of steps.now (max column_res row_res)
        (orient_of column_res row_res) }
    ensures range { result.range ≡ range_of (orient_of column_res row_res) }
    ensures planes { result.planes
        ≡ band_planes steps.now (max column_res row_res) (orient_of column_res row_res) }
{
    let orient = orient_of(column_res, row_res);
    steps.band(levels, column_res.max(row_res), orient)
}
