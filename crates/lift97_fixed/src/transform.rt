// The transform of a plane.
ghost use Rattle.std.specs.Prelude.{◌≡◌, ◌*◌, ◌≤◌, ◌+◌, length, max, All};
ghost use Rattle.cine_nums.specs.Fixed.{Within30};
ghost use Rattle.lift97_fixed.specs.Line.{line_transform};
ghost use Rattle.lift97_fixed.specs.Plane.{rows, plane_transform};

use crate::line::forward_line;
use crate::plane::Plane;
use crate::vertical::transform_columns;
use cine_nums::half_up;

/// The transform of a line along the first `width` cells of each of `height` rows. A row has
/// `stride` cells; `scratch` may hold anything afterwards.
fn transform_rows(
    cells: &mut [i32],
    stride: usize,
    width: usize,
    height: usize,
    scratch: &mut [i32],
)
    requires width { 1 ≤ width × width ≤ stride }
    requires limit { stride ≤ 4096 }
    requires height { height * stride ≤ length cells.old }
    requires scratch { width ≤ length scratch.old }
    requires cells { All Within30 cells.old }
    ensures value { cells.new ≡ rows line_transform stride width height cells.old }
    ensures within { All Within30 cells.new }
{
    for y in 0..height {
        let start = y * stride;
        forward_line(&mut cells[start..start + width], &mut scratch[..width]);
    }
}

/// The transform of a plane by up to 6 levels (ISO/IEC 15444-1, Annex F.4): each level transforms
/// every column and then every row of the LL part that the level before it left in the upper left
/// corner, and leaves there LL, right of it HL, below it LH, and HH in the fourth part. The cells
/// are in -2^30 .. 2^30 - 1 before and after. `scratch` has at least twice as many cells as the
/// larger side, and may hold anything afterwards.
pub fn forward(plane: &mut Plane, levels: u8, scratch: &mut [i32])
    requires levels { levels ≤ 6 }
    requires scratch { 2 * max plane.old.width plane.old.height ≤ length scratch.old }
    requires cells { All Within30 plane.old.cells.items }
    ensures value { plane.new.cells.items
        ≡ plane_transform levels plane.old.width plane.old.height plane.old.cells.items }
    ensures within { All Within30 plane.new.cells.items }
    ensures width { plane.new.width ≡ plane.old.width }
    ensures height { plane.new.height ≡ plane.old.height }
{
    let stride = plane.width as usize;
    let mut width = plane.width;
    let mut height = plane.height;
    let cells = plane.cells.as_mut_slice();
    for _level in 0..levels {
        transform_columns(cells, stride, width as usize, height as usize, scratch);
        transform_rows(cells, stride, width as usize, height as usize, scratch);
        width = half_up(width);
        height = half_up(height);
    }
}

#[cfg(test)]
mod tests {
    use super::*;
    use std::test::Fail;

    #[test]
    fn two_levels(rt: HostRuntime) -> Result<(), Fail> {
        let mut plane = Plane::new(rt.alloc(), 3, 2)?;
        assert_eq!(rt; plane.cells.as_slice(), [0; 6].as_slice());
        let samples = [8192, 0, 4096, 0, -8192, 100];
        plane.cells.as_mut_slice().copy_from_slice(&samples);
        forward(&mut plane, 2, &mut [0; 6]);
        assert_eq!(rt;
            plane.cells.as_slice(),
            [-501, -1626, -7194, -8846, -5437, -2096].as_slice()
        );
        Ok(())
    }
}
