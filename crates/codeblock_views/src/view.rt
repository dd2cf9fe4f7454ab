// A view of the coefficients of a code block in a plane.
ghost use Rattle.std.specs.Prelude.{◌≡◌, ◌+◌, ◌*◌, ◌<◌, ◌≤◌, List, length, get_or, take, drop, max};
ghost use Rattle.dz_quantiser.specs.Coefficient.{zero_coefficient};
ghost use Rattle.codeblock_views.specs.Magnitudes.{AreSmall, largest};
ghost use Rattle.codeblock_views.specs.Rectangles.{IsBlockIn, cells_in, place_in};

use crate::coefs::Coefs;
use crate::plane::CoefPlane;
use band_geometry::Rect;
use cine_nums::bit_len;
use dz_quantiser::Coef;

/// The coefficients of a rectangle of a plane, which is not copied.
#[derive(Clone, Copy)]
pub struct BlockView<'a> {
    plane: &'a CoefPlane,
    rect: Rect,
    ghost block: { IsBlockIn plane.now.width plane.now.height rect },
    ghost small: { AreSmall plane.now.cells.items },
}

impl<'a> BlockView<'a> {
    ghost use Rattle.codeblock_views.specs.Views.{view_cells};

    /// The view of a rectangle that lies in the plane, each side from 1 to 32. Every magnitude of
    /// the plane is below `2^20`.
    pub fn of(plane: &'a CoefPlane, rect: Rect) -> BlockView<'a>
        requires block { IsBlockIn plane.now.width plane.now.height rect }
        requires small { AreSmall plane.now.cells.items }
        ensures plane { result.plane.now ≡ plane.now }
        ensures rect { result.rect ≡ rect }
    {
        BlockView { plane, rect }
    }

    /// The coefficients of row `y`, counted from 0, from left to right.
    #[inline]
    pub fn row(&self, y: u32) -> &'a [Coef]
        requires { y < self.now.rect.height }
        ensures len { length result.now ≡ self.now.rect.width }
        ensures cells { result.now ≡ take self.now.rect.width
            (drop (place_in self.now.plane.now.width self.now.rect 0 y) self.now.plane.now.cells.items) }
    {
        let plane = self.plane;
        let from = (self.rect.y + y) as usize * plane.width as usize + self.rect.x as usize;
        &plane.cells.as_slice()[from..from + self.rect.width as usize]
    }

    /// The largest magnitude up to the end of row `y`, `so_far` being that of the rows before.
    fn largest_with_row(&self, y: u32, so_far: u32) -> u32
        requires row { y < self.now.rect.height }
        requires so_far { so_far ≡ largest (take (y * self.now.rect.width) (view_cells self.now)) }
        ensures { result ≡ largest (take ((y + 1) * self.now.rect.width) (view_cells self.now)) }
    {
        let row = self.row(y);
        let mut largest = so_far;
        for x in 0..row.len() {
            largest = largest.max(row[x].magnitude());
        }
        largest
    }
}

impl Coefs for BlockView<'_> {
    ghost use Rattle.codeblock_views.specs.Views.{view_cells};
    ghost use Rattle.codeblock_views.specs.RectangleLaws.{cells_in-length, cells_in-small};

    ghost columns = { λ view. view.rect.width };

    ghost rows = { λ view. view.rect.height };

    ghost cells = { view_cells };

    fn width(&self) -> u32 {
        self.rect.width
    }

    fn height(&self) -> u32 {
        self.rect.height
    }

    #[inline]
    fn coef(&self, x: u32, y: u32) -> Coef {
        let plane = self.plane;
        let row = (self.rect.y + y) as usize * plane.width as usize;
        plane.cells[row + (self.rect.x + x) as usize]
    }

    fn planes(&self) -> u8 {
        let mut largest = 0;
        for y in 0..self.rect.height {
            largest = self.largest_with_row(y, largest);
        }
        bit_len(largest)
    }

    ghost wide = { λ view. (view.block.some_width, view.block.width) };

    ghost high = { λ view. (view.block.some_height, view.block.height) };

    ghost whole = { λ view. cells_in-length zero_coefficient view.plane.now.width view.rect view.plane.now.cells.items };

    ghost small = { λ view. cells_in-small view.plane.now.width view.rect view.plane.now.cells.items view.small };
}
