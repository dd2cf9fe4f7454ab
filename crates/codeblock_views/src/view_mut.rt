// A view of a code block in a plane of what a reader knows.
ghost use Rattle.std.specs.Prelude.{ℕ, ◌≡◌, ◌+◌, ◌*◌, ◌<◌, get_or, set};
ghost use Rattle.codeblock_views.specs.Rectangles.{IsBlockIn, IsOutside};

use crate::known::{Known, KnownPlane};
use band_geometry::Rect;

/// The cells of a rectangle of a plane, which may be set.
#[derive(Drop)]
pub struct BlockViewMut<'a> {
    plane: &'a mut KnownPlane,
    rect: Rect,
    ghost block: { IsBlockIn plane.now.width plane.now.height rect },
}

impl<'a> BlockViewMut<'a> {
    ghost use Rattle.codeblock_views.specs.KnownCells.{zero_known, known_cells};
    ghost use Rattle.codeblock_views.specs.declared.known.Known.{Known};

    /// The view of a rectangle that lies in the plane, each side from 1 to 32.
    pub fn of(plane: &'a mut KnownPlane, rect: Rect) -> BlockViewMut<'a>
        requires { IsBlockIn plane.old.width plane.old.height rect }
        ensures plane { result.plane.now ≡ plane.old }
        ensures rect { result.rect ≡ rect }
        ensures same_reference { result.plane.ghost_name ≡ plane.entry.ghost_name }
    {
        BlockViewMut { plane, rect }
    }

    /// The width in cells, from 1 to 32.
    pub fn width(&self) -> u32
        ensures { result ≡ self.now.rect.width }
    {
        self.rect.width
    }

    /// The height in cells, from 1 to 32.
    pub fn height(&self) -> u32
        ensures { result ≡ self.now.rect.height }
    {
        self.rect.height
    }

    /// The cell in column `x` and row `y`, both from 0 on.
    #[inline]
    pub fn known(&self, x: u32, y: u32) -> Known
        requires column { x < self.now.rect.width }
        requires row { y < self.now.rect.height }
        ensures { result ≡ get_or (known_cells self.now) (y * self.now.rect.width + x) zero_known }
    {
        let row = (self.rect.y + y) as usize * self.plane.width as usize;
        self.plane.cells[row + (self.rect.x + x) as usize]
    }

    /// Sets the cell in column `x` and row `y`, both from 0 on.
    #[inline]
    pub fn set(&mut self, x: u32, y: u32, cell: Known)
        requires column { x < self.old.rect.width }
        requires row { y < self.old.rect.height }
        ensures cells { known_cells self.new
            ≡ set (known_cells self.old) (y * self.old.rect.width + x) cell }
        ensures outside { (k : ℕ) (d : Known) → IsOutside self.old.plane.now.width self.old.rect k →
            get_or self.new.plane.now.cells.items k d ≡ get_or self.old.plane.now.cells.items k d }
        ensures size { (self.new.plane.now.width ≡ self.old.plane.now.width)
            × (self.new.plane.now.height ≡ self.old.plane.now.height) }
        ensures rect { self.new.rect ≡ self.old.rect }
        ensures same_reference { self.new.plane.ghost_name ≡ self.old.plane.ghost_name }
    {
        let row = (self.rect.y + y) as usize * self.plane.width as usize;
        let plane = &mut *self.plane;
        plane.cells[row + (self.rect.x + x) as usize] = cell;
    }
}
