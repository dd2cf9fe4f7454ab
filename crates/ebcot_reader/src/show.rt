// What was read, set in a plane.
ghost use Rattle.std.specs.Prelude.{◌≡◌, ◌+◌, ◌-◌, ◌*◌, ◌/◌, ◌%◌, ◌<◌, ◌≤◌, ◌^◌, ℕ, List, length};
ghost use Rattle.std.specs.Prelude.{get_or};
ghost use Rattle.codeblock_views.specs.Rectangles.{IsOutside};
ghost use Rattle.ebcot_contexts.specs.Cells.{Cell, cell_at};
ghost use Rattle.ebcot_reader.specs.Results.{cell_of_known, cells_of, AreTops, AreSmall};
ghost use Rattle.ebcot_reader.specs.Reading.{AreKnown};

use codeblock_views::{BlockViewMut, Known};

/// What words and grid say of the place in column `x` and row `y` of a block: `top` bit-planes of
/// it are unknown, or one fewer where it is touched.
#[inline(always)]
fn known_at(words: &[u32; 340], grid: &[u32; 1024], top: u32, x: usize, y: usize) -> Known
    requires top { top ≤ 31 }
    requires column { x < 32 }
    requires row { y < 32 }
    ensures { (w : ℕ) (cells : List Cell) → x < w → y * w + x < length cells →
        AreKnown w cells grid.now → AreTops w top cells words.now → AreSmall cells →
        cell_of_known result ≡ cell_at cells (y * w + x) }
{
    let word = words[34 * (y / 4 + 1) + (x + 1)];
    let touched = word >> (21 + 3 * (y as u32 % 4)) & 1;
    let unknown = top.saturating_sub(touched);
    let value = grid[32 * y + x];
    Known {
        magnitude: (value & 0x7FFF_FFFF) >> unknown,
        negative: value >> 31 == 1,
        unknown: unknown as u8,
    }
}

/// Sets every cell of a view to what words and grid say.
pub fn show(out: &mut BlockViewMut<'_>, words: &[u32; 340], grid: &[u32; 1024], top: u32)
    requires top { top ≤ 31 }
    ensures cells { (cells : List Cell) →
        length cells ≡ out.old.rect.width * out.old.rect.height →
        AreKnown out.old.rect.width cells grid.now →
        AreTops out.old.rect.width top cells words.now → AreSmall cells →
        cells_of out.new ≡ cells }
    ensures outside { (k : ℕ) (d : Known) → IsOutside out.old.plane.now.width out.old.rect k →
        get_or out.new.plane.now.cells.items k d ≡ get_or out.old.plane.now.cells.items k d }
    ensures size { (out.new.plane.now.width ≡ out.old.plane.now.width)
        × (out.new.plane.now.height ≡ out.old.plane.now.height) }
    ensures rect { out.new.rect ≡ out.old.rect }
    ensures same_reference { out.new.plane.ghost_name ≡ out.old.plane.ghost_name }
{
    let width = out.width();
    let height = out.height();
    for i in 0..width * height {
        let (x, y) = (i % width, i / width);
        let cell = known_at(words, grid, top, x as usize, y as usize);
        out.set(x, y, cell);
    }
}
