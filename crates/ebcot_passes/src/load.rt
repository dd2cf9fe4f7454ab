// The coefficients of a block, copied into a grid.
ghost use Rattle.std.specs.Prelude.{◌≡◌, ◌+◌, ◌*◌, ◌<◌};
ghost use Rattle.distortion_sums.specs.Coefs.{coefs_of};
ghost use Rattle.ebcot_passes.specs.Coding.{AreCoefs, AreLoaded};

use codeblock_views::Coefs;

/// Copies row `y` of a block, counted from 0, into a grid that has the rows above it.
fn load_row<C: Coefs>(block: &C, grid: &mut [u32; 1024], y: u32)
    requires row { y < C.rows block.now }
    requires above { AreLoaded (C.columns block.now) (y * C.columns block.now)
        (coefs_of (C.cells block.now)) grid.old }
    ensures { AreLoaded (C.columns block.now) ((y + 1) * C.columns block.now)
        (coefs_of (C.cells block.now)) grid.new }
{
    for x in 0..block.width() {
        grid[32 * y as usize + x as usize] = block.coef(x, y).word();
    }
}

/// Copies the coefficients of a block into a grid: place (x, y) has its coefficient in word
/// 32 y + x, its magnitude and its sign in the top bit.
pub fn fill<C: Coefs>(block: &C, grid: &mut [u32; 1024])
    ensures { AreCoefs (C.columns block.now) (C.rows block.now)
        (coefs_of (C.cells block.now)) grid.new }
{
    for y in 0..block.height() {
        load_row(block, grid, y);
    }
}
