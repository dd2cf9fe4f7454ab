// The coefficients of a code block, wherever they stand.
ghost use Rattle.std.specs.Prelude.{ℕ, ◌≡◌, ◌+◌, ◌*◌, ◌<◌, ◌≤◌, List, length, get_or};
ghost use Rattle.dz_quantiser.specs.Coefficient.{Coefficient, zero_coefficient};
ghost use Rattle.codeblock_views.specs.Magnitudes.{block_planes, AreSmall};

use dz_quantiser::Coef;

/// The coefficients of a code block of 1 to 32 columns and 1 to 32 rows, whose magnitudes are below
/// `2^20`. Contracts see them as the list `cells` in raster order, with `columns` and `rows`.
pub trait Coefs {
    ghost columns: { Self → ℕ };

    ghost rows: { Self → ℕ };

    ghost cells: { Self → List Coefficient };

    /// The width in cells, from 1 to 32.
    fn width(&self) -> u32
        ensures { result ≡ columns self.now };

    /// The height in cells, from 1 to 32.
    fn height(&self) -> u32
        ensures { result ≡ rows self.now };

    /// The coefficient in column `x` and row `y`, both from 0 on.
    fn coef(&self, x: u32, y: u32) -> Coef
        requires column { x < columns self.now }
        requires row { y < rows self.now }
        ensures { result ≡ get_or (cells self.now) (y * columns self.now + x) zero_coefficient };

    /// How many magnitude bit-planes the block has: the bit length of its largest magnitude, at
    /// most 20.
    fn planes(&self) -> u8
        ensures { result ≡ block_planes (cells self.now) };

    ghost wide: { (block : Self) → 1 ≤ columns block × columns block ≤ 32 };

    ghost high: { (block : Self) → 1 ≤ rows block × rows block ≤ 32 };

    ghost whole: { (block : Self) → length (cells block) ≡ rows block * columns block };

    ghost small: { (block : Self) → AreSmall (cells block) };
}
