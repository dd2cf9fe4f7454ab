// The neighbours of a place by words of a stripe's columns.
ghost use Rattle.std.specs.Prelude.{◌≡◌, ◌+◌, ◌<◌, ◌≤◌, ◌==◌, ℕ, get_or};
ghost use Rattle.ebcot_contexts.specs.Cells.{bit_of};
ghost use Rattle.ebcot_contexts.specs.Contexts.{Contribution, both, contribution};
ghost use Rattle.ebcot_contexts.specs.Columns.{row_contribution, contribution_in, one_of, signed};

/// What the neighbours of a place give to its contexts (ISO/IEC 15444-1, Annex D.3.1 and D.3.2).
#[derive(Clone, Copy, Debug, PartialEq, Eq)]
pub struct Neighbours {
    /// The number of significant ones to the left and right, at most 2.
    pub h: u8,
    /// The number of significant ones above and below, at most 2.
    pub v: u8,
    /// The number of significant diagonal ones, at most 4.
    pub d: u8,
    /// The contribution of those to the left and right to the context of a sign, -1 to 1.
    pub sh: i8,
    /// The contribution of those above and below, -1 to 1.
    pub sv: i8,
}

/// What row `r` of a column's word contributes: 1 for a significant positive place, -1 for a
/// significant negative one, 0 for an insignificant one.
fn row(word: u32, r: u32) -> i8
    requires { r < 4 }
    ensures { result ≡ signed (row_contribution word r) }
{
    if word >> r & 1 == 0 {
        0
    } else if word >> (4 + r) & 1 == 1 {
        -1
    } else {
        1
    }
}

/// The same of row `y` - 1 of a column, where -1 is the last row of the stripe above and 4 the
/// first of the one below.
fn place(above: u32, here: u32, below: u32, y: u32) -> i8
    requires { y < 6 }
    ensures { result ≡ signed (contribution_in above here below y) }
{
    if y == 0 {
        row(above, 3)
    } else if y == 5 {
        row(below, 0)
    } else {
        row(here, y - 1)
    }
}

/// Whether a place is significant, as a number.
fn one(contribution: i8) -> u8
    ensures value { (c : Contribution) → contribution ≡ signed c → result ≡ one_of c }
    ensures few { result ≤ 1 }
{
    if contribution == 0 { 0 } else { 1 }
}

/// The sum of two contributions, limited to -1 to 1.
fn joined(a: i8, b: i8) -> i8
    ensures { (c d : Contribution) → a ≡ signed c → b ≡ signed d → result ≡ signed (both c d) }
{
    match (a, b) {
        (0, _) => b,
        (_, 0) => a,
        (1, 1) => 1,
        (-1, -1) => -1,
        (_, _) => 0,
    }
}

/// The neighbours of row `r`, below 4, of a column of a stripe. The words are those of the column
/// and of the ones to its `left` and `right`; `above` and `below` are the left, middle and right
/// words of the stripes above and below. Bit k of a word says that row k is significant, bit 4 + k
/// that it is negative. A word outside the block is 0.
pub fn near(left: u32, here: u32, right: u32, above: [u32; 3], below: [u32; 3], r: u8) -> Neighbours
    requires { r < 4 }
    ensures h { result.h ≡ one_of (contribution_in (get_or above 0 0) left (get_or below 0 0)
        (r + 1))
        + one_of (contribution_in (get_or above 2 0) right (get_or below 2 0) (r + 1)) }
    ensures v { result.v ≡ one_of (contribution_in (get_or above 1 0) here (get_or below 1 0) r)
        + one_of (contribution_in (get_or above 1 0) here (get_or below 1 0) (r + 2)) }
    ensures d { result.d ≡ one_of (contribution_in (get_or above 0 0) left (get_or below 0 0) r)
        + one_of (contribution_in (get_or above 2 0) right (get_or below 2 0) r)
        + (one_of (contribution_in (get_or above 0 0) left (get_or below 0 0) (r + 2))
        + one_of (contribution_in (get_or above 2 0) right (get_or below 2 0) (r + 2))) }
    ensures sh { result.sh ≡ signed (both
        (contribution_in (get_or above 0 0) left (get_or below 0 0) (r + 1))
        (contribution_in (get_or above 2 0) right (get_or below 2 0) (r + 1))) }
    ensures sv { result.sv ≡ signed (both
        (contribution_in (get_or above 1 0) here (get_or below 1 0) r)
        (contribution_in (get_or above 1 0) here (get_or below 1 0) (r + 2))) }
{
    let y = r as u32;
    let west = place(above[0], left, below[0], y + 1);
    let east = place(above[2], right, below[2], y + 1);
    let north = place(above[1], here, below[1], y);
    let south = place(above[1], here, below[1], y + 2);
    let north_west = place(above[0], left, below[0], y);
    let north_east = place(above[2], right, below[2], y);
    let south_west = place(above[0], left, below[0], y + 2);
    let south_east = place(above[2], right, below[2], y + 2);
    Neighbours {
        h: one(west) + one(east),
        v: one(north) + one(south),
        d: one(north_west) + one(north_east) + (one(south_west) + one(south_east)),
        sh: joined(west, east),
        sv: joined(north, south),
    }
}
