// The transform of the columns of a plane. Each step goes row by row, in the order of memory.
ghost use Rattle.std.specs.Prelude.{◌≡◌, ◌≢◌, ℕ, ◌<◌, ◌≤◌, ◌*◌, ◌+◌, ◌-◌, ℤ, List, ◌++◌, length};
ghost use Rattle.std.specs.Prelude.{All};
ghost use Rattle.cine_nums.specs.Fixed.{Within30};
ghost use Rattle.lift97_fixed.specs.Line.{at, lifted, scaled, lift, scale, split, source_of};
ghost use Rattle.lift97_fixed.specs.Line.{line_transform, IsParameter, IsScaling};
ghost use Rattle.lift97_fixed.specs.Plane.{cell, columns};

use crate::line::{left_of, right_of};
use crate::steps::{ALPHA, BETA, DELTA, GAMMA, INVERSE_K, K, lifted, scaled};

/// The lifting step with parameter `c` of the cells of a row, from the rows above and below it.
#[inline(always)]
fn lift_between(line: &mut [i32], above: &[i32], below: &[i32], c: i32)
    requires parameter { IsParameter c }
    requires above_count { length above.now ≡ length line.old }
    requires below_count { length below.now ≡ length line.old }
    requires line { All Within30 line.old }
    requires above { All Within30 above.now }
    requires below { All Within30 below.now }
    ensures value { (x : ℕ) → x < length line.old →
        at line.new x ≡ lifted c (at line.old x) (at above.now x) (at below.now x) }
    ensures within { All Within30 line.new }
{
    for x in 0..line.len() {
        line[x] = lifted(c, line[x], above[x], below[x]);
    }
}

/// The same, with a loop of its own for each parameter.
// It isn't inlined, since the compiler makes vectors of a loop with a constant parameter over
// slices that it doesn't know to be parts of one.
#[inline(never)]
fn lift_line(line: &mut [i32], above: &[i32], below: &[i32], c: i32)
    requires parameter { IsParameter c }
    requires above_count { length above.now ≡ length line.old }
    requires below_count { length below.now ≡ length line.old }
    requires line { All Within30 line.old }
    requires above { All Within30 above.now }
    requires below { All Within30 below.now }
    ensures value { (x : ℕ) → x < length line.old →
        at line.new x ≡ lifted c (at line.old x) (at above.now x) (at below.now x) }
    ensures within { All Within30 line.new }
{
    if c == ALPHA {
        lift_between(line, above, below, ALPHA);
    } else if c == BETA {
        lift_between(line, above, below, BETA);
    } else if c == GAMMA {
        lift_between(line, above, below, GAMMA);
    } else {
        lift_between(line, above, below, DELTA);
    }
}

/// The first `width` cells of row `row` of a plane, `before` having its rows before row `y` and
/// `after` those after it.
#[inline(always)]
fn row_beside<'a>(
    before: &'a [i32],
    after: &'a [i32],
    stride: usize,
    width: usize,
    y: usize,
    row: usize,
) -> &'a [i32]
    requires width { width ≤ stride }
    requires count { length before.now ≡ y * stride }
    requires other { row ≢ y }
    requires there { y < row → (row - y - 1) * stride + stride ≤ length after.now }
    ensures count { length result.now ≡ width }
    ensures cells { (line : List ℤ) (x : ℕ) → length line ≡ stride → x < width →
        at result.now x ≡ cell stride (before.now ++ (line ++ after.now)) x row }
{
    if row < y {
        let from = row * stride;
        &before[from..from + width]
    } else {
        let from = (row - y - 1) * stride;
        &after[from..from + width]
    }
}

/// The lifting step with parameter `c` of the first `width` cells of row `y`, from the rows `above`
/// and `below`. A row has `stride` cells.
fn lift_row(
    cells: &mut [i32],
    stride: usize,
    width: usize,
    y: usize,
    above: usize,
    below: usize,
    c: i32,
)
    requires parameter { IsParameter c }
    requires width { width ≤ stride }
    requires here { y * stride + stride ≤ length cells.old }
    requires above { above * stride + stride ≤ length cells.old × above ≢ y }
    requires below { below * stride + stride ≤ length cells.old × below ≢ y }
    requires cells { All Within30 cells.old }
    ensures done { (x : ℕ) → x < width →
        cell stride cells.new x y ≡ lifted c (cell stride cells.old x y)
        (cell stride cells.old x above) (cell stride cells.old x below) }
    ensures kept { (x row : ℕ) → x < stride → (row ≡ y → width ≤ x) →
        cell stride cells.new x row ≡ cell stride cells.old x row }
    ensures within { All Within30 cells.new }
{
    let (before, rest) = cells.split_at_mut(y * stride);
    let (here, after) = rest.split_at_mut(stride);
    let above = row_beside(before, after, stride, width, y, above);
    let below = row_beside(before, after, stride, width, y, below);
    lift_line(&mut here[..width], above, below, c);
}

/// The lifting step with parameter `c` along the first `width` columns of `height` rows, at the odd
/// rows (`first` is 1) or at the even ones (0).
fn lift_rows(cells: &mut [i32], stride: usize, width: usize, height: usize, first: usize, c: i32)
    requires parameter { IsParameter c }
    requires parity { first < 2 }
    requires width { 1 ≤ stride × width ≤ stride }
    requires height { 2 ≤ height × height * stride ≤ length cells.old }
    requires cells { All Within30 cells.old }
    ensures value { cells.new ≡ columns (lift c first) stride width height cells.old }
    ensures within { All Within30 cells.new }
{
    for k in 0..(height + 1 - first) / 2 {
        let y = 2 * k + first;
        lift_row(cells, stride, width, y, left_of(y), right_of(height, y), c);
    }
}

/// The scaling by `c` of the first `width` cells of row `y`.
#[inline(always)]
fn scale_cells(cells: &mut [i32], stride: usize, width: usize, y: usize, c: i32)
    requires factor { IsScaling c }
    requires width { width ≤ stride }
    requires here { y * stride + stride ≤ length cells.old }
    requires cells { All Within30 cells.old }
    ensures done { (x : ℕ) → x < width →
        cell stride cells.new x y ≡ scaled c (cell stride cells.old x y) }
    ensures kept { (x row : ℕ) → x < stride → (row ≡ y → width ≤ x) →
        cell stride cells.new x row ≡ cell stride cells.old x row }
    ensures within { All Within30 cells.new }
{
    for x in 0..width {
        cells[y * stride + x] = scaled(c, cells[y * stride + x]);
    }
}

/// The same, with a loop of its own for each factor.
#[inline(never)]
fn scale_row(cells: &mut [i32], stride: usize, width: usize, y: usize, c: i32)
    requires factor { IsScaling c }
    requires width { width ≤ stride }
    requires here { y * stride + stride ≤ length cells.old }
    requires cells { All Within30 cells.old }
    ensures done { (x : ℕ) → x < width →
        cell stride cells.new x y ≡ scaled c (cell stride cells.old x y) }
    ensures kept { (x row : ℕ) → x < stride → (row ≡ y → width ≤ x) →
        cell stride cells.new x row ≡ cell stride cells.old x row }
    ensures within { All Within30 cells.new }
{
    if c == K {
        scale_cells(cells, stride, width, y, K);
    } else {
        scale_cells(cells, stride, width, y, INVERSE_K);
    }
}

/// The scaling by `c` along the first `width` columns of `height` rows, at the odd rows (`first` is
/// 1) or at the even ones (0).
fn scale_rows(cells: &mut [i32], stride: usize, width: usize, height: usize, first: usize, c: i32)
    requires factor { IsScaling c }
    requires parity { first < 2 }
    requires width { 1 ≤ stride × width ≤ stride }
    requires height { height * stride ≤ length cells.old }
    requires cells { All Within30 cells.old }
    ensures value { cells.new ≡ columns (scale c first) stride width height cells.old }
    ensures within { All Within30 cells.new }
{
    for k in 0..(height + 1 - first) / 2 {
        scale_row(cells, stride, width, 2 * k + first, c);
    }
}

/// Exchanges the first `width` cells of the rows `y` and `other`, which may be one row.
#[inline(never)]
fn swap_rows(cells: &mut [i32], stride: usize, width: usize, y: usize, other: usize)
    requires width { width ≤ stride }
    requires here { y * stride + stride ≤ length cells.old }
    requires there { other * stride + stride ≤ length cells.old }
    requires cells { All Within30 cells.old }
    ensures here { (x : ℕ) → x < width → cell stride cells.new x y ≡ cell stride cells.old x other }
    ensures there { (x : ℕ) → x < width →
        cell stride cells.new x other ≡ cell stride cells.old x y }
    ensures kept { (x row : ℕ) → x < stride → (row ≡ y → width ≤ x) → (row ≡ other → width ≤ x) →
        cell stride cells.new x row ≡ cell stride cells.old x row }
    ensures within { All Within30 cells.new }
{
    if y == other {
        return;
    }
    for x in 0..width {
        let moved = cells[y * stride + x];
        cells[y * stride + x] = cells[other * stride + x];
        cells[other * stride + x] = moved;
    }
}

/// The place of the sample that the split of `n` samples puts at place `j`.
#[inline]
fn source_of(n: usize, j: usize) -> usize
    requires { j < n }
    ensures { result ≡ source_of n j }
{
    let low = n - n / 2;
    if j < low { 2 * j } else { 2 * (j - low) + 1 }
}

/// Puts the even rows of the first `height` ones before the odd ones, over the first `width`
/// columns, by exchanges: `held[p]` is the number that the row at place `p` had at first, and
/// `placed[r]` the place of the row that was number `r`.
fn split_rows(
    cells: &mut [i32],
    stride: usize,
    width: usize,
    height: usize,
    held: &mut [i32],
    placed: &mut [i32],
)
    requires width { 1 ≤ stride × width ≤ stride }
    requires height { height ≤ 4096 × height * stride ≤ length cells.old }
    requires held { height ≤ length held.old }
    requires placed { height ≤ length placed.old }
    requires cells { All Within30 cells.old }
    ensures value { cells.new ≡ columns split stride width height cells.old }
    ensures within { All Within30 cells.new }
{
    for y in 0..height {
        held[y] = y as i32;
        placed[y] = y as i32;
    }
    for y in 0..height {
        let wanted = source_of(height, y);
        let from = placed[wanted] as usize;
        let here = held[y] as usize;
        swap_rows(cells, stride, width, y, from);
        held[from] = here as i32;
        held[y] = wanted as i32;
        placed[here] = from as i32;
        placed[wanted] = y as i32;
    }
}

/// The transform of a line along the first `width` columns of `height` rows. A row has `stride`
/// cells, and `scratch` at least twice as many as there are rows; it may hold anything afterwards.
pub fn transform_columns(
    cells: &mut [i32],
    stride: usize,
    width: usize,
    height: usize,
    scratch: &mut [i32],
)
    requires width { 1 ≤ stride × width ≤ stride }
    requires height { height ≤ 4096 × height * stride ≤ length cells.old }
    requires scratch { 2 * height ≤ length scratch.old }
    requires cells { All Within30 cells.old }
    ensures value { cells.new ≡ columns line_transform stride width height cells.old }
    ensures within { All Within30 cells.new }
{
    if height < 2 {
        return;
    }
    lift_rows(cells, stride, width, height, 1, ALPHA);
    lift_rows(cells, stride, width, height, 0, BETA);
    lift_rows(cells, stride, width, height, 1, GAMMA);
    lift_rows(cells, stride, width, height, 0, DELTA);
    scale_rows(cells, stride, width, height, 1, K);
    scale_rows(cells, stride, width, height, 0, INVERSE_K);
    let (held, placed) = scratch.split_at_mut(height);
    split_rows(cells, stride, width, height, held, placed);
}
