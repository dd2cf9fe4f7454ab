// Walks over two blocks of a few points, worked by hand.
ghost use Rattle.std.specs.Prelude.{◌≡◌, ◌<◌, IfOk, length};

use crate::bodies::Bodies;
use crate::{ListedPasses, ListedPoints, OnDemand, Passes, are_listed};
use arrayvec::ArrayVec;
use budget_duals::{Holdings, Tree, allocate_over};
use rd_hulls::{Point, Step};
use std::alloc::{AllocError, Global};

// Bytes and distortion of each point, and a bound for each count of coded passes.
type Row<'a> = (&'a [(u32, u128)], &'a [u32]);

// What a walk leaves: the passes of both blocks; block, first and last count of the step that
// closed the budget; the multiplier; the gap; and how many points of each block are known.
type Left = ((u8, u8), Option<(u32, u8, u8)>, u128, u128, (usize, usize));

// The block of a step, and the counts between which it lies.
fn place_of(step: Option<Step>) -> Option<(u32, u8, u8)> {
    match step {
        Some(step) => Some((step.block, step.from, step.to)),
        None => None,
    }
}

fn points_of(list: &[(u32, u128)]) -> ArrayVec<Point, 59> {
    let mut points = ArrayVec::new();
    let mut passes = 0u8;
    for (len, dist) in list {
        let _ = points.try_push(Point {
            len: *len,
            dist: *dist,
            passes,
        });
        passes = passes.saturating_add(1);
    }
    points
}

fn bounds_of(list: &[u32]) -> ArrayVec<u32, 59> {
    let mut bounds = ArrayVec::new();
    for least in list {
        let _ = bounds.try_push(*least);
    }
    bounds
}

fn bytes_of(list: &[(u32, u128)]) -> [u32; 4] {
    let mut bytes = [0; 4];
    for (place, point) in list.iter().enumerate().take(4) {
        bytes[place] = point.0;
    }
    bytes
}

// A block of these points, of which the first or all are known.
fn block_of(row: Row, whole: bool) -> Option<ListedPoints> {
    let points = points_of(row.0);
    let bounds = bounds_of(row.1);
    if !are_listed(&points, &bounds) {
        return None;
    }
    let coded = if whole { points.len() as u8 - 1 } else { 0 };
    Some(ListedPoints::new(points, bounds, coded))
}

fn two_blocks(
    alloc: Global,
    first: ListedPoints,
    second: ListedPoints,
) -> Result<ListedPasses, AllocError>
    ensures { IfOk result (λ p. length p.blocks.items ≡ 2) }
{
    let mut blocks = Vec::new(alloc);
    blocks.push(first)?;
    blocks.push(second)?;
    Ok(ListedPasses::new(blocks))
}

// Walks over two blocks, whose bytes at each count stand beside them.
fn walk_over(
    alloc: Global,
    passes: ListedPasses,
    bytes: ([u32; 4], [u32; 4]),
    limit: u32,
) -> Result<Option<Left>, AllocError>
    requires two { length passes.blocks.items ≡ 2 }
    requires low { limit < 33554432 }
{
    let (first_bytes, second_bytes) = bytes;
    let mut offers = OnDemand::new(alloc, passes)?;
    let mut held = Bodies {
        first_bytes,
        second_bytes,
        first: 0,
        second: 0,
    };
    if held.held_now(0) > limit {
        return Ok(None);
    }
    let around: [&[u32]; 1] = [&[]];
    let tree = Tree {
        around: &around,
        limits: &[limit],
    };
    let duals = allocate_over(alloc, &tree, &mut offers, &mut held)?;
    let known = (
        offers.passes().points(0).len(),
        offers.passes().points(1).len(),
    );
    let closed = place_of(duals.closed[0]);
    Ok(Some((
        (held.first, held.second),
        closed,
        duals.multipliers[0],
        duals.gap,
        known,
    )))
}

// Walks over blocks of such points.
fn walk(
    alloc: Global,
    first: Row,
    second: Row,
    limit: u32,
    whole: bool,
) -> Result<Option<Left>, AllocError> {
    let bytes = (bytes_of(first.0), bytes_of(second.0));
    match (block_of(first, whole), block_of(second, whole)) {
        (Some(one), Some(two)) => {
            let passes = two_blocks(alloc, one, two)?;
            walk_over(alloc, passes, bytes, limit.min(1_000_000))
        }
        _ => Ok(None),
    }
}

#[test]
#[rattlefmt::skip]
fn walks_as_over_whole_hulls(rt: HostRuntime) -> Result<(), AllocError> {
    let unit = 0x1_0000_0000u128;
    let zeros: Row = (&[(0, 0)], &[1]);
    let rows: [(Row, Row, u32, Left); 6] = [
        // A known step only as steep as the bound isn't the hull's: the farther point is a corner.
        ((&[(0, 10), (1, 5), (2, 0)], &[1, 2, 3]), zeros, 1,
            ((0, 0), Some((0, 0, 2)), 5 * unit, 5, (3, 1))),
        // The second corner has fewer bytes than a point of fewer passes.
        ((&[(0, 4), (2, 1), (1, 2), (3, 0)], &[1, 1, 3, 4]), zeros, 2,
            ((2, 0), Some((0, 2, 3)), unit, 1, (4, 1))),
        // With no distortion left no further pass is coded.
        ((&[(0, 3), (1, 0), (2, 0)], &[1, 2, 3]), zeros, 1, ((1, 0), None, 0, 0, (2, 1))),
        // The gap wants the last pass of the second block, which the walk never looked at.
        ((&[(0, 1), (131_069, 0)], &[1, 131_070]),
            (&[(0, 1), (131_070, 1), (131_070, 0)], &[1, 131_070, 131_071]), 131_068,
            ((0, 0), Some((0, 0, 1)), 32_768, 2, (2, 3))),
        // Of equal slopes a bound comes before a step, so that blocks stay in their order.
        ((&[(0, 1), (1, 0)], &[1, 2]), (&[(0, 2), (2, 0)], &[1, 3]), 2,
            ((1, 0), Some((1, 0, 1)), unit, 1, (2, 2))),
        // The second block's points have the same bytes, and the later one is its corner.
        ((&[(0, 3), (3, 0)], &[1, 4]), (&[(0, 3), (2, 3), (2, 0)], &[1, 2, 3]), 2,
            ((0, 2), Some((0, 0, 1)), unit, 0, (2, 3))),
    ];
    for (first, second, limit, left) in rows {
        assert_eq!(rt; walk(rt.alloc(), first, second, limit, false)?, Some(left));
        // With all passes coded the walk leaves the same.
        let (passes, closed, multiplier, gap, _) = left;
        let known = (first.0.len(), second.0.len());
        let whole = Some((passes, closed, multiplier, gap, known));
        assert_eq!(rt; walk(rt.alloc(), first, second, limit, true)?, whole);
    }
    Ok(())
}

#[test]
fn refuses_what_are_no_points_of_all_passes(rt: HostRuntime) -> Result<(), AllocError> {
    let zeros: Row = (&[(0, 0)], &[1]);
    let rows: [Row; 7] = [
        (&[], &[]),
        (&[(0, 1)], &[1]),
        (&[(0, 1), (2, 0)], &[1]),
        (&[(0, 1), (2, 0)], &[3, 1]),
        (&[(0, 1), (2, 0)], &[0, 1]),
        (&[(0, 1), (2, 0)], &[1, 131_073]),
        (&[(1, 1), (2, 0)], &[1, 1]),
    ];
    for row in rows {
        assert_eq!(rt; walk(rt.alloc(), row, zeros, 9, false)?, None);
    }
    let highest: Row = (&[(0, 1), (2, 0)], &[2, 131_072]);
    assert!(rt; walk(rt.alloc(), highest, zeros, 9, false)?.is_some());
    Ok(())
}
