// Blocks of a few points, whose passes are coded one by one.
use crate::KnownPoints;
use arrayvec::ArrayVec;
use budget_duals::Offer;
use rd_hulls::{Point, are_points};

// An offer: passes before and after, gain and bytes of a step; gain and bytes of a bound.
#[derive(Clone, Copy, Debug, PartialEq, Eq)]
enum Says {
    Nothing,
    Step(u8, u8, u128, u32),
    AtMost(u128, u32),
    NoPoints,
}

// Bytes and distortion of each point; the least bytes of more passes, by the passes coded; and the
// offers in turn, where each step is taken and each bound makes one pass more be coded.
type Row<'a> = (&'a [(u32, u128)], &'a [u32], &'a [Says]);

// The first points of a block, those of so many passes and of no passes.
fn first_points(list: &[(u32, u128)], coded: usize) -> ArrayVec<Point, 59> {
    let mut points = ArrayVec::new();
    let mut passes = 0u8;
    for (len, dist) in list.iter().take(coded.saturating_add(1)) {
        let _ = points.try_push(Point {
            len: *len,
            dist: *dist,
            passes,
        });
        passes = passes.saturating_add(1);
    }
    points
}

fn offered(points: &ArrayVec<Point, 59>, low: u32, whole: bool, present: u8) -> Says {
    if !are_points(points) || low == 0 || low > 131_072 || usize::from(present) >= points.len() {
        return Says::NoPoints;
    }
    let known = KnownPoints {
        block: 0,
        points: points.as_slice(),
        low,
        whole,
    };
    match known.offer(present) {
        Offer::Nothing => Says::Nothing,
        Offer::Step(step) => Says::Step(step.from, step.to, step.gain, step.len),
        Offer::AtMost(bound) => Says::AtMost(bound.gain, bound.len),
    }
}

// The excess of a block at its start, and `None` where more passes have to be coded.
fn excess_of(
    list: &[(u32, u128)],
    coded: usize,
    low: u32,
    present: u8,
    multiplier: u128,
) -> Option<u128> {
    let points = first_points(list, coded);
    if !are_points(&points) || low == 0 || low > 131_072 || usize::from(present) >= points.len() {
        return None;
    }
    if multiplier > 0xffff_ffff_ffff_ffff {
        return None;
    }
    let known = KnownPoints {
        block: 0,
        points: points.as_slice(),
        low,
        whole: coded.saturating_add(1) == list.len(),
    };
    known.excess(present, multiplier)
}

#[test]
fn offers_steps_and_bounds(rt: HostRuntime) {
    let rows: [Row; 5] = [
        // A known step only as steep as the bound isn't sure: the farthest point is the corner.
        (
            &[(0, 10), (1, 5), (2, 0)],
            &[1, 2],
            &[
                Says::AtMost(10, 1),
                Says::AtMost(10, 2),
                Says::Step(0, 2, 10, 2),
                Says::Nothing,
            ],
        ),
        // The second corner has fewer bytes than a point of fewer passes.
        (
            &[(0, 4), (2, 1), (1, 2), (3, 0)],
            &[1, 1, 3],
            &[
                Says::AtMost(4, 1),
                Says::AtMost(4, 1),
                Says::Step(0, 2, 2, 1),
                Says::AtMost(2, 2),
                Says::Step(2, 3, 2, 2),
                Says::Nothing,
            ],
        ),
        // With no distortion left the last pass is never coded.
        (
            &[(0, 3), (1, 0), (2, 0)],
            &[1, 2],
            &[
                Says::AtMost(3, 1),
                Says::Step(0, 1, 3, 1),
                Says::Nothing,
                Says::Nothing,
            ],
        ),
        // Two points of the same bytes.
        (
            &[(0, 4), (2, 1), (2, 0)],
            &[1, 2],
            &[
                Says::AtMost(4, 1),
                Says::AtMost(4, 2),
                Says::Step(0, 2, 4, 2),
                Says::Nothing,
            ],
        ),
        // A block of zeros has no pass.
        (&[(0, 0)], &[], &[Says::Nothing]),
    ];
    for (list, lows, offers) in rows {
        let mut coded = 0usize;
        let mut present = 0u8;
        for expected in offers {
            let points = first_points(list, coded);
            let low = match lows.get(coded) {
                Some(low) => *low,
                None => 1,
            };
            let says = offered(&points, low, coded.saturating_add(1) == list.len(), present);
            assert_eq!(rt; says, *expected);
            match says {
                Says::Step(_, to, _, _) => present = to,
                Says::AtMost(..) => coded = coded.saturating_add(1),
                _ => {}
            }
        }
    }
}

#[test]
fn adds_up_what_is_above_a_multiplier(rt: HostRuntime) {
    let unit = 0x1_0000_0000u128;
    let rows: [(&[(u32, u128)], usize, u32, u8, u128, Option<u128>); 9] = [
        (&[(0, 3), (1, 0), (2, 0)], 1, 2, 1, 1, Some(0)),
        (&[(0, 3), (1, 0), (2, 0)], 1, 2, 1, 3 * unit, Some(0)),
        // The third pass has to be known for one multiplier, and not for the next one.
        (&[(0, 1), (3, 1), (3, 0)], 0, 1, 0, 1_431_655_765, None),
        (&[(0, 1), (3, 1), (3, 0)], 1, 3, 0, 1_431_655_765, None),
        (&[(0, 1), (3, 1), (3, 0)], 2, 4, 0, 1_431_655_765, Some(1)),
        (&[(0, 1), (3, 1), (3, 0)], 1, 3, 0, 1_431_655_766, Some(0)),
        (&[(0, 1), (131_069, 0)], 1, 131_070, 0, 32_768, Some(98_304)),
        (
            &[(0, 1), (131_070, 1), (131_070, 0)],
            1,
            131_070,
            0,
            32_768,
            None,
        ),
        (
            &[(0, 1), (131_070, 1), (131_070, 0)],
            2,
            131_071,
            0,
            32_768,
            Some(65_536),
        ),
    ];
    for (list, coded, low, present, multiplier, excess) in rows {
        assert_eq!(rt; excess_of(list, coded, low, present, multiplier), excess);
    }
}
