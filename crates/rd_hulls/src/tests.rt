// Hulls of worked examples.
use crate::{Point, are_points, hull};
use arrayvec::ArrayVec;

// Bytes and distortion of each point; then passes before and after, bytes and gain of each step.
type Row<'a> = (&'a [(u32, u128)], &'a [(u8, u8, u32, u128)]);

fn points_of(list: &[(u32, u128)]) -> ArrayVec<Point, 59> {
    let mut points = ArrayVec::new();
    let mut passes = 0u8;
    for (len, dist) in list {
        let _ = points.try_push(Point {
            len: *len,
            dist: *dist,
            passes,
        });
        passes = passes.saturating_add(1);
    }
    points
}

#[test]
fn finds_corners(rt: HostRuntime) {
    let rows: [Row; 7] = [
        // On the line from the second point to the fourth lies the third one.
        (
            &[(0, 100), (10, 60), (20, 50), (30, 0)],
            &[(0, 1, 10, 40), (1, 3, 20, 60)],
        ),
        // The last corner has fewer passes than the one before it.
        (
            &[(0, 100), (3, 10), (2, 20)],
            &[(0, 2, 2, 80), (2, 1, 1, 10)],
        ),
        // Of equal slopes the longest one.
        (&[(0, 10), (1, 5), (2, 0)], &[(0, 2, 2, 10)]),
        (
            &[(0, 4), (2, 1), (1, 2), (3, 0)],
            &[(0, 2, 1, 2), (2, 3, 2, 2)],
        ),
        // Of equal points the one of fewest passes.
        (&[(0, 9), (4, 0), (4, 0)], &[(0, 1, 4, 9)]),
        // Nothing to gain.
        (&[(0, 7), (1, 7), (2, 8)], &[]),
        (&[(0, 0)], &[]),
    ];
    for (list, steps) in rows {
        let points = points_of(list);
        assert!(rt; are_points(&points));
        let found = hull(7, &points);
        assert_eq!(rt; found.len(), steps.len());
        for (step, (from, to, len, gain)) in found.as_slice().iter().zip(steps.iter()) {
            assert_eq!(rt; (step.block, step.from, step.to), (7, *from, *to));
            assert_eq!(rt; (step.len, step.gain), (*len, *gain));
        }
    }
}

#[test]
fn has_room_for_58_steps(rt: HostRuntime) {
    let mut points = ArrayVec::new();
    for passes in 0..59u8 {
        let left = 58 - passes;
        let _ = points.try_push(Point {
            len: u32::from(passes),
            dist: u128::from(left) * u128::from(left),
            passes,
        });
    }
    assert!(rt; are_points(&points));
    let steps = hull(0, &points);
    assert_eq!(rt; steps.len(), 58);
    for (step, from) in steps.as_slice().iter().zip(0..58u8) {
        let gain = 115u128.saturating_sub(2 * u128::from(from));
        assert_eq!(rt;
            (step.from, step.to, step.len, step.gain),
            (from, from.saturating_add(1), 1, gain)
        );
    }
}

#[test]
fn knows_what_no_points_are(rt: HostRuntime) {
    let rows: [&[(u32, u128)]; 6] = [
        &[],
        &[(1, 5)],
        &[(0, 5), (0, 4)],
        &[(0, 5), (131_073, 4)],
        &[(0, 0x1_0000_0000_0000_0000)],
        &[(0, 5), (1, 0x1_0000_0000_0000_0000)],
    ];
    for list in rows {
        assert!(rt; !are_points(&points_of(list)));
    }
    let mut points = points_of(&[(0, 5)]);
    let _ = points.try_push(Point {
        len: 1,
        dist: 0,
        passes: 2,
    });
    assert!(rt; !are_points(&points));
}
