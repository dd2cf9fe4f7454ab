use super::*;
use cine_nums::Orient;

// the row and column counts of a place in the first row: one significant place to its left, and one
// above that
#[test]
fn neighbours_of_a_place(rt: HostRuntime) {
    let around = near(1, 0, 0, [8, 0, 0], [0, 0, 0], 0);
    let expected = Neighbours {
        h: 1,
        v: 0,
        d: 1,
        sh: 1,
        sv: 0,
    };
    assert_eq!(rt; around, expected);
    assert_eq!(rt; significance(Orient::LL, around.h, around.v, around.d), 6);
    assert_eq!(rt; sign(around.sh, around.sv), (12, false));
    assert_eq!(rt; refinement(true, true), 15);
}

// negative places above and below, in a last row
#[test]
fn neighbours_in_the_next_stripe(rt: HostRuntime) {
    let around = near(0, 0x44, 0, [0, 0, 0], [0, 0x11, 1], 3);
    let expected = Neighbours {
        h: 0,
        v: 2,
        d: 1,
        sh: 0,
        sv: -1,
    };
    assert_eq!(rt; around, expected);
}
