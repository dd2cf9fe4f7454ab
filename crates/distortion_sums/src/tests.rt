use super::*;

// The index 64 of 7 planes: it becomes significant in plane 6, and is refined in each plane below;
// its bit is 0 there, so its offsets are all ones.
#[test]
fn distortions_of_an_index_of_seven_planes(rt: HostRuntime) {
    assert_eq!(rt; undecoded_error(64), 16641);
    assert_eq!(rt; with_new(16641, 64, 6), 3969);
    assert_eq!(rt; with_refined(3969, 64, 5), 961);
    assert_eq!(rt; with_refined(961, 64, 4), 225);
    assert_eq!(rt; with_refined(225, 64, 3), 49);
    assert_eq!(rt; with_refined(49, 64, 2), 9);
    assert_eq!(rt; with_refined(9, 64, 1), 1);
    assert_eq!(rt; with_refined(1, 64, 0), 0);
}
