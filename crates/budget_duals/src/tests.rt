// What worked codestreams hold in their budgets.
use crate::{Held, Limits, Members};
use cine_nums::{Budget, Profile};

#[test]
fn holds_what_it_should(rt: HostRuntime) {
    // The empty codestreams of a frame of one sample, of 2K and of 4K.
    let small = Held::of(Profile::TwoK, 129, &[20, 20, 20]);
    let empty = Held::of(Profile::FourK, 169, &[20, 20, 20, 15, 15, 15]);
    for (budget, two_k, four_k) in [
        (Budget::Frame, 191, 276),
        (Budget::Inner, 0, 231),
        (Budget::C0, 20, 20),
        (Budget::C1, 20, 20),
        (Budget::C2, 20, 20),
    ] {
        assert_eq!(rt; small.bytes(budget), two_k);
        assert_eq!(rt; empty.bytes(budget), four_k);
    }
}

#[test]
fn finds_the_outermost_broken_budget(rt: HostRuntime) {
    // The empty codestream of a 4K frame of one sample.
    let empty = Held::of(Profile::FourK, 169, &[20, 20, 20, 15, 15, 15]);
    let limits = Limits::of(Profile::FourK);
    assert_eq!(rt; limits.broken(&empty), None);
    for (frame, inner, component, broken) in [
        (276, Some(231), 20, None),
        (275, Some(230), 19, Some(Budget::Frame)),
        (276, Some(230), 19, Some(Budget::Inner)),
        (276, Some(231), 19, Some(Budget::C0)),
        (276, None, 20, None),
    ] {
        let limits = Limits {
            frame,
            inner,
            component: [component, 20, 20],
        };
        assert_eq!(rt; limits.broken(&empty), broken);
    }
    assert_eq!(rt; Limits::of(Profile::TwoK).inner, None);
}

#[test]
fn knows_the_budgets_of_blocks(rt: HostRuntime) {
    for (profile, res, inner, component) in [
        (Profile::TwoK, 5, false, Some(1)),
        (Profile::FourK, 5, true, Some(1)),
        (Profile::FourK, 6, false, None),
    ] {
        let members = Members::of(profile, profile.levels(), 1, res);
        assert_eq!(rt; members, Members { inner, component });
        assert!(rt; members.has(Budget::Frame) && !members.has(Budget::C0));
        assert_eq!(rt; members.has(Budget::C1), component.is_some());
    }
}
