// Allocations worked by hand, and rows of worked examples.
ghost use Rattle.std.specs.Prelude.{ℕ, ◌≡◌, ◌<◌, ◌∷◌, [], true, length, slice_index_or};
ghost use Rattle.std.specs.List.{AllByRecursion};
ghost use Rattle.budget_duals.specs.Listed.{steps_of};
ghost use Rattle.budget_duals.specs.TwoBlocks.{two_fits, two_held};

use crate::shy::Shy;
use crate::two_blocks::TwoBlocks;
use crate::{
    AllocateRefusal, Certificate, Held, Limits, ListedOffers, Members, RefusedStep, Slope,
    allocate, allocate_offers,
};
use cine_nums::Budget;
use rd_hulls::Step;
use std::alloc::Global;

// Allocates over two blocks that are in such budgets and have such bytes at their counts, headers
// included; `base` is what the budgets hold beside them.
fn allocate_two(
    alloc: Global,
    limits: &Limits,
    base: Held,
    inside: (Members, Members),
    bytes: ([u32; 4], [u32; 4]),
    start: u128,
    steps: &[Step],
) -> Result<Certificate, AllocateRefusal>
    requires blocks { AllByRecursion (λ s. s.block < 2) steps.now }
    requires fits { two_fits limits.now
        (two_held base inside.0 inside.1 bytes.0 bytes.1 (0 ∷ 0 ∷ [])).inner
        inside.0 inside.1 (steps_of 0 steps.now) (steps_of 1 steps.now) start ≡ true }
{
    let first_bytes = bytes.0;
    let second_bytes = bytes.1;
    let mut price = TwoBlocks {
        base,
        first_inside: inside.0,
        second_inside: inside.1,
        first_bytes,
        second_bytes,
        first: 0,
        second: 0,
    };
    match Vec::from_slice(alloc, steps) {
        Ok(steps) => allocate(alloc, start, steps, limits, &mut price),
        Err(_) => Err(AllocateRefusal::Memory),
    }
}

// The same where the first block offers a bound before its first step.
fn allocate_shy(
    alloc: Global,
    limits: &Limits,
    base: Held,
    inside: (Members, Members),
    bytes: ([u32; 4], [u32; 4]),
    start: u128,
    steps: &[Step],
) -> Result<Certificate, AllocateRefusal>
    requires blocks { AllByRecursion (λ s. s.block < 2) steps.now }
    requires few { length steps.now < 100 }
    requires fits { two_fits limits.now
        (two_held base inside.0 inside.1 bytes.0 bytes.1 (0 ∷ 0 ∷ [])).inner
        inside.0 inside.1 (steps_of 0 steps.now) (steps_of 1 steps.now) start ≡ true }
{
    let first_bytes = bytes.0;
    let second_bytes = bytes.1;
    let mut price = TwoBlocks {
        base,
        first_inside: inside.0,
        second_inside: inside.1,
        first_bytes,
        second_bytes,
        first: 0,
        second: 0,
    };
    match ListedOffers::of_list(alloc, 2, steps) {
        Ok(inner) => {
            let top = Slope {
                gain: 18_446_744_073_709_551_615,
                len: 1,
            };
            let mut offers = Shy {
                inner,
                top,
                shy: true,
            };
            allocate_offers(alloc, start, &mut offers, limits, &mut price)
        }
        Err(_) => Err(AllocateRefusal::Memory),
    }
}

// Whether an allocation has such a certificate.
fn says(
    found: Result<Certificate, AllocateRefusal>,
    multipliers: [u128; 5],
    gap: u128,
    distortion: u128,
    refused: &[RefusedStep],
) -> bool {
    match found {
        Ok(certificate) => {
            certificate.multipliers == multipliers
                && certificate.gap == gap
                && certificate.distortion == distortion
                && certificate.refused.as_slice() == refused
        }
        Err(_) => false,
    }
}

// Whether an allocation is refused so.
fn refuses(found: Result<Certificate, AllocateRefusal>, refusal: AllocateRefusal) -> bool {
    match found {
        Ok(_) => false,
        Err(reason) => reason == refusal,
    }
}

#[test]
#[rattlefmt::skip]
fn leaves_what_does_not_fit(rt: HostRuntime) {
    // Of two steps of equal slope that of the lower block is taken.
    let found = allocate_two(
        rt.alloc(),
        &Limits { frame: 15, inner: None, component: [1_000_000, 1_000_000, 1_000_000] },
        Held { frame: 0, inner: 0, component: [0, 0, 0] },
        (
            Members { inner: false, component: Some(0) },
            Members { inner: false, component: Some(0) },
        ),
        ([0, 10, 0, 0], [0, 10, 0, 0]),
        200,
        &[
            Step { block: 0, from: 0, to: 1, len: 10, gain: 100 },
            Step { block: 1, from: 0, to: 1, len: 10, gain: 100 },
        ],
    );
    let refused = [
        RefusedStep {
            budget: Budget::Frame,
            step: Step { block: 1, from: 0, to: 1, len: 10, gain: 100 },
            grow: 0,
            price: 100,
        },
    ];
    let multipliers = [42_949_672_960, 0, 0, 0, 0];
    assert!(rt; says(found, multipliers, 50, 100, &refused));
}

#[test]
#[rattlefmt::skip]
fn counts_headers(rt: HostRuntime) {
    // A step of one byte, whose packet header grows by three, with three bytes to spare.
    let found = allocate_two(
        rt.alloc(),
        &Limits { frame: 194, inner: None, component: [1_041_666, 1_041_666, 1_041_666] },
        Held { frame: 191, inner: 0, component: [20, 20, 20] },
        (
            Members { inner: false, component: Some(0) },
            Members { inner: false, component: Some(0) },
        ),
        ([0, 4, 0, 0], [0; 4]),
        16641,
        &[
            Step { block: 0, from: 0, to: 1, len: 1, gain: 16641 },
        ],
    );
    let refused = [
        RefusedStep {
            budget: Budget::Frame,
            step: Step { block: 0, from: 0, to: 1, len: 1, gain: 16641 },
            grow: 3,
            price: 66564,
        },
    ];
    let multipliers = [71_472_550_772_736, 0, 0, 0, 0];
    assert!(rt; says(found, multipliers, 49923, 16641, &refused));
    // It fits with one byte more.
    let found = allocate_two(
        rt.alloc(),
        &Limits { frame: 195, inner: None, component: [1_041_666, 1_041_666, 1_041_666] },
        Held { frame: 191, inner: 0, component: [20, 20, 20] },
        (
            Members { inner: false, component: Some(0) },
            Members { inner: false, component: Some(0) },
        ),
        ([0, 4, 0, 0], [0; 4]),
        16641,
        &[
            Step { block: 0, from: 0, to: 1, len: 1, gain: 16641 },
        ],
    );
    assert!(rt; says(found, [0; 5], 0, 0, &[]));
    // A header that shrinks by two bytes: nothing grows.
    let found = allocate_two(
        rt.alloc(),
        &Limits { frame: 2, inner: None, component: [1_000_000, 1_000_000, 1_000_000] },
        Held { frame: 0, inner: 0, component: [0, 0, 0] },
        (
            Members { inner: false, component: Some(0) },
            Members { inner: false, component: Some(0) },
        ),
        ([0, 3, 0, 0], [0; 4]),
        10,
        &[
            Step { block: 0, from: 0, to: 1, len: 5, gain: 10 },
        ],
    );
    let refused = [
        RefusedStep {
            budget: Budget::Frame,
            step: Step { block: 0, from: 0, to: 1, len: 5, gain: 10 },
            grow: 0,
            price: 10,
        },
    ];
    let multipliers = [8_589_934_592, 0, 0, 0, 0];
    assert!(rt; says(found, multipliers, 4, 10, &refused));
}

#[test]
#[rattlefmt::skip]
fn refuses_limits_that_are_too_small(rt: HostRuntime) {
    let found = allocate_two(
        rt.alloc(),
        &Limits { frame: 190, inner: None, component: [19, 20, 20] },
        Held { frame: 191, inner: 0, component: [20, 20, 20] },
        (
            Members { inner: false, component: Some(0) },
            Members { inner: false, component: Some(0) },
        ),
        ([0, 4, 0, 0], [0; 4]),
        16641,
        &[
            Step { block: 0, from: 0, to: 1, len: 1, gain: 16641 },
        ],
    );
    let refusal = AllocateRefusal::LimitTooSmall(Budget::Frame, 191);
    assert!(rt; refuses(found, refusal));
    let found = allocate_two(
        rt.alloc(),
        &Limits { frame: 191, inner: None, component: [20, 19, 19] },
        Held { frame: 191, inner: 0, component: [20, 20, 20] },
        (
            Members { inner: false, component: Some(0) },
            Members { inner: false, component: Some(0) },
        ),
        ([0, 4, 0, 0], [0; 4]),
        16641,
        &[
            Step { block: 0, from: 0, to: 1, len: 1, gain: 16641 },
        ],
    );
    let refusal = AllocateRefusal::LimitTooSmall(Budget::C1, 20);
    assert!(rt; refuses(found, refusal));
    let found = allocate_two(
        rt.alloc(),
        &Limits { frame: 276, inner: Some(230), component: [19, 20, 20] },
        Held { frame: 276, inner: 231, component: [20, 20, 20] },
        (
            Members { inner: true, component: Some(0) },
            Members { inner: false, component: None },
        ),
        ([0, 4, 0, 0], [0; 4]),
        16641,
        &[
            Step { block: 0, from: 0, to: 1, len: 1, gain: 16641 },
        ],
    );
    let refusal = AllocateRefusal::LimitTooSmall(Budget::Inner, 231);
    assert!(rt; refuses(found, refusal));
}

#[test]
#[rattlefmt::skip]
fn goes_by_slopes(rt: HostRuntime) {
    // One step is left, and its price bounds the gap.
    let found = allocate_two(
        rt.alloc(),
        &Limits { frame: 1, inner: None, component: [1_000_000, 1_000_000, 1_000_000] },
        Held { frame: 0, inner: 0, component: [0, 0, 0] },
        (
            Members { inner: false, component: Some(0) },
            Members { inner: false, component: Some(0) },
        ),
        ([0, 1, 2, 0], [0; 4]),
        10,
        &[
            Step { block: 0, from: 0, to: 2, len: 2, gain: 10 },
        ],
    );
    let refused = [
        RefusedStep {
            budget: Budget::Frame,
            step: Step { block: 0, from: 0, to: 2, len: 2, gain: 10 },
            grow: 0,
            price: 10,
        },
    ];
    let multipliers = [21_474_836_480, 0, 0, 0, 0];
    assert!(rt; says(found, multipliers, 5, 10, &refused));
    // Two passes end before one pass does.
    let found = allocate_two(
        rt.alloc(),
        &Limits { frame: 2, inner: None, component: [1_000_000, 1_000_000, 1_000_000] },
        Held { frame: 0, inner: 0, component: [0, 0, 0] },
        (
            Members { inner: false, component: Some(0) },
            Members { inner: false, component: Some(0) },
        ),
        ([0, 2, 1, 3], [0; 4]),
        4,
        &[
            Step { block: 0, from: 0, to: 2, len: 1, gain: 2 },
            Step { block: 0, from: 2, to: 3, len: 2, gain: 2 },
        ],
    );
    let refused = [
        RefusedStep {
            budget: Budget::Frame,
            step: Step { block: 0, from: 2, to: 3, len: 2, gain: 2 },
            grow: 0,
            price: 2,
        },
    ];
    let multipliers = [4_294_967_296, 0, 0, 0, 0];
    assert!(rt; says(found, multipliers, 1, 2, &refused));
    // The gap is one above the price, since multipliers are rounded down.
    let found = allocate_two(
        rt.alloc(),
        &Limits { frame: 131_068, inner: None, component: [1_000_000, 1_000_000, 1_000_000] },
        Held { frame: 0, inner: 0, component: [0, 0, 0] },
        (
            Members { inner: false, component: Some(0) },
            Members { inner: false, component: Some(0) },
        ),
        ([0, 131_069, 0, 0], [0, 131_070, 131_070, 0]),
        2,
        &[
            Step { block: 0, from: 0, to: 1, len: 131_069, gain: 1 },
            Step { block: 1, from: 0, to: 2, len: 131_070, gain: 1 },
        ],
    );
    let refused = [
        RefusedStep {
            budget: Budget::Frame,
            step: Step { block: 0, from: 0, to: 1, len: 131_069, gain: 1 },
            grow: 0,
            price: 1,
        },
    ];
    let multipliers = [32768, 0, 0, 0, 0];
    assert!(rt; says(found, multipliers, 2, 2, &refused));
}

#[test]
#[rattlefmt::skip]
fn takes_equal_slopes_by_block(rt: HostRuntime) {
    let found = allocate_two(
        rt.alloc(),
        &Limits { frame: 2, inner: None, component: [1_000_000, 1_000_000, 1_000_000] },
        Held { frame: 0, inner: 0, component: [0, 0, 0] },
        (
            Members { inner: false, component: Some(0) },
            Members { inner: false, component: Some(0) },
        ),
        ([0, 1, 0, 0], [0, 2, 0, 0]),
        3,
        &[
            Step { block: 0, from: 0, to: 1, len: 1, gain: 1 },
            Step { block: 1, from: 0, to: 1, len: 2, gain: 2 },
        ],
    );
    let refused = [
        RefusedStep {
            budget: Budget::Frame,
            step: Step { block: 1, from: 0, to: 1, len: 2, gain: 2 },
            grow: 0,
            price: 2,
        },
    ];
    let multipliers = [4_294_967_296, 0, 0, 0, 0];
    assert!(rt; says(found, multipliers, 1, 2, &refused));
    // A steeper step of a higher block comes first.
    let found = allocate_two(
        rt.alloc(),
        &Limits { frame: 2, inner: None, component: [1_000_000, 1_000_000, 1_000_000] },
        Held { frame: 0, inner: 0, component: [0, 0, 0] },
        (
            Members { inner: false, component: Some(0) },
            Members { inner: false, component: Some(0) },
        ),
        ([0, 3, 0, 0], [0, 2, 2, 0]),
        6,
        &[
            Step { block: 0, from: 0, to: 1, len: 3, gain: 3 },
            Step { block: 1, from: 0, to: 2, len: 2, gain: 3 },
        ],
    );
    let refused = [
        RefusedStep {
            budget: Budget::Frame,
            step: Step { block: 0, from: 0, to: 1, len: 3, gain: 3 },
            grow: 0,
            price: 3,
        },
    ];
    let multipliers = [4_294_967_296, 0, 0, 0, 0];
    assert!(rt; says(found, multipliers, 0, 3, &refused));
}

#[test]
#[rattlefmt::skip]
fn closes_nested_budgets(rt: HostRuntime) {
    // In 2K the component closes first, and later the frame.
    let found = allocate_two(
        rt.alloc(),
        &Limits { frame: 20, inner: None, component: [9, 1_000_000, 1_000_000] },
        Held { frame: 0, inner: 0, component: [0, 0, 0] },
        (
            Members { inner: false, component: Some(0) },
            Members { inner: false, component: Some(1) },
        ),
        ([0, 9, 19, 20], [0, 10, 20, 0]),
        218,
        &[
            Step { block: 0, from: 0, to: 1, len: 9, gain: 90 },
            Step { block: 0, from: 1, to: 2, len: 10, gain: 90 },
            Step { block: 0, from: 2, to: 3, len: 1, gain: 8 },
            Step { block: 1, from: 0, to: 1, len: 10, gain: 20 },
            Step { block: 1, from: 1, to: 2, len: 10, gain: 10 },
        ],
    );
    let refused = [
        RefusedStep {
            budget: Budget::Frame,
            step: Step { block: 1, from: 1, to: 2, len: 10, gain: 10 },
            grow: 0,
            price: 10,
        },
        RefusedStep {
            budget: Budget::C0,
            step: Step { block: 0, from: 1, to: 2, len: 10, gain: 90 },
            grow: 0,
            price: 90,
        },
    ];
    let multipliers = [4_294_967_296, 0, 34_359_738_368, 0, 0];
    assert!(rt; says(found, multipliers, 1, 108, &refused));
    // In 4K the 2K portion closes first, and later the frame.
    let found = allocate_two(
        rt.alloc(),
        &Limits { frame: 16, inner: Some(7), component: [1_000_000, 1_000_000, 1_000_000] },
        Held { frame: 0, inner: 0, component: [0, 0, 0] },
        (
            Members { inner: true, component: Some(0) },
            Members { inner: false, component: None },
        ),
        ([0, 5, 10, 0], [0, 8, 16, 0]),
        114,
        &[
            Step { block: 0, from: 0, to: 1, len: 5, gain: 50 },
            Step { block: 0, from: 1, to: 2, len: 5, gain: 40 },
            Step { block: 1, from: 0, to: 1, len: 8, gain: 16 },
            Step { block: 1, from: 1, to: 2, len: 8, gain: 8 },
        ],
    );
    let refused = [
        RefusedStep {
            budget: Budget::Frame,
            step: Step { block: 1, from: 1, to: 2, len: 8, gain: 8 },
            grow: 0,
            price: 8,
        },
        RefusedStep {
            budget: Budget::Inner,
            step: Step { block: 0, from: 1, to: 2, len: 5, gain: 40 },
            grow: 0,
            price: 40,
        },
    ];
    let multipliers = [4_294_967_296, 30_064_771_072, 0, 0, 0];
    assert!(rt; says(found, multipliers, 17, 48, &refused));
    // Of three budgets that break at once the outermost closes.
    let found = allocate_two(
        rt.alloc(),
        &Limits { frame: 7, inner: Some(7), component: [7, 1_000_000, 1_000_000] },
        Held { frame: 0, inner: 0, component: [0, 0, 0] },
        (
            Members { inner: true, component: Some(0) },
            Members { inner: false, component: None },
        ),
        ([0, 5, 10, 0], [0, 8, 16, 0]),
        114,
        &[
            Step { block: 0, from: 0, to: 1, len: 5, gain: 50 },
            Step { block: 0, from: 1, to: 2, len: 5, gain: 40 },
            Step { block: 1, from: 0, to: 1, len: 8, gain: 16 },
            Step { block: 1, from: 1, to: 2, len: 8, gain: 8 },
        ],
    );
    let refused = [
        RefusedStep {
            budget: Budget::Frame,
            step: Step { block: 0, from: 1, to: 2, len: 5, gain: 40 },
            grow: 0,
            price: 40,
        },
    ];
    let multipliers = [34_359_738_368, 0, 0, 0, 0];
    assert!(rt; says(found, multipliers, 16, 64, &refused));
}

#[test]
#[rattlefmt::skip]
fn learns_more_of_blocks(rt: HostRuntime) {
    // A block that bounds its first step gives the same choice.
    let found = allocate_shy(
        rt.alloc(),
        &Limits { frame: 2, inner: None, component: [1_000_000, 1_000_000, 1_000_000] },
        Held { frame: 0, inner: 0, component: [0, 0, 0] },
        (
            Members { inner: false, component: Some(0) },
            Members { inner: false, component: Some(0) },
        ),
        ([0, 1, 0, 0], [0, 2, 0, 0]),
        3,
        &[
            Step { block: 0, from: 0, to: 1, len: 1, gain: 1 },
            Step { block: 1, from: 0, to: 1, len: 2, gain: 2 },
        ],
    );
    let refused = [
        RefusedStep {
            budget: Budget::Frame,
            step: Step { block: 1, from: 0, to: 1, len: 2, gain: 2 },
            grow: 0,
            price: 2,
        },
    ];
    let multipliers = [4_294_967_296, 0, 0, 0, 0];
    assert!(rt; says(found, multipliers, 1, 2, &refused));
    let found = allocate_shy(
        rt.alloc(),
        &Limits { frame: 16, inner: Some(7), component: [1_000_000, 1_000_000, 1_000_000] },
        Held { frame: 0, inner: 0, component: [0, 0, 0] },
        (
            Members { inner: true, component: Some(0) },
            Members { inner: false, component: None },
        ),
        ([0, 5, 10, 0], [0, 8, 16, 0]),
        114,
        &[
            Step { block: 0, from: 0, to: 1, len: 5, gain: 50 },
            Step { block: 0, from: 1, to: 2, len: 5, gain: 40 },
            Step { block: 1, from: 0, to: 1, len: 8, gain: 16 },
            Step { block: 1, from: 1, to: 2, len: 8, gain: 8 },
        ],
    );
    let refused = [
        RefusedStep {
            budget: Budget::Frame,
            step: Step { block: 1, from: 1, to: 2, len: 8, gain: 8 },
            grow: 0,
            price: 8,
        },
        RefusedStep {
            budget: Budget::Inner,
            step: Step { block: 0, from: 1, to: 2, len: 5, gain: 40 },
            grow: 0,
            price: 40,
        },
    ];
    let multipliers = [4_294_967_296, 30_064_771_072, 0, 0, 0];
    assert!(rt; says(found, multipliers, 17, 48, &refused));
}
