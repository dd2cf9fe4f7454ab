// Frames of one sample, whose numbers are known from outside, and one of the largest size.
ghost use Rattle.std.specs.Prelude.{◌*◌, ◌^◌, ◌≡◌, ◌<◌, IfOk};
ghost use Rattle.cine_nums.specs.declared.profile.Profile.TheVariants.{TwoK};
ghost use Rattle.dz_quantiser.specs.Bands.{AreUsable};
ghost use Rattle.coded_blocks.specs.Frame.{CanBeCoded};

use crate::blocks::frame_blocks;
use crate::{Choice, FramePrice, QuantisedFrame, choose};
use band_geometry::Geometry;
use budget_duals::{Limits, Offer, Offers, Price, RefusedStep};
use cine_nums::{Budget, Profile};
use codeblock_views::CoefPlane;
use demand_blocks::DemandBlocks;
use dz_quantiser::{Coef, StepSizes};
use frame_packets::FramePackets;
use offers_on_demand::OnDemand;
use rd_hulls::Step;
use std::alloc::{AllocError, Global};
use std::test::Fail;

/// A plane of one sample.
fn plane_of(
    alloc: Global,
    geometry: &Geometry,
    steps: &StepSizes,
    magnitude: u32,
) -> Result<CoefPlane, AllocError>
    requires usable { AreUsable geometry.now.levels steps.now }
    requires low { magnitude < 2048 }
    ensures { IfOk result (λ plane. CanBeCoded geometry.now steps.now plane) }
{
    let mut plane = CoefPlane::new(alloc, geometry.width, geometry.height)?;
    plane.cells[0] = Coef::new(magnitude, false);
    Ok(plane)
}

/// The first step that block 0 offers, when as many of its passes are coded as it takes.
fn first_step(mut offers: OnDemand<DemandBlocks>) -> Option<Step> {
    for _ in 0..59 {
        if offers.count() == 0 {
            return None;
        }
        match offers.offer(0) {
            Offer::Step(step) => {
                return Some(step);
            }
            Offer::AtMost(_) => offers.look(0),
            Offer::Nothing => {
                return None;
            }
        }
    }
    None
}

/// Chooses the passes of a 2K frame under limits of the whole codestream and of component 1. None
/// where a codestream without any pass holds more.
fn choose_under(
    alloc: Global,
    frame: QuantisedFrame,
    whole: u32,
    second: u32,
) -> Result<Option<Choice>, AllocError>
    requires profile { frame.geometry.now.profile ≡ TwoK }
    requires whole { whole < 2 ^ 22 }
    requires second { second < 2 ^ 22 }
{
    let limits = Limits {
        frame: whole,
        inner: None,
        component: [1_041_666, second, 1_041_666],
    };
    let packets = FramePackets::empty(alloc, frame.geometry, frame.steps)?;
    let held = packets.held();
    match limits.broken(&held) {
        Some(_) => Ok(None),
        None => Ok(Some(choose(alloc, frame, &limits, packets)?)),
    }
}

/// Whether a choice has such numbers of passes, packets for so many bytes of the codestream, and
/// such a certificate.
fn says(
    found: Option<Choice>,
    counts: &[u8],
    bytes: u32,
    multipliers: [u128; 5],
    gap: u128,
    distortions: (u128, u128),
    refused: &[RefusedStep],
) -> bool {
    match found {
        Some(choice) => {
            let certificate = &choice.certificate;
            choice.counts.as_slice() == counts
                && choice.packets.held().frame == bytes
                && certificate.multipliers == multipliers
                && certificate.gap == gap
                && (choice.empty, certificate.distortion) == distortions
                && certificate.refused.as_slice() == refused
        }
        None => false,
    }
}

/// The codes of a choice's blocks, those of each after the byte 1.
fn written(alloc: Global, found: &Option<Choice>) -> Result<Vec<u8>, AllocError> {
    let mut out = Vec::new(alloc);
    if let Some(choice) = found {
        for n in 0..choice.codes.count() {
            out.push(1)?;
            if n < 24 {
                choice.codes.push_code(n as u32, &mut out)?;
            }
        }
    }
    Ok(out)
}

// The magnitude 64 has 7 bit-planes and 19 passes. Its hull has one step from no pass to 18, which
// leave no distortion; their code is the byte 04, and the packet's header C0 07 D8 02.
#[test]
fn the_magnitude_64(rt: HostRuntime) -> Result<(), Fail> {
    let alloc = rt.alloc();
    let geometry = Geometry::new(Profile::TwoK, 5, 1, 1);
    let sizes = StepSizes::built_in(Profile::TwoK);
    let c0 = plane_of(alloc, &geometry, &sizes, 64)?;
    let zeros = plane_of(alloc, &geometry, &sizes, 0)?;
    let frame = QuantisedFrame {
        geometry: &geometry,
        steps: &sizes,
        c0: &c0,
        c1: &zeros,
        c2: &zeros,
    };
    let blocks = frame_blocks(alloc, &frame, 1_302_083)?;
    let packets = FramePackets::empty(alloc, &geometry, &sizes)?;
    let price = FramePrice::new(alloc, frame, &blocks, packets)?;
    assert_eq!(rt; (price.count(), price.held().frame), (3, 191));
    assert_eq!(rt; price.held().component, [20, 20, 20]);
    let step = Step {
        block: 0,
        from: 0,
        to: 18,
        len: 1,
        gain: 16_641,
    };
    assert_eq!(rt; first_step(OnDemand::new(alloc, blocks)?), Some(step));
    let found = choose_under(alloc, frame, 195, 20)?;
    assert_eq!(rt;
        written(alloc, &found)?.as_slice(),
        [1, 0x04, 1, 1].as_slice()
    );
    assert!(rt; says(found, &[18, 0, 0], 195, [0; 5], 0, (16_641, 0), &[]));
    Ok(())
}

// Two blocks, of components 0 and 1, have the magnitude 64: the step of each has one byte of code,
// and the header of its packet grows by three. The codestream without any pass has 191 bytes, and
// the tile-part of a component 20.
#[test]
fn chooses_among_two_blocks(rt: HostRuntime) -> Result<(), Fail> {
    let alloc = rt.alloc();
    let geometry = Geometry::new(Profile::TwoK, 5, 1, 1);
    let sizes = StepSizes::built_in(Profile::TwoK);
    let plane = plane_of(alloc, &geometry, &sizes, 64)?;
    let zeros = plane_of(alloc, &geometry, &sizes, 0)?;
    let frame = QuantisedFrame {
        geometry: &geometry,
        steps: &sizes,
        c0: &plane,
        c1: &plane,
        c2: &zeros,
    };
    let refused = |budget: Budget, block: u32| RefusedStep {
        budget,
        step: Step {
            block,
            from: 0,
            to: 18,
            len: 1,
            gain: 16_641,
        },
        grow: 3,
        price: 66_564,
    };
    // Both fit.
    let found = choose_under(alloc, frame, 199, 24)?;
    assert_eq!(rt;
        written(alloc, &found)?.as_slice(),
        [1, 0x04, 1, 0x04, 1].as_slice()
    );
    assert!(rt; says(found, &[18, 18, 0], 199, [0; 5], 0, (33_282, 0), &[]));
    // The frame has 3 bytes unused, one too few for the second, and then for either.
    let slope = 71_472_550_772_736;
    let found = choose_under(alloc, frame, 198, 24)?;
    let steps = [refused(Budget::Frame, 1)];
    assert!(rt;
        says(
            found,
            &[18, 0, 0],
            195,
            [slope, 0, 0, 0, 0],
            49_923,
            (33_282, 16_641),
            &steps
        )
    );
    let found = choose_under(alloc, frame, 194, 24)?;
    let steps = [refused(Budget::Frame, 0)];
    assert!(rt;
        says(
            found,
            &[0, 0, 0],
            191,
            [slope, 0, 0, 0, 0],
            49_923,
            (33_282, 33_282),
            &steps
        )
    );
    // Component 1 has no byte unused.
    let found = choose_under(alloc, frame, 199, 20)?;
    let steps = [refused(Budget::C1, 1)];
    assert!(rt;
        says(
            found,
            &[18, 0, 0],
            195,
            [0, 0, 0, slope, 0],
            0,
            (33_282, 16_641),
            &steps
        )
    );
    Ok(())
}

// Each of the 59 packets of a component has a header of one byte.
#[test]
fn the_largest_frame_of_2k(rt: HostRuntime) -> Result<(), Fail> {
    let alloc = rt.alloc();
    let geometry = Geometry::new(Profile::TwoK, 5, 2048, 1080);
    let sizes = StepSizes::built_in(Profile::TwoK);
    let zeros = plane_of(alloc, &geometry, &sizes, 0)?;
    let frame = QuantisedFrame {
        geometry: &geometry,
        steps: &sizes,
        c0: &zeros,
        c1: &zeros,
        c2: &zeros,
    };
    let found = choose_under(alloc, frame, 1_302_083, 1_041_666)?;
    let counts = vec![in alloc; 0u8; 6708]?;
    assert!(rt; says(found, counts.as_slice(), 350, [0; 5], 0, (0, 0), &[]));
    Ok(())
}
