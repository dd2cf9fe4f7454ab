// Codestreams of whole frames.

ghost use Rattle.std.specs.Prelude.{◌≤◌};
ghost use Rattle.cine_nums.specs.Profile.{max_height_of, max_width_of};
ghost use Rattle.frame_encoder.specs.Orders.{AreLimitsFor};

use crate::frame::{Encoded, encode};
use crate::order::EncodeOrder;
use crate::refusal::EncodeRefusal;
use budget_duals::{Held, Limits, RefusedStep};
use cine_nums::{Budget, Profile};
use pnm_frames::Frame;
use std::alloc::Global;
use std::test::Fail;

/// The codestream of a frame whose pixels all have these samples.
fn encode_pixels(
    alloc: Global,
    order: &EncodeOrder,
    width: u32,
    height: u32,
    samples: (u16, u16, u16),
) -> Result<Encoded, EncodeRefusal>
    requires some_width { 1 ≤ width }
    requires width { width ≤ max_width_of order.now.profile }
    requires some_height { 1 ≤ height }
    requires height { height ≤ max_height_of order.now.profile }
    requires x { samples.0 ≤ 4095 }
    requires y { samples.1 ≤ 4095 }
    requires z { samples.2 ≤ 4095 }
    requires limits { AreLimitsFor order.now.profile order.now.limits }
{
    let count = width as usize * height as usize;
    let frame = Frame {
        width,
        height,
        x: vec![in alloc; samples.0; count]?,
        y: vec![in alloc; samples.1; count]?,
        z: vec![in alloc; samples.2; count]?,
    };
    encode(alloc, &frame, order)
}

/// The codestream of a frame whose samples have all the same value.
fn encode_plain(
    alloc: Global,
    order: &EncodeOrder,
    width: u32,
    height: u32,
    sample: u16,
) -> Result<Encoded, EncodeRefusal>
    requires some_width { 1 ≤ width }
    requires width { width ≤ max_width_of order.now.profile }
    requires some_height { 1 ≤ height }
    requires height { height ≤ max_height_of order.now.profile }
    requires sample { sample ≤ 4095 }
    requires limits { AreLimitsFor order.now.profile order.now.limits }
{
    encode_pixels(alloc, order, width, height, (sample, sample, sample))
}

/// The limits of a frame whose first component alone has passes.
fn limits_of(frame: u32, inner: Option<u32>, c0: u32) -> Limits {
    Limits {
        frame,
        inner,
        component: [c0, 20, 20],
    }
}

/// Of a refused step its block, the passes before and after, its bytes, those of the header, its
/// gain and its price.
fn numbers(refused: &RefusedStep) -> [u128; 7] {
    let step = refused.step;
    [
        u128::from(step.block),
        u128::from(step.from),
        u128::from(step.to),
        u128::from(step.len),
        u128::from(refused.grow),
        step.gain,
        refused.price,
    ]
}

/// How many passes are chosen.
fn passes(made: &Encoded) -> u64 {
    let mut sum: u64 = 0;
    for count in &made.choice {
        sum = sum.wrapping_add(u64::from(*count));
    }
    sum
}

/// Whether these are the refused steps of an encoding.
fn refuses(made: &Encoded, steps: &[(Budget, [u128; 7])]) -> bool {
    let found = made.certificate.refused.as_slice();
    if found.len() != steps.len() {
        return false;
    }
    for (refused, (budget, wanted)) in found.iter().zip(steps.iter()) {
        if refused.budget != *budget || numbers(refused) != *wanted {
            return false;
        }
    }
    true
}

#[test]
fn frames_of_the_smallest_and_the_largest_sizes(rt: HostRuntime) -> Result<(), Fail> {
    let alloc = rt.alloc();
    for (profile, width, height, frame, inner, component) in [
        (Profile::TwoK, 1, 1, 191, 0, 20),
        (Profile::TwoK, 1, 1080, 212, 0, 27),
        (Profile::TwoK, 2048, 1, 224, 0, 31),
        (Profile::TwoK, 129, 257, 194, 0, 21),
        (Profile::TwoK, 2048, 1080, 350, 0, 73),
        (Profile::FourK, 1, 1, 276, 231, 20),
        (Profile::FourK, 4096, 2160, 864, 390, 73),
    ] {
        let made = encode_plain(alloc, &EncodeOrder::of(profile), width, height, 2048)?;
        assert_eq!(rt; made.bytes.len(), frame as usize);
        let component = [component; 3];
        let held = Held {
            frame,
            inner,
            component,
        };
        assert!(rt; made.held == held);
        assert_eq!(rt; (made.empty, made.certificate.gap), (0, 0));
    }
    Ok(())
}

// The first packet of the first tile-part stands after the main header of 129 or 169 bytes and the
// 14 of the tile-part's head. The values come from a program that shares no code with this one.
#[test]
fn the_passes_of_a_pixel(rt: HostRuntime) -> Result<(), Fail> {
    let alloc = rt.alloc();
    for (profile, sample, frame, passes, empty, packet) in [
        (
            Profile::TwoK,
            2049,
            195,
            18,
            16641,
            b"\xC0\x07\xD8\x02\x04\0\0",
        ),
        (
            Profile::TwoK,
            4095,
            197,
            48,
            68652908289,
            b"\xDF\xF8\xB0\x18\0\xEA\xC8",
        ),
        (
            Profile::TwoK,
            0,
            195,
            51,
            68720001025,
            b"\xFF\x78\xE0\x08\x07\0\0",
        ),
        (
            Profile::FourK,
            2049,
            280,
            21,
            66049,
            b"\xC0\x03\xEF\x01\x04\0\0",
        ),
        (
            Profile::FourK,
            4095,
            282,
            51,
            274610585089,
            b"\xCF\xFC\x70\x0C\0\xEA\xC8",
        ),
        (
            Profile::FourK,
            0,
            280,
            54,
            274878955521,
            b"\xDF\xF9\x10\x08\x07\0\0",
        ),
    ] {
        let made = encode_plain(alloc, &EncodeOrder::of(profile), 1, 1, sample)?;
        assert_eq!(rt; made.held.frame, frame);
        assert!(rt; made.choice.as_slice() == [passes, 0, 0].as_slice());
        assert_eq!(rt; made.empty, empty);
        assert_eq!(rt; (made.certificate.distortion, made.certificate.gap), (0, 0));
        assert!(rt; made.certificate.multipliers == [0; 5]);
        assert!(rt; made.certificate.refused.is_empty());
        let place = match profile {
            Profile::TwoK => 143..150,
            Profile::FourK => 183..190,
        };
        assert!(rt; made.bytes.as_slice().get(place) == Some(packet.as_slice()));
    }
    Ok(())
}

// The block of the pixel has one step, whose gain is the distortion, and needs 4 bytes, of which 3
// are there. The outermost budget that lacks one has a multiplier of 2^32 times the gain, and the
// gap is three times the gain.
#[test]
fn a_step_that_doesnt_fit(rt: HostRuntime) -> Result<(), Fail> {
    let alloc = rt.alloc();
    for (profile, limits, budget, multipliers) in [
        (
            Profile::TwoK,
            limits_of(194, None, 24),
            Budget::Frame,
            [71472550772736, 0, 0, 0, 0],
        ),
        (
            Profile::TwoK,
            limits_of(194, None, 23),
            Budget::Frame,
            [71472550772736, 0, 0, 0, 0],
        ),
        (
            Profile::TwoK,
            limits_of(195, None, 23),
            Budget::C0,
            [0, 0, 71472550772736, 0, 0],
        ),
        (
            Profile::FourK,
            limits_of(279, Some(235), 24),
            Budget::Frame,
            [283678294933504, 0, 0, 0, 0],
        ),
        (
            Profile::FourK,
            limits_of(280, Some(234), 23),
            Budget::Inner,
            [0, 283678294933504, 0, 0, 0],
        ),
        (
            Profile::FourK,
            limits_of(280, Some(235), 23),
            Budget::C0,
            [0, 0, 283678294933504, 0, 0],
        ),
    ] {
        let order = EncodeOrder { profile, limits };
        if !order.is_allowed() {
            return Err(Fail::new("the limits are those of another profile"));
        }
        let made = encode_plain(alloc, &order, 1, 1, 2049)?;
        assert!(rt; made.choice.as_slice() == [0, 0, 0].as_slice());
        let (step, distortion, gap) = match profile {
            Profile::TwoK => ([0, 0, 18, 1, 3, 16641, 66564], 16641, 49923),
            Profile::FourK => ([0, 0, 21, 1, 3, 66049, 264196], 66049, 198147),
        };
        let certificate = &made.certificate;
        assert!(rt; certificate.multipliers == multipliers);
        assert!(rt; refuses(&made, &[(budget, step)]));
        assert_eq!(rt;
            (certificate.distortion, certificate.gap),
            (distortion, gap)
        );
    }
    Ok(())
}

#[test]
fn a_step_that_just_fits(rt: HostRuntime) -> Result<(), Fail> {
    let alloc = rt.alloc();
    for (profile, limits, passes) in [
        (Profile::TwoK, limits_of(195, None, 24), 18),
        (Profile::FourK, limits_of(280, Some(235), 24), 21),
    ] {
        let order = EncodeOrder { profile, limits };
        if !order.is_allowed() {
            return Err(Fail::new("the limits are those of another profile"));
        }
        let made = encode_plain(alloc, &order, 1, 1, 2049)?;
        assert!(rt; made.choice.as_slice() == [passes, 0, 0].as_slice());
        assert_eq!(rt; made.held.frame, limits.frame);
        assert_eq!(rt; (made.certificate.distortion, made.certificate.gap), (0, 0));
    }
    Ok(())
}

/// A row of pixels 64 high, the samples 4095, 100 and 3000 in each. Only the lowest band has passes:
/// two code-blocks of each component.
fn encode_row(alloc: Global, order: &EncodeOrder, width: u32) -> Result<Encoded, EncodeRefusal>
    requires some_width { 1 ≤ width }
    requires width { width ≤ max_width_of order.now.profile }
    requires limits { AreLimitsFor order.now.profile order.now.limits }
{
    encode_pixels(alloc, order, width, 64, (4095, 100, 3000))
}

// The values come from a program that shares no code with this one.
#[test]
fn blocks_that_share_a_limit_of_2k(rt: HostRuntime) -> Result<(), Fail> {
    let mut order = EncodeOrder::of(Profile::TwoK);
    let component = [60; 3];
    order.limits.component = component;
    if !order.is_allowed() {
        return Err(Fail::new("the limits are those of another profile"));
    }
    let made = encode_row(rt.alloc(), &order, 2048)?;
    assert_eq!(rt; (made.held.frame, passes(&made)), (295, 78));
    assert!(rt; made.held.component == [56, 56, 52]);
    assert_eq!(rt; made.empty, 8142225950336);
    let certificate = &made.certificate;
    assert_eq!(rt;
        (certificate.distortion, certificate.gap),
        (1042060928, 894290239)
    );
    let multipliers = [0, 0, 16935411098757802, 47498902319923, 471626960977410275];
    assert!(rt; certificate.multipliers == multipliers);
    let steps = [
        (Budget::C0, [1, 6, 12, 12, 0, 47316992, 47316992]),
        (Budget::C1, [189, 15, 30, 10, 0, 110592, 110592]),
        (Budget::C2, [377, 3, 12, 9, 0, 988282880, 988282880]),
    ];
    assert!(rt; refuses(&made, &steps));
    Ok(())
}

// The values come from the same program. The 2K portion has a multiplier, and a component in it too.
#[test]
fn blocks_that_share_a_limit_of_4k(rt: HostRuntime) -> Result<(), Fail> {
    let mut order = EncodeOrder::of(Profile::FourK);
    order.limits.inner = Some(360);
    order.limits.component[0] = 60;
    if !order.is_allowed() {
        return Err(Fail::new("the limits are those of another profile"));
    }
    let made = encode_row(rt.alloc(), &order, 4096)?;
    assert_eq!(rt;
        (made.held.frame, made.held.inner, passes(&made)),
        (443, 353, 132)
    );
    assert!(rt; made.held.component == [58, 58, 66]);
    assert_eq!(rt; made.empty, 16282798809664);
    let certificate = &made.certificate;
    assert_eq!(rt;
        (certificate.distortion, certificate.gap),
        (6365760, 1026902)
    );
    let multipliers = [0, 32985348833280, 2089805100526250, 0, 0];
    assert!(rt; certificate.multipliers == multipliers);
    let steps = [
        (Budget::Inner, [760, 27, 33, 8, 0, 61440, 61440]),
        (Budget::C0, [0, 12, 21, 6, 0, 2965504, 2965504]),
    ];
    assert!(rt; refuses(&made, &steps));
    Ok(())
}

/// The outermost budget whose limit is too small is reported, with the bytes that it needs.
#[test]
fn limits_that_are_too_small(rt: HostRuntime) -> Result<(), Fail> {
    let alloc = rt.alloc();
    for (budget, frame, inner, component, needed) in [
        (Budget::Frame, 275, 230, [19, 20, 20], 276),
        (Budget::Inner, 276, 230, [19, 20, 20], 231),
        (Budget::C0, 276, 231, [19, 20, 19], 20),
        (Budget::C2, 276, 231, [20, 20, 19], 20),
    ] {
        let mut order = EncodeOrder::of(Profile::FourK);
        order.limits.frame = frame;
        order.limits.inner = Some(inner);
        order.limits.component = component;
        if !order.is_allowed() {
            return Err(Fail::new("the limits are those of another profile"));
        }
        match encode_plain(alloc, &order, 1, 1, 2049) {
            Ok(_) => return Err(Fail::new("the frame isn't refused")),
            Err(refusal) => {
                assert!(rt; refusal == EncodeRefusal::LimitTooSmall(budget, needed));
            }
        }
    }
    Ok(())
}
