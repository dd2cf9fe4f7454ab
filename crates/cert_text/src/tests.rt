// Lines of worked frames.
ghost use Rattle.std.specs.Prelude.{◌≡◌, is_some, IfOk};
ghost use Rattle.cine_nums.specs.Limits.{has_inner};

use super::*;
use arrayvec::ArrayVec;
use budget_duals::{Certificate, Held, Limits, RefusedStep};
use cine_nums::{Budget, Profile};
use rd_hulls::Step;
use std::alloc::{AllocError, Global};
use std::test::Fail;

/// A frame of one pixel with samples 2048, for 2K and for 4K.
const GREY: &[(Profile, u32, u32, &str)] = &[
    (
        Profile::TwoK,
        191,
        0,
        "ok a%20b 2k 1x1 frame=191/1302083/0 c0=20/1041666/0 c1=20/1041666/0 c2=20/1041666/0 \
         passes=0 empty=0 distortion=0 gap=0\n",
    ),
    (
        Profile::FourK,
        276,
        231,
        "ok a%20b 4k 1x1 frame=276/1302083/0 inner=231/1302083/0 c0=20/1041666/0 c1=20/1041666/0 \
         c2=20/1041666/0 passes=0 empty=0 distortion=0 gap=0\n",
    ),
];

/// A frame of one pixel with samples 2049 for which 194 bytes are too few.
const REFUSED_STEP: &str = "ok d 2k 1x1 frame=191/194/71472550772736 c0=20/1041666/0 \
c1=20/1041666/0 c2=20/1041666/0 passes=0 empty=16641 distortion=16641 gap=49923 \
step=frame:0:0:18:1:3:16641:66564\n";

/// What the line of a grey frame of one pixel says.
fn grey(
    alloc: Global,
    name: &str,
    profile: Profile,
    frame: u32,
    inner: u32,
) -> Result<CertLine, AllocError>
    ensures { IfOk result (λ line. is_some line.limits.inner ≡ has_inner line.profile) }
{
    Ok(CertLine {
        name: String::from_str(alloc, name)?,
        profile,
        width: 1,
        height: 1,
        held: Held {
            frame,
            inner,
            component: [20; 3],
        },
        limits: Limits::of(profile),
        passes: 0,
        empty: 0,
        certificate: Certificate {
            multipliers: [0; 5],
            gap: 0,
            distortion: 0,
            refused: ArrayVec::new(),
        },
    })
}

#[test]
fn certificates_are_written(rt: HostRuntime) -> Result<(), Fail> {
    let alloc = rt.alloc();
    for (profile, frame, inner, want) in GREY {
        let line = grey(alloc, "a b", *profile, *frame, *inner)?;
        assert_eq!(rt; write_cert(alloc, &line)?.as_str(), *want);
    }
    let mut line = grey(alloc, "d", Profile::TwoK, 191, 0)?;
    line.limits.frame = 194;
    line.empty = 16641;
    line.certificate.multipliers[0] = 71472550772736;
    line.certificate.distortion = 16641;
    line.certificate.gap = 49923;
    let step = Step {
        block: 0,
        from: 0,
        to: 18,
        len: 1,
        gain: 16641,
    };
    let refused = RefusedStep {
        budget: Budget::Frame,
        step,
        grow: 3,
        price: 66564,
    };
    if line.certificate.refused.try_push(refused).is_err() {
        return Err(Fail::new("more than five steps"));
    }
    assert_eq!(rt; write_cert(alloc, &line)?.as_str(), REFUSED_STEP);
    Ok(())
}

#[test]
fn read_lines_are_written(rt: HostRuntime) -> Result<(), Fail> {
    let alloc = rt.alloc();
    let line = ReadLine {
        profile: Profile::TwoK,
        width: 1,
        height: 1,
        levels: 5,
        held: Held {
            frame: 195,
            inner: 0,
            component: [24, 20, 20],
        },
        blocks: 1,
        passes: 18,
    };
    let want = "read d 2k 1x1 levels=5 frame=195 c0=24 c1=20 c2=20 blocks=1 passes=18\n";
    assert_eq!(rt; write_read(alloc, "d", &line)?.as_str(), want);
    Ok(())
}

/// Codes, budgets and numbers of refusals, and their lines.
const REFUSED: &[(u8, Option<Budget>, &[u64], &str)] = &[
    (
        10,
        Some(Budget::Frame),
        &[191],
        "refused f%7E 10 LimitTooSmall frame 191\n",
    ),
    (4, None, &[], "refused f%7E 4 WrongMaxval\n"),
    (7, None, &[14], "refused f%7E 7 SampleTooLarge 14\n"),
    (
        44,
        None,
        &[100, 65375],
        "refused f%7E 44 Missing 100 65375\n",
    ),
    (63, None, &[193], "refused f%7E 63 MissingEnd 193\n"),
];

#[test]
fn refusals_are_written(rt: HostRuntime) -> Result<(), Fail> {
    let alloc = rt.alloc();
    for (code, budget, numbers, want) in REFUSED {
        let mut line = RefusedLine {
            code: *code,
            budget: *budget,
            numbers: ArrayVec::new(),
        };
        for n in *numbers {
            if line.numbers.try_push(*n).is_err() {
                return Err(Fail::new("more than two numbers"));
            }
        }
        if refusal_word(line.code).is_none() {
            return Err(Fail::new("no such code"));
        }
        assert_eq!(rt; write_refused(alloc, "f~", &line)?.as_str(), *want);
    }
    Ok(())
}
