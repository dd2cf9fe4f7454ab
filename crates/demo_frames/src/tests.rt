// Samples of some frames, computed by a separate program.
use crate::demo_frame;
use cine_nums::Profile;
use std::test::Fail;

/// A number, a profile, a place in raster order, and the samples X', Y', Z' there.
const PIXELS: &[(u32, Profile, usize, [u16; 3])] = &[
    (0, Profile::TwoK, 0, [60, 71, 209]),
    (0, Profile::TwoK, 1, [170, 99, 161]),
    (0, Profile::TwoK, 1997, [1901, 3811, 1918]),
    (0, Profile::TwoK, 1998, [180, 241, 6]),
    (0, Profile::TwoK, 2_157_839, [1319, 1989, 2800]),
    (4_294_967_295, Profile::TwoK, 0, [60, 48, 34]),
    (4_294_967_295, Profile::TwoK, 1_079_919, [2694, 2908, 3393]),
    (1, Profile::FourK, 3995, [3993, 3805, 3566]),
    (1, Profile::FourK, 8_631_359, [2254, 170, 1926]),
];

#[test]
fn samples_at_corners_and_inside(rt: HostRuntime) -> Result<(), Fail> {
    for (number, profile, place, want) in PIXELS {
        let frame = demo_frame(rt.alloc(), *number, *profile)?;
        let made = [
            frame.x.get(*place),
            frame.y.get(*place),
            frame.z.get(*place),
        ];
        for c in 0..3 {
            assert_eq!(rt; made[c].copied(), Some(want[c]), "{number} {place}");
        }
        let width = if *profile == Profile::TwoK {
            1998
        } else {
            3996
        };
        assert_eq!(rt;
            (frame.width, frame.x.len()),
            (width, frame.height as usize * width as usize)
        );
    }
    Ok(())
}
