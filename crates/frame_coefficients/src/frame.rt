// The coefficients of a frame.
ghost use Rattle.std.specs.Prelude.{◌≡◌, ◌*◌, ◌+◌, ◌<◌, ◌≤◌, ◌^◌, length, max, IfOk};
ghost use Rattle.std.specs.List.{All};
ghost use Rattle.cine_nums.specs.Fixed.{Within30};
ghost use Rattle.codeblock_views.specs.Magnitudes.{AreSmall};
ghost use Rattle.dz_quantiser.specs.Bands.{AreUsable};
ghost use Rattle.lift97_fixed.specs.Plane.{plane_transform};
ghost use Rattle.frame_coefficients.specs.Frame.{component, coefficients_of};
ghost use Rattle.frame_coefficients.specs.Places.{quantised};
ghost use Rattle.frame_coefficients.specs.Planes.{HasSize, AreBelow, ArePlain};

use crate::quantise::quantise_plane;
use band_geometry::Geometry;
use codeblock_views::CoefPlane;
use colour_ict::row;
use dz_quantiser::StepSizes;
use lift97_fixed::{Plane, forward};
use std::alloc::{AllocError, Global};

/// The coefficients of the three components of a frame.
#[derive(Debug, Drop)]
pub struct FrameCoefficients {
    pub c0: CoefPlane,
    pub c1: CoefPlane,
    pub c2: CoefPlane,
}

/// The component transform of all pixels, each component into a plane of its own.
fn mix(x: &[u16], y: &[u16], z: &[u16], plane0: &mut Plane, plane1: &mut Plane, plane2: &mut Plane)
    requires y_len { length y.now ≡ length x.now }
    requires z_len { length z.now ≡ length x.now }
    requires len0 { length plane0.old.cells.items ≡ length x.now }
    requires len1 { length plane1.old.cells.items ≡ length x.now }
    requires len2 { length plane2.old.cells.items ≡ length x.now }
    requires x_in_range { All (λ s. s ≤ 4095) x.now }
    requires y_in_range { All (λ s. s ≤ 4095) y.now }
    requires z_in_range { All (λ s. s ≤ 4095) z.now }
    ensures cells0 { plane0.new.cells.items ≡ component 0 x.now y.now z.now }
    ensures cells1 { plane1.new.cells.items ≡ component 1 x.now y.now z.now }
    ensures cells2 { plane2.new.cells.items ≡ component 2 x.now y.now z.now }
    ensures size0 { (plane0.new.width ≡ plane0.old.width) ×
        (plane0.new.height ≡ plane0.old.height) }
    ensures size1 { (plane1.new.width ≡ plane1.old.width) ×
        (plane1.new.height ≡ plane1.old.height) }
    ensures size2 { (plane2.new.width ≡ plane2.old.width) ×
        (plane2.new.height ≡ plane2.old.height) }
    ensures within0 { All Within30 plane0.new.cells.items }
    ensures within1 { All Within30 plane1.new.cells.items }
    ensures within2 { All Within30 plane2.new.cells.items }
{
    row(
        x,
        y,
        z,
        plane0.cells.as_mut_slice(),
        plane1.cells.as_mut_slice(),
        plane2.cells.as_mut_slice(),
    );
}

/// The coefficients of a component, from its plane before the wavelet transform.
fn coefs_of(
    alloc: Global,
    geometry: &Geometry,
    steps: &StepSizes,
    mut plane: Plane,
    scratch: &mut [i32],
) -> Result<CoefPlane, AllocError>
    requires usable { AreUsable geometry.now.levels steps.now }
    requires width { plane.width ≡ geometry.now.width }
    requires height { plane.height ≡ geometry.now.height }
    requires cells { All Within30 plane.cells.items }
    requires scratch { 2 * max geometry.now.width geometry.now.height ≤ length scratch.old }
    ensures size { IfOk result (λ q. HasSize geometry.now q) }
    ensures value { IfOk result (λ q. q.cells.items ≡
        quantised geometry.now.levels geometry.now.width geometry.now.height steps.now
        (plane_transform geometry.now.levels geometry.now.width geometry.now.height plane.cells.items)) }
    ensures magnitudes { IfOk result (λ q. AreSmall q.cells.items) }
    ensures below { IfOk result (λ q. AreBelow geometry.now steps.now q.cells.items) }
    ensures plain { IfOk result (λ q. ArePlain q.cells.items) }
{
    forward(&mut plane, geometry.levels, scratch);
    let mut coefs = CoefPlane::new(alloc, geometry.width, geometry.height)?;
    quantise_plane(
        geometry,
        steps,
        plane.cells.as_slice(),
        coefs.cells.as_mut_slice(),
    );
    Ok(coefs)
}

/// The coefficients of a frame, whose samples X, Y and Z stand in raster order and are at most
/// 4095: the component transform (ISO/IEC 15444-1, Annex G.3), the wavelet transform of the
/// geometry's levels (Annex F), and the index of each place by the step of its band (Annex E).
///
/// Each magnitude is below 2 to the number of magnitude bit-planes of its band, and so below
/// `2^20`; an index of 0 has the sign plus. The only refusal is out of memory.
pub fn coefficients(
    alloc: Global,
    geometry: &Geometry,
    steps: &StepSizes,
    x: &[u16],
    y: &[u16],
    z: &[u16],
) -> Result<FrameCoefficients, AllocError>
    requires usable { AreUsable geometry.now.levels steps.now }
    requires x_len { length x.now ≡ geometry.now.width * geometry.now.height }
    requires y_len { length y.now ≡ geometry.now.width * geometry.now.height }
    requires z_len { length z.now ≡ geometry.now.width * geometry.now.height }
    requires x_in_range { All (λ s. s ≤ 4095) x.now }
    requires y_in_range { All (λ s. s ≤ 4095) y.now }
    requires z_in_range { All (λ s. s ≤ 4095) z.now }
    ensures c0 { IfOk result (λ q. q.c0.cells.items ≡
        coefficients_of geometry.now.levels geometry.now.width geometry.now.height steps.now 0 x.now y.now z.now) }
    ensures c1 { IfOk result (λ q. q.c1.cells.items ≡
        coefficients_of geometry.now.levels geometry.now.width geometry.now.height steps.now 1 x.now y.now z.now) }
    ensures c2 { IfOk result (λ q. q.c2.cells.items ≡
        coefficients_of geometry.now.levels geometry.now.width geometry.now.height steps.now 2 x.now y.now z.now) }
    ensures size { IfOk result
        (λ q. HasSize geometry.now q.c0 × HasSize geometry.now q.c1 × HasSize geometry.now q.c2) }
    ensures magnitudes { IfOk result (λ q.
        AreSmall q.c0.cells.items × AreSmall q.c1.cells.items × AreSmall q.c2.cells.items) }
    ensures below { IfOk result (λ q. AreBelow geometry.now steps.now q.c0.cells.items
        × AreBelow geometry.now steps.now q.c1.cells.items
        × AreBelow geometry.now steps.now q.c2.cells.items) }
    ensures plain { IfOk result (λ q.
        ArePlain q.c0.cells.items × ArePlain q.c1.cells.items × ArePlain q.c2.cells.items) }
{
    let (width, height) = (geometry.width, geometry.height);
    let mut plane0 = Plane::new(alloc, width, height)?;
    let mut plane1 = Plane::new(alloc, width, height)?;
    let mut plane2 = Plane::new(alloc, width, height)?;
    mix(x, y, z, &mut plane0, &mut plane1, &mut plane2);
    let mut scratch = vec![in alloc; 0; 2 * width.max(height) as usize]?;
    let c0 = coefs_of(alloc, geometry, steps, plane0, scratch.as_mut_slice())?;
    let c1 = coefs_of(alloc, geometry, steps, plane1, scratch.as_mut_slice())?;
    let c2 = coefs_of(alloc, geometry, steps, plane2, scratch.as_mut_slice())?;
    Ok(FrameCoefficients { c0, c1, c2 })
}

#[cfg(test)]
mod tests {
    use super::*;
    use cine_nums::Profile;
    use dz_quantiser::Coef;
    use std::test::Fail;

    fn signed(alloc: Global, plane: &CoefPlane) -> Result<Vec<i64>, AllocError> {
        let mut values = Vec::new(alloc);
        for coef in plane.cells.as_slice() {
            let size = i64::from(coef.magnitude());
            values.push(if coef.is_negative() { -size } else { size })?;
        }
        Ok(values)
    }

    // The values come from a program that shares no code with this one.
    #[test]
    fn frame_of_five_by_three_pixels(rt: HostRuntime) -> Result<(), Fail> {
        let geometry = Geometry::new(Profile::TwoK, 5, 5, 3);
        let steps = StepSizes::built_in(Profile::TwoK);
        let x = [
            0, 4095, 2048, 100, 3000, 4095, 4095, 7, 2047, 2049, 1234, 0, 999, 4000, 1,
        ];
        let y = [
            4095, 0, 2048, 50, 1000, 17, 4095, 3500, 2048, 2048, 0, 4095, 2500, 3, 2222,
        ];
        let z = [
            2048, 1, 4095, 2000, 900, 4095, 0, 0, 4095, 2050, 555, 4095, 1500, 60, 3,
        ];
        let frame = coefficients(rt.alloc(), &geometry, &steps, &x, &y, &z)?;
        let c0 = [
            -1200, -4425, 1301, -400, -1802, -56, 1643, 1188, 4701, -155, 1865, 1368, 2293, 1566,
            1217,
        ];
        let c1 = [
            -10448, 2782, -1791, -4179, 2936, 1591, -3987, -1714, -1058, 1460, 88, -2945, 2380,
            -2266, 1608,
        ];
        let c2 = [
            -1901, -1016, -3944, 5367, -1537, -3277, -320, -1004, -4109, 5139, 3600, -2116, -660,
            -462, -418,
        ];
        assert_eq!(rt; signed(rt.alloc(), &frame.c0)?.as_slice(), c0.as_slice());
        assert_eq!(rt; signed(rt.alloc(), &frame.c1)?.as_slice(), c1.as_slice());
        assert_eq!(rt; signed(rt.alloc(), &frame.c2)?.as_slice(), c2.as_slice());
        Ok(())
    }

    #[test]
    fn frames_of_one_pixel(rt: HostRuntime) -> Result<(), Fail> {
        let geometry = Geometry::new(Profile::TwoK, 5, 1, 1);
        let steps = StepSizes::built_in(Profile::TwoK);
        let grey = coefficients(rt.alloc(), &geometry, &steps, &[2049], &[2049], &[2049])?;
        let first = Coef::new(64, false);
        assert_eq!(rt; grey.c0.cells.as_slice(), [first].as_slice());
        let black = coefficients(rt.alloc(), &geometry, &steps, &[0], &[0], &[0])?;
        let first = Coef::new(131072, true);
        assert_eq!(rt; black.c0.cells.as_slice(), [first].as_slice());
        let white = coefficients(rt.alloc(), &geometry, &steps, &[4095], &[4095], &[4095])?;
        let first = Coef::new(131008, false);
        assert_eq!(rt; white.c0.cells.as_slice(), [first].as_slice());
        Ok(())
    }

    /// How many places of component 0 have the index `first`, and how many the index 0, in a frame
    /// of the profile's largest size whose samples are all 2049.
    fn grey(alloc: Global, profile: Profile, first: Coef) -> Result<(u32, u32), AllocError> {
        let (width, height) = (profile.max_width(), profile.max_height());
        let geometry = Geometry::new(profile, profile.levels(), width, height);
        let samples = vec![in alloc; 2049; width as usize * height as usize]?;
        let samples = samples.as_slice();
        let steps = StepSizes::built_in(profile);
        let frame = coefficients(alloc, &geometry, &steps, samples, samples, samples)?;
        let (mut with_first, mut with_zero) = (0u32, 0u32);
        for coef in frame.c0.cells.as_slice() {
            if *coef == first {
                with_first = with_first.saturating_add(1);
            }
            if *coef == Coef::zero() {
                with_zero = with_zero.saturating_add(1);
            }
        }
        Ok((with_first, with_zero))
    }

    // Each of the 64 by 34 places of LL has the index 64; all others are 0.
    #[test]
    fn a_frame_of_the_largest_size_of_2k(rt: HostRuntime) -> Result<(), Fail> {
        let counts = grey(rt.alloc(), Profile::TwoK, Coef::new(64, false))?;
        assert_eq!(rt; counts, (64 * 34, 2048 * 1080 - 64 * 34));
        Ok(())
    }

    // The index 128 there.
    #[test]
    fn a_frame_of_the_largest_size_of_4k(rt: HostRuntime) -> Result<(), Fail> {
        let counts = grey(rt.alloc(), Profile::FourK, Coef::new(128, false))?;
        assert_eq!(rt; counts, (64 * 34, 4096 * 2160 - 64 * 34));
        Ok(())
    }
}
