// A frame of quantised coefficients.
ghost use Rattle.std.specs.Prelude.{◌≡◌};
ghost use Rattle.cine_nums.specs.Profile.{levels_of};
ghost use Rattle.coded_blocks.specs.Frame.{CanBeCoded};
ghost use Rattle.dz_quantiser.specs.Bands.{AreUsable};

use band_geometry::Geometry;
use codeblock_views::CoefPlane;
use dz_quantiser::StepSizes;

/// A frame of quantised coefficients: its geometry, with the levels of its profile, the steps of
/// its bands, and the coefficients of its three components. Each plane has the size of the frame,
/// and its magnitudes are below 2 to the number of magnitude bit-planes of their band.
#[derive(Clone, Copy)]
pub struct QuantisedFrame<'a> {
    pub geometry: &'a Geometry,
    pub steps: &'a StepSizes,
    pub c0: &'a CoefPlane,
    pub c1: &'a CoefPlane,
    pub c2: &'a CoefPlane,
    pub ghost levels: { geometry.now.levels ≡ levels_of geometry.now.profile },
    pub ghost usable: { AreUsable geometry.now.levels steps.now },
    pub ghost first: { CanBeCoded geometry.now steps.now c0.now },
    pub ghost second: { CanBeCoded geometry.now steps.now c1.now },
    pub ghost third: { CanBeCoded geometry.now steps.now c2.now },
}

impl<'a> QuantisedFrame<'a> {
    ghost use Rattle.std.specs.Prelude.{◌≡◌, ◌<◌};

    /// The plane of a component.
    pub(crate) fn plane(&self, component: u8) -> &'a CoefPlane
        requires { component < 3 }
        ensures first { component ≡ 0 → result.now ≡ self.now.c0.now }
        ensures second { component ≡ 1 → result.now ≡ self.now.c1.now }
        ensures third { component ≡ 2 → result.now ≡ self.now.c2.now }
    {
        match component {
            0 => self.c0,
            1 => self.c1,
            _ => self.c2,
        }
    }
}
