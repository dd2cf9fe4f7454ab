// The geometry of a frame: its resolutions and their precincts.
ghost use Rattle.std.specs.Prelude.{ℕ, ◌*◌, ◌/◌, ◌≡◌, ◌<◌, ◌≤◌};
ghost use Rattle.cine_nums.specs.Profile.{least_levels_of, levels_of, max_width_of, max_height_of};
ghost use Rattle.band_geometry.specs.Sizes.{res_side, precinct_count};

use crate::sides::{halved_up, precincts_along};
use cine_nums::Profile;

/// What decides how a frame is cut up. Its three components have the same size, so that one
/// geometry serves all of them.
#[derive(Clone, Copy, Debug, PartialEq, Eq)]
pub struct Geometry {
    /// The profile, which bounds the other fields.
    pub profile: Profile,
    /// The levels of the wavelet transform: 0 to 5 for 2K, 1 to 6 for 4K.
    pub levels: u8,
    /// The width of the frame in samples, at least 1.
    pub width: u32,
    /// The height of the frame in samples, at least 1.
    pub height: u32,
    pub ghost enough_levels: { least_levels_of profile ≤ levels },
    pub ghost few_levels: { levels ≤ levels_of profile },
    pub ghost some_width: { 1 ≤ width },
    pub ghost width_in_profile: { width ≤ max_width_of profile },
    pub ghost some_height: { 1 ≤ height },
    pub ghost height_in_profile: { height ≤ max_height_of profile },
}

impl Geometry {
    ghost use Rattle.band_geometry.specs.Bands.{HasBand, block_columns, block_rows};
    ghost use Rattle.cine_nums.specs.Coding.{block_side, band_precinct_side};
    ghost use Rattle.cine_nums.specs.declared.orient.Orient.{Orient};

    /// The geometry of frames of `width` by `height` samples with so many levels.
    pub fn new(profile: Profile, levels: u8, width: u32, height: u32) -> Self
        requires enough_levels { least_levels_of profile ≤ levels }
        requires few_levels { levels ≤ levels_of profile }
        requires some_width { 1 ≤ width }
        requires width_in_profile { width ≤ max_width_of profile }
        requires some_height { 1 ≤ height }
        requires height_in_profile { height ≤ max_height_of profile }
        ensures profile { result.profile ≡ profile }
        ensures levels { result.levels ≡ levels }
        ensures width { result.width ≡ width }
        ensures height { result.height ≡ height }
    {
        Geometry {
            profile,
            levels,
            width,
            height,
        }
    }

    /// The width and the height of resolution `res`, in samples. Resolution 0 is the smallest, and
    /// resolution `levels` the whole frame (ISO/IEC 15444-1, equation B-14).
    pub fn res_size(&self, res: u8) -> (u32, u32)
        requires { res ≤ self.now.levels }
        ensures width { result.0 ≡ res_side self.now.levels self.now.width res }
        ensures height { result.1 ≡ res_side self.now.levels self.now.height res }
    {
        let halvings = self.levels - res;
        (
            halved_up(self.width, halvings),
            halved_up(self.height, halvings),
        )
    }

    /// How many precincts resolution `res` has across and down. They are 128 samples of the
    /// resolution wide and high at resolution 0, and 256 above; those at the right and the lower
    /// edge are cut (ISO/IEC 15444-1, equation B-16).
    pub fn precincts(&self, res: u8) -> (u32, u32)
        requires { res ≤ self.now.levels }
        ensures across { result.0 ≡ precinct_count self.now.levels self.now.width res }
        ensures down { result.1 ≡ precinct_count self.now.levels self.now.height res }
        // Each block of each band of the resolution lies in one of them.
        ensures enough { (o : Orient) (x y : ℕ) → HasBand self.now res o →
            x < block_columns self.now res o → y < block_rows self.now res o →
            (block_side * x / band_precinct_side < result.0) ×
            (block_side * y / band_precinct_side < result.1) }
    {
        let (width, height) = self.res_size(res);
        (precincts_along(width, res), precincts_along(height, res))
    }
}

#[cfg(test)]
mod tests {
    use super::*;

    #[test]
    fn precincts_of_a_whole_2k_frame(rt: HostRuntime) {
        let geometry = Geometry::new(Profile::TwoK, 5, 2048, 1080);
        assert_eq!(rt; geometry.precincts(5), (8, 5));
        assert_eq!(rt; geometry.precincts(4), (4, 3));
        assert_eq!(rt; geometry.precincts(3), (2, 2));
        assert_eq!(rt; geometry.precincts(2), (1, 1));
        assert_eq!(rt; geometry.precincts(1), (1, 1));
        assert_eq!(rt; geometry.precincts(0), (1, 1));
    }

    #[test]
    fn sizes_are_rounded_up_once(rt: HostRuntime) {
        let geometry = Geometry::new(Profile::FourK, 6, 4096, 2160);
        assert_eq!(rt; geometry.res_size(6), (4096, 2160));
        assert_eq!(rt; geometry.res_size(1), (128, 68));
        assert_eq!(rt; geometry.res_size(0), (64, 34));
    }
}
