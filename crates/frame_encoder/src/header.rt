// The main header.
ghost use Rattle.std.specs.Prelude.{◌≡◌};
ghost use Rattle.arrayvec.specs.ArrayVec.{array_vec_len};
ghost use Rattle.cine_nums.specs.Profile.{levels_of, parts_of};
ghost use Rattle.cinema_markers.specs.MainHeader.{main_header_of};
ghost use Rattle.frame_coefficients.specs.BuiltIn.{built_in_steps};
ghost use Rattle.profile_reader.specs.Spell.{header_for};

use arrayvec::ArrayVec;
use band_geometry::Geometry;
use cinema_markers::{MainHeader, main_bytes};
use dz_quantiser::StepSizes;

/// The main header of a codestream whose tile-parts have these lengths in bytes.
pub fn main_header(geometry: &Geometry, part_lengths: ArrayVec<u32, 6>) -> ArrayVec<u8, 192>
    requires levels { geometry.now.levels ≡ levels_of geometry.now.profile }
    requires parts { array_vec_len part_lengths ≡ parts_of geometry.now.profile }
    ensures { result.items ≡ main_header_of (header_for geometry.now
        (built_in_steps geometry.now.profile) part_lengths.items) }
{
    main_bytes(&MainHeader {
        profile: geometry.profile,
        width: geometry.width,
        height: geometry.height,
        levels: geometry.levels,
        flag: 1,
        steps: StepSizes::built_in(geometry.profile),
        parts: part_lengths,
    })
}
