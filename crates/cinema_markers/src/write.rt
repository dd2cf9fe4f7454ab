// Writing a main header.
ghost use Rattle.std.specs.Prelude.{◌≡◌, ◌+◌, ◌*◌, ◌≤◌, ◌<◌, ◌++◌, ◌∷◌, ℕ, List, length};
ghost use Rattle.dz_quantiser.specs.Bands.{planes_of};
ghost use Rattle.cinema_markers.specs.Words.{HasMain, HasPlanes, read_of};
ghost use Rattle.std.specs.List.{All};
ghost use Rattle.arrayvec.specs.ArrayVec.{array_vec_len};
ghost use Rattle.cine_nums.specs.Profile.{levels_of, parts_of, max_width_of, max_height_of};
ghost use Rattle.cinema_markers.specs.MainHeader.{main_header_of, main_length};

use crate::header::MainHeader;
use crate::segments::{push_cod, push_poc, push_qcd, push_siz, push_tlm};
use arrayvec::ArrayVec;

/// The bytes of a main header: 129 of the 2K profile, 169 of the 4K profile. The places of the
/// lengths of the tile-parts aren't looked at.
///
/// The sizes are within the profile's, the levels and the number of tile-parts are the profile's,
/// the flag is 1, and there is a step for each band: guard bits at most 7, exponents below 32,
/// mantissas below 2,048.
pub fn main_bytes(m: &MainHeader) -> ArrayVec<u8, 192>
    requires some_width { 1 ≤ m.now.width }
    requires width { m.now.width ≤ max_width_of m.now.profile }
    requires some_height { 1 ≤ m.now.height }
    requires height { m.now.height ≤ max_height_of m.now.profile }
    requires levels { m.now.levels ≡ levels_of m.now.profile }
    requires flag { m.now.flag ≡ 1 }
    requires guard { m.now.steps.guard ≤ 7 }
    requires bands { array_vec_len m.now.steps.bands ≡ 3 * m.now.levels + 1 }
    requires exponents { All (λ step. step.exponent < 32) m.now.steps.bands.items }
    requires mantissas { All (λ step. step.mantissa < 2048) m.now.steps.bands.items }
    requires parts { array_vec_len m.now.parts ≡ parts_of m.now.profile }
    ensures bytes { result.items ≡ main_header_of m.now }
    ensures length { array_vec_len result ≡ main_length m.now.profile }
    // Where each band has a plane it is a main header that is read back, whatever follows SOT.
    ensures spells { HasPlanes m.now.steps → (rest : List ℕ) →
        HasMain (result.items ++ 0xFF ∷ 0x90 ∷ rest) (read_of m.now) }
{
    let mut out = ArrayVec::new();
    push_siz(&mut out, m.profile, m.width, m.height);
    push_cod(&mut out, m.levels, m.flag);
    push_qcd(&mut out, m.levels, &m.steps);
    push_poc(&mut out, m.profile, m.levels);
    push_tlm(&mut out, m.parts.as_slice());
    out
}
