// The error that is left while the lowest bit-planes of an index are unknown.
ghost use Rattle.std.specs.Prelude.{◌≡◌, ◌*◌, ◌<◌, ◌≤◌, ◌^◌};
ghost use Rattle.dz_quantiser.specs.Error.{middle, squared_error};

/// What a decoder takes for an index of which it knows the bits above the lowest `unknown` planes.
#[inline]
fn middle(bits: u32, unknown: u8) -> u32
    requires unknown { unknown ≤ 20 }
    requires bits { bits * 2 ^ unknown < 2 ^ 20 }
    ensures value { result ≡ middle bits unknown }
    ensures small { result < 2 ^ 22 }
{
    if bits == 0 {
        0
    } else {
        (2 * bits + 1) << unknown
    }
}

/// The squared error of an index of this magnitude whose lowest `unknown` bit-planes are unknown,
/// in units of half a step: between the middle of the sizes that have the index, and the middle of
/// those that have its known bits, or 0 where these are all 0 (ISO/IEC 15444-1, Annex E.1).
#[inline]
pub fn squared_error(magnitude: u32, unknown: u8) -> u64
    requires magnitude { magnitude < 2 ^ 20 }
    requires unknown { unknown ≤ 20 }
    ensures { result ≡ squared_error magnitude unknown }
{
    let apart = u64::from(middle(magnitude, 0).abs_diff(middle(magnitude >> unknown, unknown)));
    apart * apart
}

#[cfg(test)]
mod tests {
    use super::*;

    #[test]
    fn errors_of_an_index_of_seven_planes(rt: HostRuntime) {
        assert_eq!(rt; squared_error(64, 7), 16641);
        assert_eq!(rt; squared_error(64, 6), 3969);
        assert_eq!(rt; squared_error(64, 5), 961);
        assert_eq!(rt; squared_error(64, 1), 1);
        assert_eq!(rt; squared_error(64, 0), 0);
    }

    #[test]
    fn errors_with_no_plane_known(rt: HostRuntime) {
        assert_eq!(rt; squared_error(131008, 18), 68652908289);
        assert_eq!(rt; squared_error(131072, 18), 68720001025);
        assert_eq!(rt; squared_error(0, 18), 0);
    }
}
