// The index of a transformed sample.
ghost use Rattle.std.specs.Prelude.{◌≡◌, ◌<◌, ◌≤◌, ◌^◌};
ghost use Rattle.cine_nums.specs.Fixed.{Within30};
ghost use Rattle.dz_quantiser.specs.Index.{quotient, index_of};

use crate::band::BandQuantiser;
use crate::coef::Coef;

/// The size of a transformed sample over the step, rounded down.
///
/// Where the mantissa is 0 the step is a power of two.
#[inline]
fn quotient(size: u32, band: BandQuantiser) -> u32
    requires { size ≤ 2 ^ 30 }
    ensures { result ≡ quotient size band.step band.range }
{
    let gain = u32::from(band.step.exponent - band.range);
    if band.step.mantissa == 0 {
        size >> (13 - gain)
    } else {
        ((u64::from(size) << gain) / (4 * (2048 + u64::from(band.step.mantissa)))) as u32
    }
}

/// The index of a transformed sample `y`, which has 13 bits after the point, in a band (ISO/IEC
/// 15444-1, Annex E.2).
///
/// The magnitude is that of `y` over the step, rounded down, and `2^planes - 1` where it would be
/// more. The sign is that of `y`, and plus where the index is 0.
#[inline]
pub fn index(y: i32, band: BandQuantiser) -> Coef
    requires { Within30 y }
    ensures value { result ≡ index_of y band.step band.range band.planes }
    ensures below { result.magnitude < 2 ^ band.planes }
{
    let largest = (1 << band.planes) - 1;
    let magnitude = quotient(y.unsigned_abs(), band).min(largest);
    Coef::new(magnitude, magnitude > 0 && y < 0)
}

#[cfg(test)]
mod tests {
    use super::*;
    use crate::band::BandStep;

    /// The index as a number with its sign, and whether it has the sign minus.
    fn signed(coef: Coef) -> (i64, bool) {
        let magnitude = i64::from(coef.magnitude());
        if coef.is_negative() {
            (-magnitude, true)
        } else {
            (magnitude, false)
        }
    }

    #[test]
    fn indexes_of_a_built_in_step(rt: HostRuntime) {
        let band = BandQuantiser {
            step: BandStep {
                exponent: 18,
                mantissa: 0,
            },
            range: 12,
            planes: 18,
        };
        assert_eq!(rt; signed(index(8192, band)), (64, false));
        assert_eq!(rt; signed(index(16769024, band)), (131008, false));
        assert_eq!(rt; signed(index(-16777216, band)), (-131072, true));
        assert_eq!(rt; signed(index(-127, band)), (0, false));
        assert_eq!(rt; signed(index(1073741823, band)), (262143, false));
        assert_eq!(rt; index(-16777216, band).word(), 0x8002_0000);
    }

    #[test]
    fn indexes_of_a_step_of_one_and_a_half(rt: HostRuntime) {
        let band = BandQuantiser {
            step: BandStep {
                exponent: 14,
                mantissa: 1024,
            },
            range: 14,
            planes: 14,
        };
        assert_eq!(rt; signed(index(-24575, band)), (-1, true));
        assert_eq!(rt; signed(index(24576, band)), (2, false));
        assert_eq!(rt; signed(index(-12287, band)), (0, false));
    }
}
