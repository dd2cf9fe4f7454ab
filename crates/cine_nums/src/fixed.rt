// Fixed-point arithmetic with 16 bits after the point.
ghost use Rattle.std.specs.Prelude.{◌≡◌, ℤ, pos, negsuc, ◌≤ℤ◌};
ghost use Rattle.cine_nums.specs.Fixed.{mul16, limit30, Within30};

/// The product of `x` and the constant `c / 65536`, rounded to the nearest whole number, and
/// upwards where two are as near: `(c * x + 32768) >> 16`, a floor. The result lies within 2^46 of
/// 0.
#[inline]
pub fn mul16(c: i32, x: i32) -> i64
    ensures value { result ≡ mul16 c x }
    ensures low { negsuc 70368744177663 ≤ℤ result }
    ensures high { result ≤ℤ pos 70368744177664 }
{
    (c as i64 * x as i64 + 32768) >> 16
}

/// The number nearest to `x` from -2^30 to 2^30 - 1.
#[inline]
#[tactic(auto, unfolding(crate::specs::Fixed::limit30))]
pub fn limit30(x: i64) -> i32
    ensures value { result ≡ limit30 x }
    ensures within { Within30 result }
{
    x.clamp(-(1 << 30), (1 << 30) - 1) as i32
}

#[cfg(test)]
mod tests {
    use super::*;

    #[test]
    fn products_round_to_the_nearest(rt: HostRuntime) {
        assert_eq!(rt; mul16(65536, 7), 7);
        assert_eq!(rt; mul16(32768, 1), 1);
        assert_eq!(rt; mul16(32768, -1), 0);
        assert_eq!(rt; mul16(32767, 1), 0);
        assert_eq!(rt; mul16(-103949, 16384), -25987);
        assert_eq!(rt; mul16(i32::MIN, i32::MIN), 70368744177664);
        assert_eq!(rt; mul16(i32::MIN, i32::MAX), -70368744144896);
    }

    #[test]
    fn limits_are_kept(rt: HostRuntime) {
        assert_eq!(rt; limit30(0), 0);
        assert_eq!(rt; limit30(1073741823), 1073741823);
        assert_eq!(rt; limit30(1073741824), 1073741823);
        assert_eq!(rt; limit30(-1073741824), -1073741824);
        assert_eq!(rt; limit30(-1073741825), -1073741824);
        assert_eq!(rt; limit30(i64::MAX), 1073741823);
        assert_eq!(rt; limit30(i64::MIN), -1073741824);
    }
}
