// The transform of one pixel. Over 2^16, a sum of samples with 13 bits after the point is a sum of
// whole samples over 2^3, which fits 32 bits.
ghost use Rattle.std.specs.Prelude.{◌≡◌, ◌≤◌, ◌≤ℤ◌, ◌+ℤ◌, ◌-ℤ◌, pos, negsuc};
ghost use Rattle.std.specs.Int.{int_shr};
ghost use Rattle.colour_ict.specs.Ict.{component0, component1, component2};

/// A sample less half of its range.
#[inline(always)]
fn shifted(x: u16) -> i32
    ensures { result ≡ pos x -ℤ pos 2048 }
{
    i32::from(x) - 2048
}

/// An eighth of a sum of three products, rounded to the nearest whole number.
#[inline(always)]
fn rounded(a: i32, b: i32, c: i32) -> i32
    requires a_low { negsuc 268435455 ≤ℤ a }
    requires a_high { a ≤ℤ pos 268435455 }
    requires b_low { negsuc 268435455 ≤ℤ b }
    requires b_high { b ≤ℤ pos 268435455 }
    requires c_low { negsuc 268435455 ≤ℤ c }
    requires c_high { c ≤ℤ pos 268435455 }
    ensures { result ≡ int_shr (((a +ℤ b) +ℤ c) +ℤ pos 4) 3 }
{
    (a + b + c + 4) >> 3
}

/// Component 0 of a pixel.
#[inline(always)]
pub fn component0(x: u16, y: u16, z: u16) -> i32
    requires x_in_range { x ≤ 4095 }
    requires y_in_range { y ≤ 4095 }
    requires z_in_range { z ≤ 4095 }
    ensures { result ≡ component0 x y z }
{
    rounded(19595 * shifted(x), 38470 * shifted(y), 7471 * shifted(z))
}

/// Component 1 of a pixel.
#[inline(always)]
pub fn component1(x: u16, y: u16, z: u16) -> i32
    requires x_in_range { x ≤ 4095 }
    requires y_in_range { y ≤ 4095 }
    requires z_in_range { z ≤ 4095 }
    ensures { result ≡ component1 x y z }
{
    rounded(-11059 * shifted(x), -21709 * shifted(y), 32768 * shifted(z))
}

/// Component 2 of a pixel.
#[inline(always)]
pub fn component2(x: u16, y: u16, z: u16) -> i32
    requires x_in_range { x ≤ 4095 }
    requires y_in_range { y ≤ 4095 }
    requires z_in_range { z ≤ 4095 }
    ensures { result ≡ component2 x y z }
{
    rounded(32768 * shifted(x), -27439 * shifted(y), -5329 * shifted(z))
}
