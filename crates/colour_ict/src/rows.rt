// The transform of a row.
ghost use Rattle.std.specs.Prelude.{◌≡◌, ◌≤◌, length};
ghost use Rattle.std.specs.List.{All};
ghost use Rattle.cine_nums.specs.Fixed.{Within30};
ghost use Rattle.colour_ict.specs.Ict.{component0, component1, component2};
ghost use Rattle.colour_ict.specs.Pointwise.{pointwise};

use crate::pixel;

/// The irreversible component transform of a row of pixels, or of any run of them.
///
/// Place i of the outputs has the three components of the pixel with the samples `x[i]`, `y[i]`,
/// `z[i]`, which are at most 4095.
pub fn row(x: &[u16], y: &[u16], z: &[u16], out0: &mut [i32], out1: &mut [i32], out2: &mut [i32])
    requires y_len { length y.now ≡ length x.now }
    requires z_len { length z.now ≡ length x.now }
    requires out0_len { length out0.old ≡ length x.now }
    requires out1_len { length out1.old ≡ length x.now }
    requires out2_len { length out2.old ≡ length x.now }
    requires x_in_range { All (λ s. s ≤ 4095) x.now }
    requires y_in_range { All (λ s. s ≤ 4095) y.now }
    requires z_in_range { All (λ s. s ≤ 4095) z.now }
    ensures out0 { out0.new ≡ pointwise component0 x.now y.now z.now }
    ensures out1 { out1.new ≡ pointwise component1 x.now y.now z.now }
    ensures out2 { out2.new ≡ pointwise component2 x.now y.now z.now }
    ensures within0 { All Within30 out0.new }
    ensures within1 { All Within30 out1.new }
    ensures within2 { All Within30 out2.new }
{
    for i in 0..x.len() {
        out0[i] = pixel::component0(x[i], y[i], z[i]);
        out1[i] = pixel::component1(x[i], y[i], z[i]);
        out2[i] = pixel::component2(x[i], y[i], z[i]);
    }
}

#[cfg(test)]
mod tests {
    use super::*;

    #[test]
    fn one_pixel(rt: HostRuntime) {
        let (mut c0, mut c1, mut c2) = ([0; 1], [0; 1], [0; 1]);
        row(&[4095], &[2048], &[2048], &mut c0, &mut c1, &mut c2);
        assert_eq!(rt; (c0[0], c1[0], c2[0]), (5_013_871, -2_829_722, 8_384_512));
    }
}
