// The bands of a main header whose bit-planes are too many.
ghost use Rattle.std.specs.Prelude.{◌≡◌, ◌<◌, ◌≤◌, None, IfSome};
ghost use Rattle.std.specs.List.{All};
ghost use Rattle.dz_quantiser.specs.Bands.{planes_of};
ghost use Rattle.dz_quantiser.specs.declared.band.BandStep.{BandStep};
ghost use Rattle.codestream_reader.specs.Faults.{ManyPlanes};

use dz_quantiser::{StepSizes, planes};

/// The first band with more than 31 magnitude bit-planes, in the order of QCD.
pub(crate) fn many_planes(steps: &StepSizes) -> Option<u8>
    requires guard { steps.now.guard ≤ 7 }
    requires exponents { All (λ (step : BandStep). step.exponent < 32) steps.now.bands.items }
    ensures none { result ≡ None → All (λ (step : BandStep).
        planes_of steps.now.guard step.exponent ≤ 31) steps.now.bands.items }
    ensures some { IfSome result (ManyPlanes steps.now) }
{
    for band in 0..steps.bands.len() {
        if planes(steps.guard, steps.bands[band]) > 31 {
            return Some(band as u8);
        }
    }
    None
}
