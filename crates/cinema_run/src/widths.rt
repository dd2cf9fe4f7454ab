// The widths of a certificate line's numbers, which their types give.
ghost use Rattle.std.specs.Prelude.{◌≡◌, ◌<◌, ◌^◌, length};
ghost use Rattle.std.specs.List.{All};
ghost use Rattle.cert_text.specs.Reading.{IsSmall};
ghost use Rattle.cinema_run.specs.Widths.{HasWidths};

use budget_duals::RefusedStep;
use cert_text::CertLine;

// Numbers as wide as those of a refused step.
fn step_numbers(block: u32, from: u8, to: u8, grow: u32, price: u128)
    ensures block { block < 2 ^ 32 }
    ensures from { from < 2 ^ 8 }
    ensures to { to < 2 ^ 8 }
    ensures grow { grow < 2 ^ 32 }
    ensures price { price < 2 ^ 128 }
{}

// Those of a refused step.
fn step_widths(refused: &RefusedStep)
    ensures { IsSmall refused.now }
{
    let step = refused.step;
    step_numbers(step.block, step.from, step.to, refused.grow, refused.price);
}

// Those of each refused step.
fn steps_widths(refused: &[RefusedStep])
    ensures { All IsSmall refused.now }
{
    for step in refused {
        step_widths(step);
    }
}

// Numbers as wide as the sums of a line.
fn sums(passes: u64, empty: u128, distortion: u128, gap: u128)
    ensures passes { passes < 2 ^ 64 }
    ensures empty { empty < 2 ^ 128 }
    ensures distortion { distortion < 2 ^ 128 }
    ensures gap { gap < 2 ^ 128 }
{}

// How many multipliers there are.
fn five(multipliers: &[u128; 5])
    ensures { length multipliers.now ≡ 5 }
{
    let _first = multipliers[0];
}

/// Does nothing: each number that a line says has the width of its type.
pub fn widths(says: &CertLine)
    ensures { HasWidths says.now }
{
    let certificate = &says.certificate;
    sums(
        says.passes,
        says.empty,
        certificate.distortion,
        certificate.gap,
    );
    five(&certificate.multipliers);
    steps_widths(certificate.refused.as_slice());
}
