// The segments of a main header, one by one.
ghost use Rattle.std.specs.Prelude.{◌≡◌, ◌++◌, ◌+◌, ◌*◌, ◌≤◌, ◌<◌, ◌^◌, ℕ, length, slice_index};
ghost use Rattle.std.specs.List.{All};
ghost use Rattle.arrayvec.specs.ArrayVec.{array_vec_len};
ghost use Rattle.cinema_markers.specs.Fields.{segment};
ghost use Rattle.cinema_markers.specs.MainHeader.{rsiz, soc, siz, precinct_sizes, cod, step_field};
ghost use Rattle.cinema_markers.specs.MainHeader.{qcd, poc, tlm};

use crate::fields::{Field, push_fields};
use arrayvec::ArrayVec;
use cine_nums::{BLOCK_EXPONENT, PROGRESSION, Profile, precinct_byte};
use dz_quantiser::{BandStep, StepSizes};

/// The markers (Table A.2).
const SOC: u16 = 0xFF4F;

const SIZ: u16 = 0xFF51;

const COD: u16 = 0xFF52;

const QCD: u16 = 0xFF5C;

const POC: u16 = 0xFF5F;

const TLM: u16 = 0xFF55;

/// Rsiz of a profile.
fn rsiz(profile: Profile) -> u16
    ensures { result ≡ rsiz profile }
{
    match profile {
        Profile::TwoK => 3,
        Profile::FourK => 4,
    }
}

/// Appends the start of codestream, and image and tile size in samples.
pub fn push_siz(out: &mut ArrayVec<u8, 192>, profile: Profile, width: u32, height: u32)
    requires { array_vec_len out.old ≤ 100 }
    ensures items { out.new.items
        ≡ out.old.items ++ segment soc ++ segment (siz profile width height) }
    ensures len { array_vec_len out.new ≡ array_vec_len out.old + 51 }
{
    push_fields(out, &[Field::Short(SOC)]);
    push_fields(
        out,
        &[
            Field::Short(SIZ),
            Field::Short(47),
            Field::Short(rsiz(profile)),
            // the image
            Field::Long(width),
            Field::Long(height),
            Field::Long(0),
            Field::Long(0),
            // the one tile
            Field::Long(width),
            Field::Long(height),
            Field::Long(0),
            Field::Long(0),
            // three components: 12 bits, a sample at each place
            Field::Short(3),
            Field::Byte(11),
            Field::Byte(1),
            Field::Byte(1),
            Field::Byte(11),
            Field::Byte(1),
            Field::Byte(1),
            Field::Byte(11),
            Field::Byte(1),
            Field::Byte(1),
        ],
    );
}

/// Appends the sizes of precincts: a byte for resolution 0 and one for the resolution above each
/// level.
fn push_precinct_sizes(out: &mut ArrayVec<u8, 192>, levels: u8)
    requires room { array_vec_len out.old ≤ 150 }
    requires levels { levels ≤ 6 }
    ensures items { out.new.items ≡ out.old.items ++ segment (precinct_sizes levels) }
    ensures len { array_vec_len out.new ≡ array_vec_len out.old + (1 + levels) }
{
    push_fields(out, &[Field::Byte(precinct_byte(0))]);
    for _level in 0..levels {
        push_fields(out, &[Field::Byte(precinct_byte(1))]);
    }
}

/// Appends the coding style of so many levels, with this field for the component transform.
pub fn push_cod(out: &mut ArrayVec<u8, 192>, levels: u8, flag: u8)
    requires room { array_vec_len out.old ≤ 100 }
    requires levels { levels ≤ 6 }
    ensures items { out.new.items ≡ out.old.items ++ segment (cod levels flag) }
    ensures len { array_vec_len out.new ≡ array_vec_len out.old + (15 + levels) }
{
    push_fields(
        out,
        &[
            Field::Short(COD),
            Field::Short(13 + u16::from(levels)),
            // precincts are given; the order, one layer, the component transform
            Field::Byte(1),
            Field::Byte(PROGRESSION),
            Field::Short(1),
            Field::Byte(flag),
            // the levels; code blocks of 32 by 32, no variant of their coding; the 9-7 wavelet
            Field::Byte(levels),
            Field::Byte(BLOCK_EXPONENT),
            Field::Byte(BLOCK_EXPONENT),
            Field::Byte(0),
            Field::Byte(0),
        ],
    );
    push_precinct_sizes(out, levels);
}

/// The step of a band as QCD spells it.
fn step_field(step: BandStep) -> Field
    requires exponent { step.exponent < 32 }
    requires mantissa { step.mantissa < 2048 }
    ensures { result ≡ step_field step }
{
    Field::Short(u16::from(step.exponent) * 2048 + step.mantissa)
}

/// Appends the quantisation: the guard bits, and the step of each band of so many levels.
pub fn push_qcd(out: &mut ArrayVec<u8, 192>, levels: u8, steps: &StepSizes)
    requires room { array_vec_len out.old ≤ 100 }
    requires levels { levels ≤ 6 }
    requires guard { steps.now.guard ≤ 7 }
    requires bands { array_vec_len steps.now.bands ≡ 3 * levels + 1 }
    requires exponents { All (λ step. step.exponent < 32) steps.now.bands.items }
    requires mantissas { All (λ step. step.mantissa < 2048) steps.now.bands.items }
    ensures items { out.new.items ≡ out.old.items ++ segment (qcd levels steps.now) }
    ensures len { array_vec_len out.new ≡ array_vec_len out.old + (7 + 6 * levels) }
{
    push_fields(
        out,
        &[
            Field::Short(QCD),
            Field::Short(5 + 6 * u16::from(levels)),
            Field::Byte(steps.guard * 32 + 2),
        ],
    );
    for step in steps.bands.as_slice() {
        push_fields(out, &[step_field(*step)]);
    }
}

/// Appends the changes of the progression order of the 4K profile: the packets of the resolutions
/// of a 2K frame first, and those of the highest one after them. The 2K profile has none.
pub fn push_poc(out: &mut ArrayVec<u8, 192>, profile: Profile, levels: u8)
    requires room { array_vec_len out.old ≤ 120 }
    requires levels { levels ≤ 6 }
    ensures { out.new.items ≡ out.old.items ++ segment (poc profile levels) }
{
    match profile {
        Profile::TwoK => {}
        Profile::FourK => push_fields(
            out,
            &[
                Field::Short(POC),
                Field::Short(16),
                Field::Byte(0),
                Field::Byte(0),
                Field::Short(1),
                Field::Byte(levels),
                Field::Byte(3),
                Field::Byte(PROGRESSION),
                Field::Byte(levels),
                Field::Byte(0),
                Field::Short(1),
                Field::Byte(levels + 1),
                Field::Byte(3),
                Field::Byte(PROGRESSION),
            ],
        ),
    }
}

/// Appends the lengths of the tile-parts, in bytes.
pub fn push_tlm(out: &mut ArrayVec<u8, 192>, parts: &[u32])
    requires room { array_vec_len out.old ≤ 140 }
    requires parts { length parts.now ≤ 6 }
    ensures items { out.new.items ≡ out.old.items ++ segment (tlm parts.now) }
    ensures short { (k : ℕ) → slice_index parts.now k < 2 ^ 32 }
    ensures len { array_vec_len out.new ≡ array_vec_len out.old + (6 + 5 * length parts.now) }
{
    push_fields(
        out,
        &[
            Field::Short(TLM),
            Field::Short(4 + 5 * parts.len() as u16),
            Field::Byte(0),
            Field::Byte(0x50),
        ],
    );
    for part in parts {
        push_fields(out, &[Field::Byte(0), Field::Long(*part)]);
    }
}
