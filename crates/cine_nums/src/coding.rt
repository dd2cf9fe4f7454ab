// What both profiles fix of the coding style.
ghost use Rattle.std.specs.Prelude.{◌≡◌, ◌+◌, ◌/◌, ◌%◌, ◌^◌, ◌≤◌};
ghost use Rattle.cine_nums.specs.Coding.{block_side, block_exponent, precinct_side, precinct_byte};
ghost use Rattle.cine_nums.specs.Coding.{band_precinct_side, progression};
ghost use Rattle.cine_nums.specs.Levels.{band_level};
ghost use Rattle.cine_nums.specs.declared.coding.TheConstants.{BLOCK_SIDE, BLOCK_EXPONENT};
ghost use Rattle.cine_nums.specs.declared.coding.TheConstants.{BAND_PRECINCT_SIDE, PROGRESSION};

/// One side of a code block, in places of its band (ISO/IEC 15444-1, A.10 and Table A.18).
pub const BLOCK_SIDE: u32 = 32;

/// The fields of COD for the width and the height of a code block: the exponent of 2, less 2
/// (ISO/IEC 15444-1, Table A.18).
pub const BLOCK_EXPONENT: u8 = 3;

/// One side of a precinct in places of each of its bands (ISO/IEC 15444-1, A.10 and B.7).
pub const BAND_PRECINCT_SIDE: u32 = 128;

/// The field of COD and POC for the order of the packets: component, position, resolution, layer
/// (ISO/IEC 15444-1, A.10 and Table A.16).
pub const PROGRESSION: u8 = 4;

/// The four constants are the numbers of the definition, and a block's side is that of its field.
/// It does nothing; its contract is the law.
pub fn coding_style()
    ensures block_side { BLOCK_SIDE ≡ block_side }
    ensures block_exponent { BLOCK_EXPONENT ≡ block_exponent }
    ensures block_field { BLOCK_SIDE ≡ 2 ^ (BLOCK_EXPONENT + 2) }
    ensures band_precinct_side { BAND_PRECINCT_SIDE ≡ band_precinct_side }
    ensures progression { PROGRESSION ≡ progression }
{}

/// One side of a precinct of resolution `res`, in places of the resolution: 128 at resolution 0,
/// and 256 above (ISO/IEC 15444-1, A.10 and B.6).
pub fn precinct_side(res: u8) -> u32
    ensures { result ≡ precinct_side res }
{
    if res == 0 { 128 } else { 256 }
}

/// The byte of COD for the precincts of resolution `res`: PPx in its four low bits and PPy in the
/// four high ones, the exponents of 2 of a precinct's sides (ISO/IEC 15444-1, Table A.21).
pub fn precinct_byte(res: u8) -> u8
    ensures value { result ≡ precinct_byte res }
    ensures width { 2 ^ (result % 16) ≡ precinct_side res }
    ensures height { 2 ^ (result / 16) ≡ precinct_side res }
{
    if res == 0 { 0x77 } else { 0x88 }
}

/// The decomposition level of the bands of resolution `res`, of so many levels: `levels` at
/// resolution 0, else `levels - res + 1` (ISO/IEC 15444-1, B.5).
pub fn band_level(levels: u8, res: u8) -> u8
    requires { res ≤ levels }
    ensures { result ≡ band_level levels res }
{
    if res == 0 { levels } else { levels - (res - 1) }
}
