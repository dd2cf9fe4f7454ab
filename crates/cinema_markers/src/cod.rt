// What is judged of COD.
ghost use Rattle.std.specs.Prelude.{◌≡◌, ◌+◌, ◌≤◌, ◌<◌, ◌^◌, ◌++◌, length, slice_index, IfNone};
ghost use Rattle.cine_nums.specs.Bytes.{word_at};
ghost use Rattle.cine_nums.specs.Faults.{first_fault};
ghost use Rattle.cinema_markers.specs.Tables.{cod_rows, cod_style_rows, cod_order_rows};
ghost use Rattle.cinema_markers.specs.Tables.{cod_block_rows, precinct_row, precinct_rows};

use crate::refusal::MarkerRefusal;
use cine_nums::{BLOCK_EXPONENT, PROGRESSION, Profile, precinct_byte, word_at};

/// Lcod below 12, and Scod.
#[tactic(auto, unfolding(crate::specs::Tables::cod_style_rows))]
fn cod_style_fault(bytes: &[u8], at: u32) -> Option<MarkerRefusal>
    requires places { length bytes.now < 2 ^ 32 }
    requires inside { at + 2 + word_at bytes.now (at + 2) ≤ length bytes.now }
    requires room { at + 4 ≤ length bytes.now }
    ensures value { result ≡ first_fault (cod_style_rows bytes.now at) }
    ensures long { IfNone result (12 ≤ word_at bytes.now (at + 2)) }
{
    let place = at as usize;
    if word_at(bytes, place + 2) < 12 {
        return Some(MarkerRefusal::BadCod(at + 2));
    }
    let style = bytes[place + 4];
    if style / 2 % 2 == 1 {
        return Some(MarkerRefusal::OutsideProfile(at + 4, 7));
    }
    if style / 4 % 2 == 1 {
        return Some(MarkerRefusal::OutsideProfile(at + 4, 8));
    }
    if style % 2 == 0 {
        return Some(MarkerRefusal::OutsideProfile(at + 4, 9));
    }
    if style != 1 {
        return Some(MarkerRefusal::BadCod(at + 4));
    }
    None
}

/// The progression order, the layers, the component transform and the levels.
#[tactic(auto, unfolding(crate::specs::Tables::cod_order_rows))]
fn cod_order_fault(bytes: &[u8], at: u32, profile: Profile) -> Option<MarkerRefusal>
    requires places { length bytes.now < 2 ^ 32 }
    requires inside { at + 14 ≤ length bytes.now }
    ensures { result ≡ first_fault (cod_order_rows profile bytes.now at) }
{
    let place = at as usize;
    if bytes[place + 5] != PROGRESSION {
        return Some(MarkerRefusal::BadCod(at + 5));
    }
    let layers = word_at(bytes, place + 6);
    if layers == 0 {
        return Some(MarkerRefusal::BadCod(at + 6));
    }
    if layers > 1 {
        return Some(MarkerRefusal::OutsideProfile(at + 6, 10));
    }
    if bytes[place + 8] > 1 {
        return Some(MarkerRefusal::BadCod(at + 8));
    }
    let levels = bytes[place + 9];
    if levels < profile.least_levels() || levels > profile.levels() {
        return Some(MarkerRefusal::BadCod(at + 9));
    }
    None
}

/// The sides and the style of code blocks, the wavelet, and Lcod against the levels.
#[tactic(auto, unfolding(crate::specs::Tables::cod_block_rows))]
fn cod_block_fault(bytes: &[u8], at: u32) -> Option<MarkerRefusal>
    requires places { length bytes.now < 2 ^ 32 }
    requires inside { at + 14 ≤ length bytes.now }
    ensures value { result ≡ first_fault (cod_block_rows bytes.now at) }
    ensures long { IfNone result
        (word_at bytes.now (at + 2) ≡ 13 + slice_index bytes.now (at + 9)) }
{
    let place = at as usize;
    if bytes[place + 10] != BLOCK_EXPONENT {
        return Some(MarkerRefusal::OutsideProfile(at + 10, 11));
    }
    if bytes[place + 11] != BLOCK_EXPONENT {
        return Some(MarkerRefusal::OutsideProfile(at + 11, 11));
    }
    if bytes[place + 12] != 0 {
        return Some(MarkerRefusal::OutsideProfile(at + 12, 12));
    }
    if bytes[place + 13] == 1 {
        return Some(MarkerRefusal::OutsideProfile(at + 13, 13));
    }
    if bytes[place + 13] > 1 {
        return Some(MarkerRefusal::BadCod(at + 13));
    }
    if word_at(bytes, place + 2) != 13 + u16::from(bytes[place + 9]) {
        return Some(MarkerRefusal::BadCod(at + 2));
    }
    None
}

/// The fields of COD at a place, up to the sizes of precincts.
#[tactic(auto, using(crate::proofs::RowRules::tables), unfolding(crate::specs::Tables::cod_rows))]
fn cod_fault(bytes: &[u8], at: u32, profile: Profile) -> Option<MarkerRefusal>
    requires places { length bytes.now < 2 ^ 32 }
    requires inside { at + 2 + word_at bytes.now (at + 2) ≤ length bytes.now }
    requires room { at + 4 ≤ length bytes.now }
    ensures value { result ≡ first_fault (cod_rows profile bytes.now at) }
    ensures long { IfNone result
        (word_at bytes.now (at + 2) ≡ 13 + slice_index bytes.now (at + 9)) }
{
    if let Some(fault) = cod_style_fault(bytes, at) {
        return Some(fault);
    }
    if let Some(fault) = cod_order_fault(bytes, at, profile) {
        return Some(fault);
    }
    cod_block_fault(bytes, at)
}

/// The sizes of precincts of COD at a place.
#[tactic(auto, using(crate::proofs::RowRules::ranges), unfolding(crate::specs::Tables::precinct_rows))]
fn precinct_fault(bytes: &[u8], at: u32) -> Option<MarkerRefusal>
    requires places { length bytes.now < 2 ^ 32 }
    requires inside { at + (15 + slice_index bytes.now (at + 9)) ≤ length bytes.now }
    ensures { result ≡ first_fault (precinct_rows bytes.now at) }
{
    let count = u32::from(bytes[at as usize + 9]) + 1;
    for r in 0..count {
        let place = at + (14 + r);
        if bytes[place as usize] != precinct_byte(r as u8) {
            return Some(MarkerRefusal::OutsideProfile(place, 9));
        }
    }
    None
}

/// All of COD at a place.
#[tactic(auto, using(crate::proofs::RowRules::tables))]
pub fn whole_cod_fault(bytes: &[u8], at: u32, profile: Profile) -> Option<MarkerRefusal>
    requires places { length bytes.now < 2 ^ 32 }
    requires inside { at + 2 + word_at bytes.now (at + 2) ≤ length bytes.now }
    requires room { at + 4 ≤ length bytes.now }
    ensures value { result ≡ first_fault
        (cod_rows profile bytes.now at ++ precinct_rows bytes.now at) }
    ensures long { IfNone result (12 ≤ word_at bytes.now (at + 2)) }
{
    match cod_fault(bytes, at, profile) {
        Some(fault) => Some(fault),
        None => precinct_fault(bytes, at),
    }
}
