// What is judged of QCD.
ghost use Rattle.std.specs.Prelude.{◌≡◌, ◌+◌, ◌*◌, ◌≤◌, ◌<◌, ◌^◌, ◌==◌, length, IfNone};
ghost use Rattle.dz_quantiser.specs.Bands.{planes_of};
ghost use Rattle.cine_nums.specs.Bytes.{word_at};
ghost use Rattle.cine_nums.specs.Faults.{first_fault};
ghost use Rattle.cinema_markers.specs.Reading.{IsWhole};
ghost use Rattle.cinema_markers.specs.Tables.{qcd_rows, band_row, bands_rows};

use crate::refusal::MarkerRefusal;
use cine_nums::word_at;

/// The fields of QCD at a place.
#[tactic(auto, unfolding(crate::specs::Tables::qcd_rows))]
pub fn qcd_fault(bytes: &[u8], at: u32) -> Option<MarkerRefusal>
    requires places { length bytes.now < 2 ^ 32 }
    requires inside { at + 2 + word_at bytes.now (at + 2) ≤ length bytes.now }
    requires room { at + 4 ≤ length bytes.now }
    ensures value { result ≡ first_fault (qcd_rows bytes.now at) }
    ensures long { IfNone result (5 ≤ word_at bytes.now (at + 2)) }
{
    let place = at as usize;
    let length = word_at(bytes, place + 2);
    if length < 5 || length % 2 == 0 {
        return Some(MarkerRefusal::BadQcd(at + 2));
    }
    let style = bytes[place + 4] % 32;
    if style > 2 {
        return Some(MarkerRefusal::BadQcd(at + 4));
    }
    if style < 2 {
        return Some(MarkerRefusal::OutsideProfile(at + 4, 14));
    }
    None
}

/// Whether a band with this exponent has no plane.
fn has_no_plane(guard: u32, exponent: u32) -> bool
    requires small { exponent + guard < 256 }
    ensures { result ≡ (planes_of guard exponent == 0) }
{
    guard + exponent < 2
}

/// The planes of the bands of QCD at a place, and its length.
#[tactic(auto, using(crate::proofs::RowRules::ranges), unfolding(crate::specs::Tables::bands_rows))]
pub fn bands_fault(bytes: &[u8], levels: u8, qcd: u32) -> Option<MarkerRefusal>
    requires places { length bytes.now < 2 ^ 32 }
    requires whole { IsWhole bytes.now 5 qcd }
    ensures { result ≡ first_fault (bands_rows bytes.now levels qcd) }
{
    let place = qcd as usize;
    if u32::from(word_at(bytes, place + 2)) != 5 + 6 * u32::from(levels) {
        return Some(MarkerRefusal::BadQcd(qcd));
    }
    let guard = u32::from(bytes[place + 4]) / 32;
    let count = 3 * u32::from(levels) + 1;
    for i in 0..count {
        let exponent = u32::from(word_at(bytes, (qcd + (5 + 2 * i)) as usize)) / 2048;
        if has_no_plane(guard, exponent) {
            return Some(MarkerRefusal::BadQcd(qcd));
        }
    }
    None
}
