// What is judged of POC.
ghost use Rattle.std.specs.Prelude.{◌≡◌, ◌+◌, ◌≤◌, ◌<◌, ◌^◌, length, IfNone};
ghost use Rattle.cine_nums.specs.Bytes.{word_at};
ghost use Rattle.cine_nums.specs.Faults.{first_fault};
ghost use Rattle.cinema_markers.specs.Reading.{IsWhole};
ghost use Rattle.cinema_markers.specs.Tables.{poc_rows, is_change, change_rows};

use crate::refusal::MarkerRefusal;
use cine_nums::{PROGRESSION, word_at};

/// The fields of POC at a place.
#[tactic(auto, unfolding(crate::specs::Tables::poc_rows))]
pub fn poc_fault(bytes: &[u8], at: u32) -> Option<MarkerRefusal>
    requires places { length bytes.now < 2 ^ 32 }
    requires room { at + 4 ≤ length bytes.now }
    ensures value { result ≡ first_fault (poc_rows bytes.now at) }
    ensures long { IfNone result (word_at bytes.now (at + 2) ≡ 16) }
{
    if word_at(bytes, at as usize + 2) != 16 {
        return Some(MarkerRefusal::BadPoc(at + 2));
    }
    None
}

/// Whether a change of POC at a place is this one.
fn is_change(bytes: &[u8], at: usize, from: u32, to: u32) -> bool
    requires { at + 7 ≤ length bytes.now }
    ensures { result ≡ is_change bytes.now at from to }
{
    u32::from(bytes[at]) == from
        && bytes[at + 1] == 0
        && word_at(bytes, at + 2) == 1
        && u32::from(bytes[at + 4]) == to
        && bytes[at + 5] == 3
        && bytes[at + 6] == PROGRESSION
}

/// The changes of POC at a place.
#[tactic(auto, unfolding(crate::specs::Tables::change_rows))]
pub fn change_fault(bytes: &[u8], levels: u8, poc: u32) -> Option<MarkerRefusal>
    requires places { length bytes.now < 2 ^ 32 }
    requires whole { IsWhole bytes.now 16 poc }
    ensures { result ≡ first_fault (change_rows bytes.now levels poc) }
{
    let levels = u32::from(levels);
    let place = poc as usize;
    if !is_change(bytes, place + 4, 0, levels) {
        return Some(MarkerRefusal::BadPoc(poc));
    }
    if !is_change(bytes, place + 11, levels, levels + 1) {
        return Some(MarkerRefusal::BadPoc(poc));
    }
    None
}
