// What is judged of TLM.
ghost use Rattle.std.specs.Prelude.{◌≡◌, ◌+◌, ◌*◌, ◌≤◌, ◌<◌, ◌^◌, ◌++◌, length, slice_index};
ghost use Rattle.std.specs.Prelude.{IfNone};
ghost use Rattle.cine_nums.specs.Bytes.{word_at};
ghost use Rattle.cine_nums.specs.Faults.{first_fault};
ghost use Rattle.cine_nums.specs.Profile.{parts_of};
ghost use Rattle.cinema_markers.specs.Tables.{tlm_rows, tile_row, tile_rows, entry_place};
ghost use Rattle.cinema_markers.specs.Tables.{index_size, length_size, entry_size, index_at};

use crate::refusal::MarkerRefusal;
use cine_nums::{Profile, word_at};

/// The bytes of an entry of TLM: of its tile's index.
pub fn index_size(stlm: u8) -> u32
    ensures { result ≡ index_size stlm }
{
    if stlm == 0x20 || stlm == 0x60 { 2 } else { 1 }
}

/// And of its length.
pub fn length_size(stlm: u8) -> u32
    ensures { result ≡ length_size stlm }
{
    if stlm == 0x50 || stlm == 0x60 { 4 } else { 2 }
}

/// The fields of TLM at a place, up to its entries.
#[tactic(auto, unfolding(crate::specs::Tables::tlm_rows))]
fn tlm_fault(bytes: &[u8], at: u32, profile: Profile) -> Option<MarkerRefusal>
    requires places { length bytes.now < 2 ^ 32 }
    requires inside { at + 2 + word_at bytes.now (at + 2) ≤ length bytes.now }
    requires room { at + 4 ≤ length bytes.now }
    ensures value { result ≡ first_fault (tlm_rows profile bytes.now at) }
    ensures long { IfNone result (word_at bytes.now (at + 2)
        ≡ 4 + parts_of profile * entry_size (slice_index bytes.now (at + 5))) }
{
    let place = at as usize;
    let length = word_at(bytes, place + 2);
    if length < 4 {
        return Some(MarkerRefusal::BadTlm(at + 2));
    }
    let stlm = bytes[place + 5];
    if stlm != 0x10 && stlm != 0x20 && stlm != 0x50 && stlm != 0x60 {
        return Some(MarkerRefusal::BadTlm(at + 5));
    }
    if u32::from(length)
        != 4 + u32::from(profile.parts()) * (index_size(stlm) + length_size(stlm))
    {
        return Some(MarkerRefusal::BadTlm(at + 2));
    }
    None
}

/// The index of a tile of TLM at a place.
fn index(stlm: u8, bytes: &[u8], at: usize) -> u16
    requires { at + index_size stlm ≤ length bytes.now }
    ensures { result ≡ index_at stlm bytes.now at }
{
    if stlm == 0x20 || stlm == 0x60 {
        word_at(bytes, at)
    } else {
        u16::from(bytes[at])
    }
}

/// The place of an entry of TLM.
pub fn entry_place(at: u32, stlm: u8, i: u32) -> u32
    requires few { i ≤ 6 }
    requires inside { at + (6 + i * entry_size stlm) < 2 ^ 32 }
    ensures { result ≡ entry_place at stlm i }
{
    let size = index_size(stlm) + length_size(stlm);
    at + (6 + i * size)
}

/// The indexes of tiles of TLM at a place.
#[tactic(auto, using(crate::proofs::RowRules::ranges), unfolding(crate::specs::Tables::tile_rows))]
fn tile_fault(bytes: &[u8], at: u32, profile: Profile) -> Option<MarkerRefusal>
    requires places { length bytes.now < 2 ^ 32 }
    requires inside { at + (6 + parts_of profile * entry_size (slice_index bytes.now (at + 5)))
        ≤ length bytes.now }
    ensures { result ≡ first_fault (tile_rows profile bytes.now at) }
{
    let stlm = bytes[at as usize + 5];
    let parts = u32::from(profile.parts());
    for i in 0..parts {
        let place = entry_place(at, stlm, i);
        if index(stlm, bytes, place as usize) != 0 {
            return Some(MarkerRefusal::BadTlm(place));
        }
    }
    None
}

/// All of TLM at a place.
#[tactic(auto, using(crate::proofs::RowRules::tables))]
pub fn whole_tlm_fault(bytes: &[u8], at: u32, profile: Profile) -> Option<MarkerRefusal>
    requires places { length bytes.now < 2 ^ 32 }
    requires inside { at + 2 + word_at bytes.now (at + 2) ≤ length bytes.now }
    requires room { at + 4 ≤ length bytes.now }
    ensures value { result ≡ first_fault
        (tlm_rows profile bytes.now at ++ tile_rows profile bytes.now at) }
{
    match tlm_fault(bytes, at, profile) {
        Some(fault) => Some(fault),
        None => tile_fault(bytes, at, profile),
    }
}
