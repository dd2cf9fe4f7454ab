// What is judged of SIZ, and the profile that it gives.
ghost use Rattle.std.specs.Prelude.{◌≡◌, ◌+◌, ◌≤◌, ◌<◌, ◌^◌, length, IfNone, IsSome};
ghost use Rattle.std.specs.Option.{unwrap_or};
ghost use Rattle.cine_nums.specs.Bytes.{word_at};
ghost use Rattle.cine_nums.specs.Faults.{first_fault};
ghost use Rattle.cine_nums.specs.Profile.{is_four_k};
ghost use Rattle.cinema_markers.specs.Tables.{profile_with, profile_at, siz_rows, siz_size_rows};
ghost use Rattle.cinema_markers.specs.Tables.{siz_place_rows, siz_component_rows};

use crate::refusal::MarkerRefusal;
use cine_nums::{Profile, long_at, word_at};

/// Whether a profile is that of 4K, whose headers have POC.
pub fn is_four_k(profile: Profile) -> bool
    ensures { result ≡ is_four_k profile }
{
    matches!(profile, Profile::FourK)
}

/// The profile of Rsiz, which is 3 or 4.
fn profile_with(rsiz: u16) -> Profile
    ensures { result ≡ profile_with rsiz }
{
    if rsiz == 3 {
        Profile::TwoK
    } else {
        Profile::FourK
    }
}

/// The profile of a header whose SIZ is found, and any where it is not.
pub fn profile(bytes: &[u8], siz: Option<u32>) -> Profile
    requires places { length bytes.now < 2 ^ 32 }
    requires inside { IsSome siz → unwrap_or siz 0 + 6 ≤ length bytes.now }
    ensures { result ≡ profile_at bytes.now siz }
{
    match siz {
        None => Profile::TwoK,
        Some(place) => profile_with(word_at(bytes, place as usize + 4)),
    }
}

/// Lsiz, Rsiz, Xsiz and Ysiz.
#[tactic(auto, unfolding(crate::specs::Tables::siz_size_rows))]
fn siz_size_fault(bytes: &[u8], at: u32) -> Option<MarkerRefusal>
    requires places { length bytes.now < 2 ^ 32 }
    requires inside { at + 2 + word_at bytes.now (at + 2) ≤ length bytes.now }
    requires room { at + 4 ≤ length bytes.now }
    ensures value { result ≡ first_fault (siz_size_rows bytes.now at) }
    ensures long { IfNone result (word_at bytes.now (at + 2) ≡ 47) }
{
    let place = at as usize;
    if word_at(bytes, place + 2) != 47 {
        return Some(MarkerRefusal::BadSiz(at + 2));
    }
    let rsiz = word_at(bytes, place + 4);
    if rsiz != 3 && rsiz != 4 {
        return Some(MarkerRefusal::NotCinema(at + 4));
    }
    let profile = profile_with(rsiz);
    let width = long_at(bytes, place + 6);
    if width == 0 {
        return Some(MarkerRefusal::BadSiz(at + 6));
    }
    if width > profile.max_width() {
        return Some(MarkerRefusal::TooLarge(at + 6));
    }
    let height = long_at(bytes, place + 10);
    if height == 0 {
        return Some(MarkerRefusal::BadSiz(at + 10));
    }
    if height > profile.max_height() {
        return Some(MarkerRefusal::TooLarge(at + 10));
    }
    None
}

/// The corner of the image, and the size and the corner of the tile.
#[tactic(auto, unfolding(crate::specs::Tables::siz_place_rows))]
fn siz_place_fault(bytes: &[u8], at: u32) -> Option<MarkerRefusal>
    requires places { length bytes.now < 2 ^ 32 }
    requires inside { at + 49 ≤ length bytes.now }
    ensures { result ≡ first_fault (siz_place_rows bytes.now at) }
{
    let place = at as usize;
    if long_at(bytes, place + 14) != 0 {
        return Some(MarkerRefusal::BadSiz(at + 14));
    }
    if long_at(bytes, place + 18) != 0 {
        return Some(MarkerRefusal::BadSiz(at + 18));
    }
    if long_at(bytes, place + 22) < long_at(bytes, place + 6) {
        return Some(MarkerRefusal::BadSiz(at + 22));
    }
    if long_at(bytes, place + 26) < long_at(bytes, place + 10) {
        return Some(MarkerRefusal::BadSiz(at + 26));
    }
    if long_at(bytes, place + 30) != 0 {
        return Some(MarkerRefusal::BadSiz(at + 30));
    }
    if long_at(bytes, place + 34) != 0 {
        return Some(MarkerRefusal::BadSiz(at + 34));
    }
    None
}

/// Csiz, and Ssiz, XRsiz and YRsiz of each component.
#[tactic(auto, unfolding(crate::specs::Tables::siz_component_rows))]
fn siz_component_fault(bytes: &[u8], at: u32) -> Option<MarkerRefusal>
    requires places { length bytes.now < 2 ^ 32 }
    requires inside { at + 49 ≤ length bytes.now }
    ensures { result ≡ first_fault (siz_component_rows bytes.now at) }
{
    let place = at as usize;
    if word_at(bytes, place + 38) != 3 {
        return Some(MarkerRefusal::BadSiz(at + 38));
    }
    if bytes[place + 40] != 11 {
        return Some(MarkerRefusal::BadSiz(at + 40));
    }
    if bytes[place + 41] != 1 {
        return Some(MarkerRefusal::BadSiz(at + 41));
    }
    if bytes[place + 42] != 1 {
        return Some(MarkerRefusal::BadSiz(at + 42));
    }
    if bytes[place + 43] != 11 {
        return Some(MarkerRefusal::BadSiz(at + 43));
    }
    if bytes[place + 44] != 1 {
        return Some(MarkerRefusal::BadSiz(at + 44));
    }
    if bytes[place + 45] != 1 {
        return Some(MarkerRefusal::BadSiz(at + 45));
    }
    if bytes[place + 46] != 11 {
        return Some(MarkerRefusal::BadSiz(at + 46));
    }
    if bytes[place + 47] != 1 {
        return Some(MarkerRefusal::BadSiz(at + 47));
    }
    if bytes[place + 48] != 1 {
        return Some(MarkerRefusal::BadSiz(at + 48));
    }
    None
}

/// The fields of SIZ at a place.
#[tactic(auto, using(crate::proofs::RowRules::tables), unfolding(crate::specs::Tables::siz_rows))]
pub fn siz_fault(bytes: &[u8], at: u32) -> Option<MarkerRefusal>
    requires places { length bytes.now < 2 ^ 32 }
    requires inside { at + 2 + word_at bytes.now (at + 2) ≤ length bytes.now }
    requires room { at + 4 ≤ length bytes.now }
    ensures value { result ≡ first_fault (siz_rows bytes.now at) }
    ensures long { IfNone result (word_at bytes.now (at + 2) ≡ 47) }
{
    if let Some(fault) = siz_size_fault(bytes, at) {
        return Some(fault);
    }
    if let Some(fault) = siz_place_fault(bytes, at) {
        return Some(fault);
    }
    siz_component_fault(bytes, at)
}
