// What is judged of a marker and of the room of its segment.
ghost use Rattle.std.specs.Prelude.{◌≡◌, ◌+◌, ◌≤◌, ◌<◌, ◌^◌, length, IfNone, IsSome, IsTrue};
ghost use Rattle.std.specs.Option.{unwrap_or};
ghost use Rattle.cine_nums.specs.Bytes.{word_at};
ghost use Rattle.cine_nums.specs.Faults.{first_fault};
ghost use Rattle.cine_nums.specs.Profile.{is_four_k};
ghost use Rattle.cinema_markers.specs.Tables.{soc_rows, feature_of, is_allowed, profile_at};
ghost use Rattle.cinema_markers.specs.Tables.{marker_rows, missing_rows, room_rows, field_rows};

use crate::cod::whole_cod_fault;
use crate::found::Found;
use crate::poc::poc_fault;
use crate::qcd::qcd_fault;
use crate::refusal::MarkerRefusal;
use crate::siz::{is_four_k, profile, siz_fault};
use crate::tlm::whole_tlm_fault;
use cine_nums::{Profile, word_at};

/// The start.
#[tactic(auto, unfolding(crate::specs::Tables::soc_rows))]
pub fn soc_fault(bytes: &[u8]) -> Option<MarkerRefusal>
    requires places { length bytes.now < 2 ^ 32 }
    ensures value { result ≡ first_fault (soc_rows bytes.now) }
    ensures inside { IfNone result (2 ≤ length bytes.now) }
{
    if bytes.len() < 2 {
        return Some(MarkerRefusal::SegmentTruncated(bytes.len() as u32));
    }
    if word_at(bytes, 0) != 0xFF4F {
        return Some(MarkerRefusal::NotSoc(0));
    }
    None
}

/// The room of the segment at a place.
#[tactic(auto, unfolding(crate::specs::Tables::room_rows))]
pub fn room_fault(bytes: &[u8], at: u32) -> Option<MarkerRefusal>
    requires places { length bytes.now < 2 ^ 32 }
    requires inside { at + 2 ≤ length bytes.now }
    ensures value { result ≡ first_fault (room_rows bytes.now at) }
    ensures room { IfNone result (at + 4 ≤ length bytes.now) }
    ensures inside { IfNone result (at + 2 + word_at bytes.now (at + 2) ≤ length bytes.now) }
{
    let place = at as usize;
    if bytes.len() < place + 4 {
        return Some(MarkerRefusal::SegmentTruncated(bytes.len() as u32));
    }
    let length = word_at(bytes, place + 2);
    if length < 2 {
        return Some(MarkerRefusal::SegmentTruncated(at + 2));
    }
    if bytes.len() < place + 2 + usize::from(length) {
        return Some(MarkerRefusal::SegmentTruncated(bytes.len() as u32));
    }
    None
}

/// The feature that a marker stands for, or 0.
fn feature(marker: u16) -> u8
    ensures { result ≡ feature_of marker }
{
    match marker {
        0xFF53 => 1,
        0xFF5D => 2,
        0xFF5E => 3,
        0xFF60 => 4,
        0xFF57 => 5,
        0xFF63 => 6,
        _ => 0,
    }
}

/// Whether a marker may stand in a main header.
fn is_allowed(marker: u16) -> bool
    ensures { result ≡ is_allowed marker }
{
    marker == 0xFF51
        || marker == 0xFF52
        || marker == 0xFF5C
        || marker == 0xFF5F
        || marker == 0xFF55
        || marker == 0xFF64
        || marker == 0xFF90
}

/// The marker at a place, after the segments that were found.
#[tactic(auto, unfolding(crate::specs::Tables::marker_rows))]
pub fn marker_fault(bytes: &[u8], found: Found, at: u32) -> Option<MarkerRefusal>
    requires places { length bytes.now < 2 ^ 32 }
    requires siz { IsSome found.siz → unwrap_or found.siz 0 + 6 ≤ length bytes.now }
    ensures value { result ≡ first_fault (marker_rows bytes.now found at) }
    ensures inside { IfNone result (at + 2 ≤ length bytes.now) }
{
    if bytes.len() < at as usize + 2 {
        return Some(MarkerRefusal::SegmentTruncated(bytes.len() as u32));
    }
    let marker = word_at(bytes, at as usize);
    if found.siz.is_none() && marker != 0xFF51 {
        return Some(MarkerRefusal::UnexpectedMarker(at));
    }
    let feature = feature(marker);
    if feature != 0 {
        return Some(MarkerRefusal::OutsideProfile(at, feature));
    }
    if !is_allowed(marker) {
        return Some(MarkerRefusal::UnexpectedMarker(at));
    }
    let four_k = is_four_k(profile(bytes, found.siz));
    if marker == 0xFF5F && !four_k {
        return Some(MarkerRefusal::UnexpectedMarker(at));
    }
    if marker == 0xFF51 && found.siz.is_some() {
        return Some(MarkerRefusal::Repeated(at));
    }
    if marker == 0xFF52 && found.cod.is_some() {
        return Some(MarkerRefusal::Repeated(at));
    }
    if marker == 0xFF5C && found.qcd.is_some() {
        return Some(MarkerRefusal::Repeated(at));
    }
    if marker == 0xFF5F && found.poc.is_some() {
        return Some(MarkerRefusal::Repeated(at));
    }
    if marker == 0xFF55 && found.tlm.is_some() {
        return Some(MarkerRefusal::Repeated(at));
    }
    None
}

/// What is missing where the header ends.
#[tactic(auto, unfolding(crate::specs::Tables::missing_rows))]
pub fn missing_fault(bytes: &[u8], found: Found, at: u32) -> Option<MarkerRefusal>
    requires places { length bytes.now < 2 ^ 32 }
    requires siz { IsSome found.siz → unwrap_or found.siz 0 + 6 ≤ length bytes.now }
    ensures value { result ≡ first_fault (missing_rows bytes.now found at) }
    ensures cod { IfNone result (IsSome found.cod) }
    ensures qcd { IfNone result (IsSome found.qcd) }
    ensures poc { IfNone result (IsTrue (is_four_k (profile_at bytes.now found.siz)) →
        IsSome found.poc) }
{
    if found.cod.is_none() {
        return Some(MarkerRefusal::Missing(at, 0xFF52));
    }
    if found.qcd.is_none() {
        return Some(MarkerRefusal::Missing(at, 0xFF5C));
    }
    let four_k = is_four_k(profile(bytes, found.siz));
    if four_k && found.poc.is_none() {
        return Some(MarkerRefusal::Missing(at, 0xFF5F));
    }
    if found.tlm.is_none() {
        return Some(MarkerRefusal::Missing(at, 0xFF55));
    }
    None
}

/// The fields of the segment at a place, by its marker.
#[tactic(auto, unfolding(crate::specs::Tables::field_rows))]
pub fn field_fault(bytes: &[u8], at: u32, profile: Profile) -> Option<MarkerRefusal>
    requires places { length bytes.now < 2 ^ 32 }
    requires inside { at + 2 + word_at bytes.now (at + 2) ≤ length bytes.now }
    requires room { at + 4 ≤ length bytes.now }
    ensures value { result ≡ first_fault (field_rows profile bytes.now at) }
    ensures siz { IfNone result (word_at bytes.now at ≡ 0xFF51 → 47 ≤ word_at bytes.now (at + 2)) }
    ensures cod { IfNone result (word_at bytes.now at ≡ 0xFF52 → 12 ≤ word_at bytes.now (at + 2)) }
    ensures qcd { IfNone result (word_at bytes.now at ≡ 0xFF5C → 5 ≤ word_at bytes.now (at + 2)) }
    ensures poc { IfNone result (word_at bytes.now at ≡ 0xFF5F → 16 ≤ word_at bytes.now (at + 2)) }
{
    let marker = word_at(bytes, at as usize);
    if marker == 0xFF51 {
        return siz_fault(bytes, at);
    }
    if marker == 0xFF52 {
        return whole_cod_fault(bytes, at, profile);
    }
    if marker == 0xFF5C {
        return qcd_fault(bytes, at);
    }
    if marker == 0xFF5F {
        return poc_fault(bytes, at);
    }
    if marker == 0xFF55 {
        return whole_tlm_fault(bytes, at, profile);
    }
    None
}
