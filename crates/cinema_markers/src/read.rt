// Reading a main header.
ghost use Rattle.std.specs.Prelude.{◌≡◌, ◌+◌, ◌≤◌, ◌<◌, ◌^◌, ℕ, Ok, Err, List, length, Option};
ghost use Rattle.std.specs.Prelude.{None, Some, IfOk, IfErr, IfNone, IfSome, MatchResult};
ghost use Rattle.std.specs.Prelude.{MatchOption};
ghost use Rattle.cine_nums.specs.Bytes.{word_at};
ghost use Rattle.cine_nums.specs.Faults.{first_fault};
ghost use Rattle.cinema_markers.specs.Tables.{next_rows, noted, end_rows};
ghost use Rattle.cinema_markers.specs.Reading.{AreWhole, EndsAt, HasFault, IsEnd, IsReadable};
ghost use Rattle.cinema_markers.specs.Reading.{Passed};
ghost use Rattle.cinema_markers.specs.Value.{IsRead};
ghost use Rattle.cinema_markers.specs.Words.{HasMain};
ghost use Rattle.cinema_markers.specs.declared.header.MainRead.{MainRead};
ghost use Rattle.cinema_markers.specs.declared.found.Found.{Found};
ghost use Rattle.cinema_markers.specs.declared.refusal.MarkerRefusal.{MarkerRefusal};

use crate::found::Found;
use crate::header::MainRead;
use crate::marker::{field_fault, marker_fault, missing_fault, room_fault, soc_fault};
use crate::poc::change_fault;
use crate::qcd::bands_fault;
use crate::refusal::MarkerRefusal;
use crate::siz::{is_four_k, profile};
use crate::value::main_at;
use cine_nums::word_at;

/// What is judged where SOT stands.
#[tactic(auto, using(crate::proofs::RowRules::tables), unfolding(crate::specs::Tables::end_rows))]
fn end_fault(bytes: &[u8], found: Found, at: u32) -> Option<MarkerRefusal>
    requires places { length bytes.now < 2 ^ 32 }
    requires whole { AreWhole bytes.now found }
    ensures { result ≡ first_fault (end_rows bytes.now found at) }
{
    if let Some(fault) = missing_fault(bytes, found, at) {
        return Some(fault);
    }
    let levels = bytes[found.cod.unwrap_or(0) as usize + 9];
    if let Some(fault) = bands_fault(bytes, levels, found.qcd.unwrap_or(0)) {
        return Some(fault);
    }
    if is_four_k(profile(bytes, found.siz)) {
        return change_fault(bytes, levels, found.poc.unwrap_or(0));
    }
    None
}

/// The places with that of one segment more.
fn noted(found: Found, marker: u16, at: u32) -> Found
    ensures { result ≡ noted found marker at }
{
    let mut noted = found;
    match marker {
        0xFF51 => noted.siz = Some(at),
        0xFF52 => noted.cod = Some(at),
        0xFF5C => noted.qcd = Some(at),
        0xFF5F => noted.poc = Some(at),
        0xFF55 => noted.tlm = Some(at),
        _ => {}
    }
    noted
}

/// What stands at a place after the segments that were found: SOT, or a segment, and the place
/// after it.
#[tactic(auto, using(crate::proofs::RowRules::tables), unfolding(crate::specs::Tables::next_rows))]
fn next(bytes: &[u8], found: Found, at: u32) -> Result<Option<u32>, MarkerRefusal>
    requires places { length bytes.now < 2 ^ 32 }
    requires whole { AreWhole bytes.now found }
    ensures fault { IfErr result (λ e. first_fault (next_rows bytes.now found at) ≡ Some e) }
    ensures end { IfOk result (λ o. IfNone o (IsEnd bytes.now found at)) }
    ensures next { IfOk result (λ o. IfSome o (Passed bytes.now found at)) }
    ensures whole { IfOk result (λ o. IfSome o (λ to.
        AreWhole bytes.now (noted found (word_at bytes.now at) at))) }
    ensures inside { IfOk result (λ o. IfSome o (λ to. to ≤ length bytes.now)) }
    ensures on { IfOk result (λ o. IfSome o (λ to. at < to)) }
{
    if let Some(fault) = marker_fault(bytes, found, at) {
        return Err(fault);
    }
    if word_at(bytes, at as usize) == 0xFF90 {
        return match end_fault(bytes, found, at) {
            Some(fault) => Err(fault),
            None => Ok(None),
        };
    }
    if let Some(fault) = room_fault(bytes, at) {
        return Err(fault);
    }
    if let Some(fault) = field_fault(bytes, at, profile(bytes, found.siz)) {
        return Err(fault);
    }
    Ok(Some(at + 2 + u32::from(word_at(bytes, at as usize + 2))))
}

/// Reads a main header (ISO/IEC 15444-1, Annex A), which begins at the first byte and ends where a
/// marker SOT stands in a marker's place.
///
/// After SOC and SIZ the segments COD, QCD, TLM, and for 4K POC, stand once each and in any order,
/// and any number of COM between them. Levels are 0 to 5 for 2K and 1 to 6 for 4K, the tile may be
/// larger than the frame, and TLM has any of its four layouts. The bytes are fewer than 2^32.
///
/// Refused is the first fault in the order of reading. Of a marker: `SegmentTruncated` where the
/// bytes end inside it, `UnexpectedMarker` where the first one after SOC is not SIZ,
/// `OutsideProfile` of COC, QCC, RGN, PPM, PLM and CRG (features 1 to 6), `UnexpectedMarker` of any
/// other that is none of SIZ, COD, QCD, POC, TLM, COM and SOT, and of POC in 2K, `Repeated`. Of its
/// segment: `SegmentTruncated` where the bytes end inside it or its length is below 2, and then its
/// fields, in the order of the tables of `specs/Tables.antt`. At SOT: `Missing`, `BadQcd` where the
/// steps don't fit the levels or a band has no magnitude bit-plane, `BadPoc` where the changes are
/// not those of the profile.
pub fn read_main(bytes: &[u8]) -> Result<MainRead, MarkerRefusal>
    requires { length bytes.now < 2 ^ 32 }
    // A header is returned exactly where the bytes begin with one, and it is the only one.
    ensures found { IfOk result (HasMain bytes.now) }
    ensures reads { (read : MainRead) → HasMain bytes.now read → result ≡ Ok read }
    // Each fault is returned exactly where it is the first.
    ensures refused { IfErr result (HasFault bytes.now) }
    ensures faults { (fault : MarkerRefusal) → HasFault bytes.now fault → result ≡ Err fault }
{
    read_found(bytes)
}

/// Reads the header at the places of its segments.
fn read_found(bytes: &[u8]) -> Result<MainRead, MarkerRefusal>
    requires { length bytes.now < 2 ^ 32 }
    ensures { MatchResult result (IsRead bytes.now) (HasFault bytes.now) }
{
    let (found, at) = walk(bytes)?;
    Ok(main_at(bytes, found, at))
}

/// Goes over the segments up to SOT, and returns where they are, and the place of SOT.
fn walk(bytes: &[u8]) -> Result<(Found, u32), MarkerRefusal>
    requires places { length bytes.now < 2 ^ 32 }
    ensures cases { MatchResult result (λ r. EndsAt bytes.now r.0 r.1) (HasFault bytes.now) }
    ensures readable { IfOk result (λ r. IsReadable bytes.now r.0) }
{
    go_over(bytes)
}

/// The loop over the segments.
fn go_over(bytes: &[u8]) -> Result<(Found, u32), MarkerRefusal>
    requires places { length bytes.now < 2 ^ 32 }
    ensures cases { MatchResult result (λ r. EndsAt bytes.now r.0 r.1) (HasFault bytes.now) }
{
    if let Some(fault) = soc_fault(bytes) {
        return Err(fault);
    }
    let mut found = Found {
        siz: None,
        cod: None,
        qcd: None,
        poc: None,
        tlm: None,
    };
    let mut at = 2;
    while let Some(to) = next(bytes, found, at)? {
        found = noted(found, word_at(bytes, at as usize), at);
        at = to;
    }
    Ok((found, at))
}
