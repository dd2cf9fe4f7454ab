// Reading the head of a tile-part.
ghost use Rattle.std.specs.Prelude.{◌≡◌, ◌+◌, ◌≤◌, ◌<◌, ◌^◌, ℕ, length, slice_range};
ghost use Rattle.std.specs.Prelude.{None, Some, Ok, Err, IfOk, IfErr, MatchResult};
ghost use Rattle.cine_nums.specs.Bytes.{long_at};
ghost use Rattle.cine_nums.specs.Faults.{first_fault};
ghost use Rattle.tile_parts.specs.Head.{part_head_of, part_head_bytes};
ghost use Rattle.tile_parts.specs.Spelling.{Spells};
ghost use Rattle.tile_parts.specs.Refusals.{sot_rows, marker_rows, StandUpTo, IsRefused};
ghost use Rattle.tile_parts.specs.Inside.{sot_at, IsSod, Stands};
ghost use Rattle.tile_parts.specs.declared.refusal.PartRefusal.{PartRefusal};
ghost use Rattle.tile_parts.specs.declared.part.Part.{Part};

use crate::refusal::PartRefusal;
use cine_nums::{long_at, word_at};

const SOT: u16 = 0xFF90;

const SOD: u16 = 0xFF93;

const COM: u16 = 0xFF64;

const PLT: u16 = 0xFF58;

/// A tile-part of a string of bytes. Places are counted from the first byte of the whole, from 0.
#[derive(Clone, Copy, Debug, PartialEq, Eq)]
pub struct Part {
    /// Its bytes, from the marker SOT on.
    pub length: u32,
    /// The place of the first byte of its body, after SOD.
    pub body: u32,
    /// The place after its last byte.
    pub stop: u32,
}

/// Reads the head of the tile-part at the place `at`, which has to be the `index`-th, from 0 on, of
/// `count`: the segment SOT, then any number of segments COM and PLT, and SOD (ISO/IEC 15444-1,
/// A.4.2, A.4.3, A.7.3, A.9.2). There are fewer than 2^32 bytes.
///
/// Refused is the first fault, in this order:
/// - `BadTilePart` where fewer than 12 bytes are left, there is no marker SOT, Lsot is not 10, or
///   Isot is not 0 (places `at`, `at`, `at + 2`, `at + 4`);
/// - `PsotZero` where Psot is 0 (`at + 6`);
/// - `BadTilePart` where Psot is below 14 or reaches past the bytes (`at + 6`), TPsot is not
///   `index` (`at + 10`), or TNsot is neither `count` nor 0 (`at + 11`);
/// - then marker by marker up to SOD, with the place of that marker: `TilePartMarker` where it is
///   none of COM, PLT and SOD, and `BadTilePart` where the marker or its segment ends past the end
///   of the tile-part or the segment's length is below 2.
pub fn read_part(bytes: &[u8], at: u32, index: u8, count: u8) -> Result<Part, PartRefusal>
    requires inside { at ≤ length bytes.now }
    requires places { length bytes.now < 2 ^ 32 }
    // It is a part exactly where the bytes spell one.
    ensures spelled { IfOk result (Spells bytes.now at index count) }
    ensures spells { (part : Part) → Spells bytes.now at index count part → result ≡ Ok part }
    // Each refusal comes exactly where it is the first fault.
    ensures refused { IfErr result (IsRefused bytes.now at index count) }
    ensures faults { (fault : PartRefusal) → IsRefused bytes.now at index count fault →
        result ≡ Err fault }
    // The writer's head is read back, whatever follows it.
    ensures read_back { (size : ℕ) → part_head_bytes ≤ size → at + size ≤ length bytes.now →
        slice_range bytes.now at (at + part_head_bytes) ≡ part_head_of size index count →
        result ≡ Ok (record { length = size; body = at + part_head_bytes; stop = at + size }) }
{
    read_head(bytes, at, index, count)
}

/// Reads the head: a part, or the first fault.
fn read_head(bytes: &[u8], at: u32, index: u8, count: u8) -> Result<Part, PartRefusal>
    requires inside { at ≤ length bytes.now }
    requires places { length bytes.now < 2 ^ 32 }
    ensures { MatchResult result (Spells bytes.now at index count)
        (IsRefused bytes.now at index count) }
{
    if bytes.len() < at as usize + 12 {
        return Err(PartRefusal::BadTilePart(at));
    }
    let length = read_sot(bytes, at, index, count)?;
    let stop = at + length;
    let sod = find_sod(bytes, at + 12, stop)?;
    Ok(Part {
        length,
        body: sod + 2,
        stop,
    })
}

/// Reads the segment SOT, and returns Psot.
fn read_sot(bytes: &[u8], at: u32, index: u8, count: u8) -> Result<u32, PartRefusal>
    requires room { at + 12 ≤ length bytes.now }
    requires places { length bytes.now < 2 ^ 32 }
    ensures psot { IfOk result (λ psot. psot ≡ long_at bytes.now (at + 6)) }
    ensures ok { IfOk result (λ psot.
        first_fault (sot_rows at (length bytes.now) index count (sot_at bytes.now at)) ≡ None) }
    ensures inside { IfOk result (λ psot. at + psot ≤ length bytes.now) }
    ensures some { IfOk result (λ psot. 14 ≤ psot) }
    ensures fault { IfErr result (λ e.
        first_fault (sot_rows at (length bytes.now) index count (sot_at bytes.now at)) ≡ Some e) }
{
    let place = at as usize;
    if word_at(bytes, place) != SOT {
        return Err(PartRefusal::BadTilePart(at));
    }
    if word_at(bytes, place + 2) != 10 {
        return Err(PartRefusal::BadTilePart(at + 2));
    }
    if word_at(bytes, place + 4) != 0 {
        return Err(PartRefusal::BadTilePart(at + 4));
    }
    let psot = long_at(bytes, place + 6);
    if psot == 0 {
        return Err(PartRefusal::PsotZero(at + 6));
    }
    if psot < 14 || bytes.len() < place + psot as usize {
        return Err(PartRefusal::BadTilePart(at + 6));
    }
    if bytes[place + 10] != index {
        return Err(PartRefusal::BadTilePart(at + 10));
    }
    if bytes[place + 11] != count && bytes[place + 11] != 0 {
        return Err(PartRefusal::BadTilePart(at + 11));
    }
    Ok(psot)
}

/// Passes over the segments from a place on, and returns the place of SOD.
fn find_sod(bytes: &[u8], from: u32, stop: u32) -> Result<u32, PartRefusal>
    requires inside { stop ≤ length bytes.now }
    requires some { from + 2 ≤ stop }
    ensures stand { IfOk result (λ to. StandUpTo bytes.now from to) }
    ensures sod { IfOk result (λ to. IsSod bytes.now to stop) }
    ensures fault { IfErr result (λ e. (to : ℕ) × StandUpTo bytes.now from to × (to ≤ stop)
        × (first_fault (marker_rows bytes.now to stop) ≡ Some e)) }
{
    let mut at = from;
    while let Some(next) = marker(bytes, at, stop)? {
        at = next;
    }
    Ok(at)
}

/// What stands in a marker's place: SOD, or a segment to pass over and the place after it.
fn marker(bytes: &[u8], at: u32, stop: u32) -> Result<Option<u32>, PartRefusal>
    requires inside { stop ≤ length bytes.now }
    requires place { at ≤ stop }
    ensures found { IfOk result (Stands bytes.now at stop) }
    ensures fault { IfErr result (λ e. first_fault (marker_rows bytes.now at stop) ≡ Some e) }
{
    let place = at as usize;
    if stop - at < 2 {
        return Err(PartRefusal::BadTilePart(at));
    }
    let marker = word_at(bytes, place);
    if marker == SOD {
        return Ok(None);
    }
    if marker != COM && marker != PLT {
        return Err(PartRefusal::TilePartMarker(at, marker));
    }
    if stop - at < 4 {
        return Err(PartRefusal::BadTilePart(at));
    }
    let length = u32::from(word_at(bytes, place + 2));
    if length < 2 || stop - at - 2 < length {
        return Err(PartRefusal::BadTilePart(at));
    }
    Ok(Some(at + 2 + length))
}

#[cfg(test)]
mod tests {
    use super::*;
    use crate::head::part_head;

    #[test]
    fn written_heads_are_read_back(rt: HostRuntime) {
        let head = part_head(24, 0, 3);
        assert_eq!(rt;
            head,
            [0xFF, 0x90, 0, 0x0A, 0, 0, 0, 0, 0, 24, 0, 3, 0xFF, 0x93]
        );
        let read = read_part(&head, 0, 0, 3);
        assert_eq!(rt; read, Err(PartRefusal::BadTilePart(6)));
        let alone = part_head(14, 2, 6);
        let part = Part {
            length: 14,
            body: 14,
            stop: 14,
        };
        assert_eq!(rt; read_part(&alone, 0, 2, 6), Ok(part));
    }

    #[test]
    fn comments_and_packet_lengths_are_passed_over(rt: HostRuntime) {
        let bytes = [
            0xFF, 0x90, 0, 10, 0, 0, 0, 0, 0, 27, 1, 0, 0xFF, 0x64, 0, 3, 7, 0xFF, 0x58, 0, 4, 0,
            1, 0xFF, 0x93, 9, 9,
        ];
        let part = Part {
            length: 27,
            body: 25,
            stop: 27,
        };
        assert_eq!(rt; read_part(&bytes, 0, 1, 3), Ok(part));
    }

    #[test]
    fn hostile_heads_are_refused(rt: HostRuntime) {
        let mut bytes = part_head(0, 0, 3);
        assert_eq!(rt; read_part(&bytes, 0, 0, 3), Err(PartRefusal::PsotZero(6)));
        bytes[9] = 13;
        assert_eq!(rt;
            read_part(&bytes, 0, 0, 3),
            Err(PartRefusal::BadTilePart(6))
        );
        bytes[9] = 14;
        assert_eq!(rt;
            read_part(&bytes, 0, 1, 3),
            Err(PartRefusal::BadTilePart(10))
        );
        assert_eq!(rt;
            read_part(&bytes, 0, 0, 6),
            Err(PartRefusal::BadTilePart(11))
        );
        assert_eq!(rt;
            read_part(&bytes, 3, 0, 3),
            Err(PartRefusal::BadTilePart(3))
        );
        bytes[13] = 0x52;
        assert_eq!(rt;
            read_part(&bytes, 0, 0, 3),
            Err(PartRefusal::TilePartMarker(12, 0xFF52))
        );
        bytes[13] = 0x64;
        assert_eq!(rt;
            read_part(&bytes, 0, 0, 3),
            Err(PartRefusal::BadTilePart(12))
        );
    }
}
