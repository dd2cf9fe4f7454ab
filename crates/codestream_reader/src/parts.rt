// Reading all tile-parts.
ghost use Rattle.std.specs.Prelude.{◌≡◌, ◌<◌, ◌≤◌, ◌^◌, ◌⊎◌, ℕ, List, length, Err, IfOk, IfErr};
ghost use Rattle.std.specs.Prelude.{MatchResult, get_or};
ghost use Rattle.band_geometry.specs.Numbering.{all_blocks};
ghost use Rattle.cine_nums.specs.Profile.{parts_of};
ghost use Rattle.profile_reader.specs.Reads.{PartsSay};
ghost use Rattle.profile_reader.specs.Words.{PartWhole};
ghost use Rattle.codestream_reader.specs.Spans.{AreReadable, said_of};
ghost use Rattle.codestream_reader.specs.Standing.{PartsStand};
ghost use Rattle.codestream_reader.specs.PartFaults.{PartsFault};
ghost use Rattle.codestream_reader.specs.declared.refusal.ReadRefusal.{ReadRefusal};
ghost use Rattle.codestream_reader.specs.declared.refusal.ReadRefusal.TheVariants.{Memory};

use crate::part::{PartKnown, read_tile_part};
use crate::refusal::ReadRefusal;
use crate::span::BlockSpan;
use band_geometry::Geometry;
use cinema_markers::MainRead;
use packet_order::order;
use std::alloc::Global;

/// Reads the tile-parts that TLM of a main header gives lengths of, one after the other from the
/// end of the main header on. Returns the place after the last one.
///
/// Refused is the first fault, as [`read_tile_part`] refuses it; `Memory` may come in place of any
/// answer.
pub fn read_tile_parts(
    alloc: Global,
    bytes: &[u8],
    read: &MainRead,
    geometry: &Geometry,
    spans: &mut [BlockSpan],
) -> Result<u32, ReadRefusal>
    requires inside { read.now.bytes ≤ length bytes.now }
    requires places { length bytes.now < 2 ^ 32 }
    requires parts { length read.now.main.parts.items ≡ parts_of geometry.now.profile }
    requires parts_at { length read.now.parts_at.items ≡ parts_of geometry.now.profile }
    requires steps { AreReadable geometry.now.levels read.now.main.steps }
    requires spans { length spans.old ≡ length (all_blocks geometry.now) }
    ensures stand { IfOk result (λ to. (ws : List PartWhole) × PartsStand geometry.now
        read.now.main.steps bytes.now read.now.bytes to 0 (length read.now.main.parts.items)
        read.now.main.parts.items ws) }
    ensures inside { IfOk result (λ to. to ≤ length bytes.now) }
    // Whatever tile-parts stand there, they were read, and the spans say what they say.
    ensures reads { (ws : List PartWhole) (to : ℕ) → PartsStand geometry.now
        read.now.main.steps bytes.now read.now.bytes to 0 (length read.now.main.parts.items)
        read.now.main.parts.items ws →
        MatchResult result
        (λ end. (end ≡ to) × PartsSay geometry.now (said_of bytes.now spans.new) 0 ws)
        (λ refusal. refusal ≡ Memory) }
    ensures refused { IfErr result (λ refusal. (refusal ≡ Memory) ⊎ PartsFault geometry.now
        read.now.main.steps bytes.now read.now.bytes read.now.main.parts.items
        read.now.parts_at.items refusal) }
    ensures faults { (refusal : ReadRefusal) → PartsFault geometry.now
        read.now.main.steps bytes.now read.now.bytes read.now.main.parts.items
        read.now.parts_at.items refusal → (result ≡ Err refusal) ⊎ (result ≡ Err Memory) }
    ensures count { length spans.new ≡ length spans.old }
{
    let count = geometry.profile.parts();
    let mut at = read.bytes;
    for index in 0..count {
        let ids = order(alloc, geometry, index)?;
        let known = known_of(read, index, count);
        at = read_tile_part(
            bytes,
            at,
            known,
            geometry,
            &read.main.steps,
            ids.as_slice(),
            spans,
        )?;
    }
    Ok(at)
}

/// What a main header says of a tile-part.
fn known_of(read: &MainRead, index: u8, count: u8) -> PartKnown
    requires size { index < length read.now.main.parts.items }
    requires size_at { index < length read.now.parts_at.items }
    ensures index { result.index ≡ index }
    ensures count { result.count ≡ count }
    ensures size { result.size ≡ get_or read.now.main.parts.items index 0 }
    ensures size_at { result.size_at ≡ get_or read.now.parts_at.items index 0 }
{
    PartKnown {
        index,
        count,
        size: read.main.parts[usize::from(index)],
        size_at: read.parts_at[usize::from(index)],
    }
}
