// What follows the main header of a codestream.
ghost use Rattle.std.specs.Prelude.{◌≡◌, ◌<◌, ◌≤◌, ◌^◌, ◌⊎◌, ℕ, List, length, Err, IfErr, OnOk};
ghost use Rattle.std.specs.Prelude.{MatchResult};
ghost use Rattle.band_geometry.specs.Numbering.{all_blocks};
ghost use Rattle.cine_nums.specs.Profile.{parts_of};
ghost use Rattle.profile_reader.specs.Reads.{PartsSay};
ghost use Rattle.profile_reader.specs.Words.{PartWhole};
ghost use Rattle.codestream_reader.specs.Faults.{RestFault};
ghost use Rattle.codestream_reader.specs.Spans.{AreReadable, said_of};
ghost use Rattle.codestream_reader.specs.Whole.{RestStands};
ghost use Rattle.codestream_reader.specs.declared.refusal.ReadRefusal.{ReadRefusal};
ghost use Rattle.codestream_reader.specs.declared.refusal.ReadRefusal.TheVariants.{Memory};

use crate::end::end_fault;
use crate::parts::read_tile_parts;
use crate::refusal::ReadRefusal;
use crate::span::BlockSpan;
use band_geometry::Geometry;
use cinema_markers::MainRead;
use std::alloc::Global;

/// Reads the tile-parts after a main header, as [`read_tile_parts`] reads them, and EOC after them,
/// with which the bytes have to end (ISO/IEC 15444-1, A.4.4).
///
/// Refused is the first fault, of a tile-part or else of EOC; `Memory` may come in place of any
/// result.
pub(crate) fn read_rest(
    alloc: Global,
    bytes: &[u8],
    read: &MainRead,
    geometry: &Geometry,
    spans: &mut [BlockSpan],
) -> Result<(), ReadRefusal>
    requires inside { read.now.bytes ≤ length bytes.now }
    requires places { length bytes.now < 2 ^ 32 }
    requires parts { length read.now.main.parts.items ≡ parts_of geometry.now.profile }
    requires parts_at { length read.now.parts_at.items ≡ parts_of geometry.now.profile }
    requires steps { AreReadable geometry.now.levels read.now.main.steps }
    requires spans { length spans.old ≡ length (all_blocks geometry.now) }
    ensures stand { OnOk result
        ((ws : List PartWhole) × RestStands bytes.now read.now geometry.now ws) }
    ensures reads { (ws : List PartWhole) → RestStands bytes.now read.now geometry.now ws →
        MatchResult result
        (λ _. PartsSay geometry.now (said_of bytes.now spans.new) 0 ws)
        (λ refusal. refusal ≡ Memory) }
    ensures refused { IfErr result
        (λ refusal. (refusal ≡ Memory) ⊎ RestFault bytes.now read.now geometry.now refusal) }
    ensures faults { (refusal : ReadRefusal) → RestFault bytes.now read.now geometry.now refusal →
        (result ≡ Err refusal) ⊎ (result ≡ Err Memory) }
    ensures count { length spans.new ≡ length spans.old }
{
    let to = read_tile_parts(alloc, bytes, read, geometry, spans)?;
    match end_fault(bytes, to) {
        Some(refusal) => Err(refusal),
        None => Ok(()),
    }
}
