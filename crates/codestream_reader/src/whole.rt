// Reading a whole codestream up to its code-blocks.
ghost use Rattle.std.specs.Prelude.{◌≡◌, ◌<◌, ◌≤◌, ◌^◌, ◌⊎◌, length, Err, IfOk, IfErr};
ghost use Rattle.std.specs.Prelude.{MatchResult};
ghost use Rattle.cine_nums.specs.Limits.{frame_limit};
ghost use Rattle.cinema_markers.specs.Reading.{HasFault as HasMainFault};
ghost use Rattle.cinema_markers.specs.Words.{HasMain};
ghost use Rattle.cinema_markers.specs.declared.header.MainRead.{MainRead};
ghost use Rattle.cinema_markers.specs.declared.refusal.MarkerRefusal.{MarkerRefusal};
ghost use Rattle.profile_reader.specs.Reads.{Stream, IsGeometryOfHeader};
ghost use Rattle.codestream_reader.specs.Faults.{EarlyFault, HasFault};
ghost use Rattle.codestream_reader.specs.Whole.{HaveFewPlanes, IsFound, IsStream};
ghost use Rattle.codestream_reader.specs.declared.refusal.ReadRefusal.{ReadRefusal};
ghost use Rattle.codestream_reader.specs.declared.refusal.ReadRefusal.TheVariants.{Memory};

use crate::planes::many_planes;
use crate::refusal::ReadRefusal;
use crate::rest::read_rest;
use crate::span::BlockSpan;
use crate::stream::StreamSpans;
use band_geometry::Geometry;
use budget_duals::{Held, Limits};
use cine_nums::{Budget, Profile};
use cinema_markers::{MainRead, read_main};
use std::alloc::Global;

/// Reads a codestream of fewer than 2^32 bytes without decoding its code-blocks (ISO/IEC 15444-1,
/// Annexes A and B): the main header, the tile-parts and EOC, and nothing after it. Returns what is
/// said of each code-block, and where its bytes stand.
///
/// Refused is the first fault, in this order:
/// - `LimitExceeded(Frame, ..)` with the number of bytes, where there are more than 1,302,083;
/// - `Main` as `read_main` refuses the main header;
/// - `TooManyPlanes` with the first band, in the order of QCD, of more than 31 magnitude
///   bit-planes;
/// - a fault of a tile-part, one tile-part after the other, as [`read_tile_part`] refuses it;
/// - `MissingEnd` where EOC doesn't stand after the last tile-part;
/// - `BytesAfterEnd` where a byte follows EOC;
/// - `LimitExceeded` with the outermost budget that holds more than its limit, and what it holds.
///
/// `Memory` may come in place of a refusal after `TooManyPlanes`, and of a codestream.
///
/// [`read_tile_part`]: crate::read_tile_part
pub fn spans(alloc: Global, bytes: &[u8]) -> Result<StreamSpans, ReadRefusal>
    requires places { length bytes.now < 2 ^ 32 }
    // What is found stands there,
    ensures found { IfOk result
        (λ found. (s : Stream) × (IsStream bytes.now s × IsFound bytes.now s found)) }
    // and whatever codestream stands there, it is found.
    ensures reads { (s : Stream) → IsStream bytes.now s →
        MatchResult result (IsFound bytes.now s) (λ refusal. refusal ≡ Memory) }
    // Each fault is returned exactly where it is the first.
    ensures refused { IfErr result
        (λ refusal. (refusal ≡ Memory) ⊎ HasFault bytes.now refusal) }
    ensures early { (refusal : ReadRefusal) → EarlyFault bytes.now refusal →
        result ≡ Err refusal }
    ensures faults { (refusal : ReadRefusal) → HasFault bytes.now refusal →
        (result ≡ Err refusal) ⊎ (result ≡ Err Memory) }
{
    let limit = Profile::FourK.limit(Budget::Frame);
    if bytes.len() > limit as usize {
        return Err(ReadRefusal::LimitExceeded(Budget::Frame, bytes.len() as u32));
    }
    match read_main(bytes) {
        Err(fault) => Err(ReadRefusal::Main(fault)),
        Ok(read) => after_main(alloc, bytes, read),
    }
}

/// The same after the main header.
fn after_main(alloc: Global, bytes: &[u8], read: MainRead) -> Result<StreamSpans, ReadRefusal>
    requires short { length bytes.now ≤ frame_limit }
    requires main { HasMain bytes.now read }
    requires only { (other : MainRead) → HasMain bytes.now other → read ≡ other }
    requires whole { (fault : MarkerRefusal) → HasMainFault bytes.now fault → ⊥ }
    ensures found { IfOk result
        (λ found. (s : Stream) × (IsStream bytes.now s × IsFound bytes.now s found)) }
    ensures reads { (s : Stream) → IsStream bytes.now s →
        MatchResult result (IsFound bytes.now s) (λ refusal. refusal ≡ Memory) }
    ensures refused { IfErr result
        (λ refusal. (refusal ≡ Memory) ⊎ HasFault bytes.now refusal) }
    ensures early { (refusal : ReadRefusal) → EarlyFault bytes.now refusal →
        result ≡ Err refusal }
    ensures faults { (refusal : ReadRefusal) → HasFault bytes.now refusal →
        (result ≡ Err refusal) ⊎ (result ≡ Err Memory) }
{
    match many_planes(&read.main.steps) {
        Some(band) => Err(ReadRefusal::TooManyPlanes(band)),
        None => after_planes(alloc, bytes, read),
    }
}

/// The same after the main header, whose bands have few bit-planes.
fn after_planes(alloc: Global, bytes: &[u8], read: MainRead) -> Result<StreamSpans, ReadRefusal>
    requires short { length bytes.now ≤ frame_limit }
    requires main { HasMain bytes.now read }
    requires only { (other : MainRead) → HasMain bytes.now other → read ≡ other }
    requires whole { (fault : MarkerRefusal) → HasMainFault bytes.now fault → ⊥ }
    requires few { HaveFewPlanes read.main.steps }
    ensures found { IfOk result
        (λ found. (s : Stream) × (IsStream bytes.now s × IsFound bytes.now s found)) }
    ensures reads { (s : Stream) → IsStream bytes.now s →
        MatchResult result (IsFound bytes.now s) (λ refusal. refusal ≡ Memory) }
    ensures refused { IfErr result
        (λ refusal. (refusal ≡ Memory) ⊎ HasFault bytes.now refusal) }
    ensures faults { (refusal : ReadRefusal) → HasFault bytes.now refusal →
        (result ≡ Err refusal) ⊎ (result ≡ Err Memory) }
{
    let main = &read.main;
    let geometry = Geometry::new(main.profile, main.levels, main.width, main.height);
    let mut spans = vec![in alloc; BlockSpan::default(); geometry.blocks() as usize]?;
    read_rest(alloc, bytes, &read, &geometry, &mut spans)?;
    let held = Held::of(main.profile, read.bytes, main.parts.as_slice());
    let limits = Limits::of(main.profile);
    match limits.broken(&held) {
        Some(budget) => Err(ReadRefusal::LimitExceeded(budget, held.bytes(budget))),
        None => Ok(StreamSpans {
            read,
            geometry,
            held,
            spans,
        }),
    }
}
