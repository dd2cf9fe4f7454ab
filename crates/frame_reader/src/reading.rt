// Reading a codestream.
ghost use Rattle.std.specs.Prelude.{ℕ, ◌≡◌, ◌<◌, ◌^◌, ◌⊎◌, List, length, Err, IfOk, IfErr};
ghost use Rattle.std.specs.Prelude.{MatchResult};
ghost use Rattle.band_geometry.specs.declared.geometry.Geometry.{Geometry};
ghost use Rattle.budget_duals.specs.Held.{limits_of, IsWithin};
ghost use Rattle.codestream_reader.specs.Faults.{EarlyFault, HasFault};
ghost use Rattle.codestream_reader.specs.declared.refusal.ReadRefusal.{ReadRefusal};
ghost use Rattle.codestream_reader.specs.declared.refusal.ReadRefusal.TheVariants.{Memory};
ghost use Rattle.dz_quantiser.specs.declared.steps.StepSizes.{StepSizes};
ghost use Rattle.profile_reader.specs.Chosen.{Planes, chosen};
ghost use Rattle.profile_reader.specs.Reads.{Decoding};
ghost use Rattle.profile_reader.specs.Shown.{CanChoose, chosen_decoding};
ghost use Rattle.profile_reader.specs.Spell.{spell};
ghost use Rattle.frame_reader.specs.Decoded.{HaveSides, IsMeaning, decoding_of, held_from};

use crate::decode::decode;
use crate::decoded::Decoded;
use codestream_reader::{ReadRefusal, spans};
use profile_reader::{chosen_reads, said_once};
use std::alloc::Global;

/// Reads a codestream of fewer than 2^32 bytes (ISO/IEC 15444-1, Annexes A to D), and decodes its
/// code-blocks.
///
/// Refused is the first fault, in this order:
/// - `LimitExceeded(Frame, ..)` with the number of bytes, where there are more than 1,302,083;
/// - `Main` as `read_main` refuses the main header;
/// - `TooManyPlanes` with the first band, in the order of QCD, of more than 31 magnitude
///   bit-planes;
/// - a fault of a tile-part, one tile-part after the other, as `read_tile_part` of
///   `codestream_reader` refuses it;
/// - `MissingEnd` where EOC doesn't stand after the last tile-part;
/// - `BytesAfterEnd` where a byte follows EOC;
/// - `LimitExceeded` with the outermost budget that holds more than its limit, and what it holds.
///
/// `Memory` may come in place of a refusal after `TooManyPlanes`, and of a meaning.
pub fn read(alloc: Global, bytes: &[u8]) -> Result<Decoded, ReadRefusal>
    requires places { length bytes.now < 2 ^ 32 }
    // What is returned is a meaning of the bytes, within the limits of its profile,
    ensures found { IfOk result (λ d. IsMeaning bytes.now (decoding_of d)) }
    // with what the bytes hold, planes of the frame's size, and a block count of 32 bits,
    ensures held { IfOk result (λ d. d.held ≡ held_from bytes.now d.main) }
    ensures sides { IfOk result HaveSides }
    ensures few { IfOk result (λ d. length d.blocks.items < 2 ^ 32) }
    // and whatever meaning the bytes have within the limits, that is it.
    ensures reads { (d : Decoding) → IsMeaning bytes.now d →
        MatchResult result (λ found. decoding_of found ≡ d) (λ refusal. refusal ≡ Memory) }
    // So the codestream of a choice of coding passes is read as that choice leaves it known.
    ensures written { (g : Geometry) (steps : StepSizes) (planes : Planes) (choice : List ℕ) →
        CanChoose g steps planes choice →
        bytes.now ≡ spell g steps (chosen g steps planes choice) →
        IsWithin (limits_of g.profile)
        (held_from bytes.now (chosen_decoding g steps planes choice).main) →
        MatchResult result (λ found. decoding_of found ≡ chosen_decoding g steps planes choice)
        (λ refusal. refusal ≡ Memory) }
    // Each fault is returned exactly where it is the first.
    ensures refused { IfErr result
        (λ refusal. (refusal ≡ Memory) ⊎ HasFault bytes.now refusal) }
    ensures early { (refusal : ReadRefusal) → EarlyFault bytes.now refusal →
        result ≡ Err refusal }
    ensures faults { (refusal : ReadRefusal) → HasFault bytes.now refusal →
        (result ≡ Err refusal) ⊎ (result ≡ Err Memory) }
{
    said_once();
    chosen_reads();
    match spans(alloc, bytes) {
        Err(refusal) => Err(refusal),
        Ok(found) => decode(alloc, bytes, found),
    }
}
