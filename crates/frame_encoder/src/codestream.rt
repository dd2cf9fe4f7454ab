// The codestream of a choice of coding passes.
ghost use Rattle.std.specs.Prelude.{◌≡◌, ◌++◌, IfOk, OnOk};
ghost use Rattle.std.specs.List.{flat_map};
ghost use Rattle.profile_reader.specs.Chosen.{Planes};
ghost use Rattle.profile_reader.specs.Spell.{part_indexes, spell};
ghost use Rattle.frame_encoder.specs.Writing.{IsFrameOf, chosen_by, part_of, steps_of};

use crate::header::main_header;
use crate::writing::ChosenPasses;
use std::alloc::{AllocError, Global};
use tile_parts::end_of_codestream;

/// Appends the tile-parts.
fn push_parts(alloc: Global, chosen: &ChosenPasses, out: &mut Vec<u8>) -> Result<(), AllocError>
    ensures { OnOk result ((planes : Planes) → IsFrameOf planes chosen.now →
        out.new.items ≡ out.old.items
        ++ flat_map (part_of planes chosen.now) (part_indexes chosen.now.geometry)) }
{
    for index in 0..chosen.geometry.profile.parts() {
        chosen.push_part(alloc, index, out)?;
    }
    Ok(())
}

/// The codestream: main header, tile-parts, and end of codestream.
pub fn codestream(alloc: Global, chosen: &ChosenPasses) -> Result<Vec<u8>, AllocError>
    ensures { IfOk result (λ bytes. (planes : Planes) → IsFrameOf planes chosen.now → bytes.items
        ≡ spell chosen.now.geometry (steps_of chosen.now) (chosen_by planes chosen.now)) }
{
    let header = main_header(&chosen.geometry, chosen.packets.part_lengths());
    let mut bytes = Vec::from_slice(alloc, header.as_slice())?;
    push_parts(alloc, chosen, &mut bytes)?;
    bytes.extend_from_slice(&end_of_codestream())?;
    Ok(bytes)
}
