// What is kept of each code-block at the present choice.
ghost use Rattle.std.specs.Prelude.{◌<◌, IfOk, length};
ghost use Rattle.band_geometry.specs.Numbering.{all_blocks};
ghost use Rattle.frame_choice.specs.Blocks.{block_numbered};
ghost use Rattle.frame_choice.specs.Demanded.{AreDemanded};
ghost use Rattle.frame_choice.specs.Present.{IsPresent, ArePresentBelow};
ghost use Rattle.frame_choice.specs.PriceLaws.{planes_in};

use crate::quantised::QuantisedFrame;
use demand_blocks::DemandBlocks;
use std::alloc::{AllocError, Global};

/// What is kept of a code-block at the present choice of passes.
#[derive(Clone, Copy, Debug)]
pub struct PresentBlock {
    /// The bytes of the ended code of its chosen passes, and 0 where none is chosen.
    pub bytes: u32,
    /// The magnitude bit-planes of its largest magnitude.
    pub planes: u8,
}

// The blocks of a frame without any pass chosen. The only refusal is out of memory.
pub(crate) fn none_present(
    alloc: Global,
    frame: &QuantisedFrame,
    blocks: &DemandBlocks,
) -> Result<Vec<PresentBlock>, AllocError>
    requires { AreDemanded frame.now.geometry.now (planes_in frame.now) blocks.now.blocks.items }
    ensures { IfOk result (λ present. ArePresentBelow frame.now.geometry.now frame.now.steps.now
        (planes_in frame.now) (λ n. 0) (length (all_blocks frame.now.geometry.now))
        present.items) }
{
    let mut present = Vec::new(alloc);
    for n in 0..frame.geometry.blocks() {
        let planes = blocks.block(n).planes();
        present.push(PresentBlock { bytes: 0, planes })?;
    }
    Ok(present)
}
