// The code-blocks of a frame, to be coded on demand.
ghost use Rattle.std.specs.Prelude.{◌≡◌, ◌<◌, IfOk, get_or, length};
ghost use Rattle.band_geometry.specs.Bands.{IsBlock};
ghost use Rattle.band_geometry.specs.Numbering.{all_blocks};
ghost use Rattle.coded_blocks.specs.Codes.{AreChosenCodes};
ghost use Rattle.frame_choice.specs.Demanded.{AreCodedUpTo, AreDemanded, IsSeenAs};
ghost use Rattle.frame_choice.specs.PriceLaws.{planes_in};

use crate::quantised::QuantisedFrame;
use band_geometry::BlockId;
use codeblock_views::{BlockView, assembled};
use coded_blocks::ChosenCodes;
use demand_blocks::{DemandBlock, DemandBlocks};
use std::alloc::{AllocError, Global};

// A code-block of a frame, of which no pass is coded. The only refusal is out of memory.
fn frame_block<'a>(
    alloc: Global,
    frame: &QuantisedFrame<'a>,
    id: BlockId,
) -> Result<DemandBlock<'a>, AllocError>
    requires { IsBlock frame.now.geometry.now id }
    ensures { IfOk result (λ block. IsSeenAs frame.now.geometry.now (planes_in frame.now) id
        block.view block.orient) }
{
    assembled();
    let plane = frame.plane(id.component);
    let view = BlockView::of(plane, frame.geometry.block(id));
    let block = DemandBlock::new(alloc, view, id.orient)?;
    Ok(block)
}

// The code-blocks of a frame, of which no pass is coded. About so many bytes of their codes will be
// wanted: that is a matter of time alone. The only refusal is out of memory.
pub(crate) fn frame_blocks<'a>(
    alloc: Global,
    frame: &QuantisedFrame<'a>,
    room: u32,
) -> Result<DemandBlocks<'a>, AllocError>
    ensures { IfOk result (λ r. AreDemanded frame.now.geometry.now (planes_in frame.now)
        r.blocks.items) }
{
    let mut blocks = Vec::new(alloc);
    for n in 0..frame.geometry.blocks() {
        let id = frame.geometry.block_id(n);
        let block = frame_block(alloc, frame, id)?;
        blocks.push(block)?;
    }
    let made = DemandBlocks::new(alloc, blocks, room)?;
    Ok(made)
}

// The codes of the passes of a choice, all of which are coded. The only refusal is out of memory.
pub(crate) fn codes_of(
    alloc: Global,
    frame: &QuantisedFrame,
    mut blocks: DemandBlocks,
    counts: &[u8],
) -> Result<ChosenCodes, AllocError>
    requires blocks { AreDemanded frame.now.geometry.now (planes_in frame.now) blocks.blocks.items }
    requires long { length counts.now ≡ length (all_blocks frame.now.geometry.now) }
    requires coded { AreCodedUpTo frame.now.geometry.now
        (length (all_blocks frame.now.geometry.now)) (λ n. get_or counts.now n 0)
        blocks.blocks.items }
    ensures { IfOk result (λ codes. AreChosenCodes frame.now.geometry.now frame.now.steps.now
        (planes_in frame.now) counts.now codes) }
{
    let mut codes = ChosenCodes::new(alloc);
    let mut code = Vec::new(alloc);
    for n in 0..frame.geometry.blocks() {
        code.clear();
        blocks.push_code(n, counts[n as usize], &mut code)?;
        codes.push(code.as_slice())?;
    }
    Ok(codes)
}
