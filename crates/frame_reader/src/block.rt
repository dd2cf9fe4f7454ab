// Decoding one code-block.
ghost use Rattle.std.specs.Prelude.{◌≡◌, ◌<◌, ◌^◌, length};
ghost use Rattle.band_geometry.specs.Bands.{IsBlock, block_of};
ghost use Rattle.band_geometry.specs.declared.places.BlockId.{BlockId};
ghost use Rattle.codeblock_views.specs.KnownCells.{zero_known};
ghost use Rattle.codeblock_views.specs.Rectangles.{cells_in};
ghost use Rattle.codestream_reader.specs.Spans.{AreReadable, said};
ghost use Rattle.dz_quantiser.specs.Bands.{band_planes};
ghost use Rattle.profile_reader.specs.Reads.{BlockMeans};
ghost use Rattle.frame_reader.specs.Blocks.{BlockFits, read_of};

use crate::decoded::BlockRead;
use band_geometry::{BlockId, Geometry};
use codeblock_views::{BlockViewMut, KnownPlane, assembled};
use codestream_reader::BlockSpan;
use dz_quantiser::{StepSizes, planes};
use ebcot_reader::read;

/// Decodes a code-block of a plane of the frame's size: sets its cells to what its bytes mean, and
/// leaves those of other blocks.
pub(crate) fn read_block(
    bytes: &[u8],
    geometry: &Geometry,
    steps: &StepSizes,
    span: &BlockSpan,
    id: BlockId,
    plane: &mut KnownPlane,
) -> BlockRead
    requires exists { IsBlock geometry.now id }
    requires steps { AreReadable geometry.now.levels steps.now }
    requires fits { BlockFits (band_planes steps.now id.res id.orient)
        (said bytes.now span.now) }
    requires width { plane.old.width ≡ geometry.now.width }
    requires height { plane.old.height ≡ geometry.now.height }
    ensures means { BlockMeans geometry.now (band_planes steps.now id.res id.orient) id
        (said bytes.now span.now) (read_of result)
        (cells_in zero_known geometry.now.width (block_of geometry.now id) plane.new.cells.items) }
    ensures others { (b : BlockId) → IsBlock geometry.now b → b.component ≡ id.component →
        (b ≡ id → ⊥) →
        cells_in zero_known geometry.now.width (block_of geometry.now b) plane.new.cells.items
        ≡ cells_in zero_known geometry.now.width (block_of geometry.now b) plane.old.cells.items }
    ensures width { plane.new.width ≡ plane.old.width }
    ensures height { plane.new.height ≡ plane.old.height }
{
    assembled();
    let code = code_of(bytes, span);
    let step = steps.step(geometry.levels, id.res, id.orient);
    let planes = planes(steps.guard, step) - span.entry.zero_planes;
    let passes = span.entry.passes;
    let mut block = BlockViewMut::of(plane, geometry.block(id));
    read(code, passes, planes, id.orient, &mut block);
    BlockRead { planes, passes }
}

/// The bytes of a code-block. One of no bytes has none, wherever its span says that they stand.
fn code_of<'a>(bytes: &'a [u8], span: &BlockSpan) -> &'a [u8]
    requires whole { length (said bytes.now span.now).code ≡ span.now.entry.len }
    ensures { result.now ≡ (said bytes.now span.now).code }
{
    if span.entry.len == 0 {
        return &[];
    }
    let at = span.at as usize;
    &bytes[at..at + span.entry.len as usize]
}
