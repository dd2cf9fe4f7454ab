// Decoding the code-blocks one after the other.
ghost use Rattle.std.specs.Prelude.{◌≡◌, ◌<◌, suc, length, slice_get, Some};
ghost use Rattle.band_geometry.specs.Bands.{IsBlock};
ghost use Rattle.band_geometry.specs.Counts.{number_of};
ghost use Rattle.band_geometry.specs.Numbering.{all_blocks};
ghost use Rattle.band_geometry.specs.declared.places.BlockId.{BlockId};
ghost use Rattle.codestream_reader.specs.Spans.{said_of};
ghost use Rattle.dz_quantiser.specs.Bands.{band_planes};
ghost use Rattle.profile_reader.specs.Reads.{BlockMeans, block_in};
ghost use Rattle.frame_reader.specs.Blocks.{AreDecodedBelow, AreOfFrame, CanDecode, cells_at};
ghost use Rattle.frame_reader.specs.Blocks.{planes_of, read_of};

use crate::block::read_block;
use crate::decoded::{BlockRead, Planes};
use codestream_reader::StreamSpans;

/// Decodes all code-blocks of a codestream, by their numbers.
pub(crate) fn read_blocks(
    bytes: &[u8],
    found: &StreamSpans,
    blocks: &mut [BlockRead],
    planes: &mut Planes,
)
    requires can { CanDecode bytes.now found.now }
    requires count { length blocks.old ≡ length (all_blocks found.now.geometry) }
    requires planes { AreOfFrame found.now.geometry planes.old }
    ensures decoded { AreDecodedBelow (length (all_blocks found.now.geometry)) bytes.now found.now
        blocks.new (planes_of planes.new) }
    ensures count { length blocks.new ≡ length blocks.old }
    ensures planes { AreOfFrame found.now.geometry planes.new }
{
    for n in 0..found.geometry.blocks() {
        read_next(bytes, found, n, blocks, planes);
    }
}

/// Decodes code-block `n`, after those whose numbers are lower.
fn read_next(
    bytes: &[u8],
    found: &StreamSpans,
    n: u32,
    blocks: &mut [BlockRead],
    planes: &mut Planes,
)
    requires can { CanDecode bytes.now found.now }
    requires number { n < length (all_blocks found.now.geometry) }
    requires count { length blocks.old ≡ length (all_blocks found.now.geometry) }
    requires planes { AreOfFrame found.now.geometry planes.old }
    ensures decoded { AreDecodedBelow n bytes.now found.now blocks.old (planes_of planes.old) →
        AreDecodedBelow (suc n) bytes.now found.now blocks.new (planes_of planes.new) }
    ensures count { length blocks.new ≡ length blocks.old }
    ensures planes { AreOfFrame found.now.geometry planes.new }
{
    blocks[n as usize] = read_numbered(bytes, found, n, planes);
}

/// Decodes code-block `n` into the plane of its component.
fn read_numbered(bytes: &[u8], found: &StreamSpans, n: u32, planes: &mut Planes) -> BlockRead
    requires can { CanDecode bytes.now found.now }
    requires number { n < length (all_blocks found.now.geometry) }
    requires planes { AreOfFrame found.now.geometry planes.old }
    ensures means { (b : BlockId) → slice_get (all_blocks found.now.geometry) n ≡ Some b →
        BlockMeans found.now.geometry (band_planes found.now.read.main.steps b.res b.orient) b
        (block_in found.now.geometry (said_of bytes.now found.now.spans.items) b) (read_of result)
        (cells_at found.now.geometry (planes_of planes.new) b) }
    ensures others { (b : BlockId) → IsBlock found.now.geometry b →
        (number_of found.now.geometry b ≡ n → ⊥) →
        cells_at found.now.geometry (planes_of planes.new) b
        ≡ cells_at found.now.geometry (planes_of planes.old) b }
    ensures planes { AreOfFrame found.now.geometry planes.new }
{
    let geometry = &found.geometry;
    let steps = &found.read.main.steps;
    let id = geometry.block_id(n);
    let span = &found.spans[n as usize];
    match id.component {
        0 => read_block(bytes, geometry, steps, span, id, &mut planes.c0),
        1 => read_block(bytes, geometry, steps, span, id, &mut planes.c1),
        _ => read_block(bytes, geometry, steps, span, id, &mut planes.c2),
    }
}
