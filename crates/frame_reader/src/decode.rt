// Decoding what was found of a codestream.
ghost use Rattle.std.specs.Prelude.{◌≡◌, ◌<◌, ◌^◌, length, IfOk, IfErr};
ghost use Rattle.codestream_reader.specs.declared.refusal.ReadRefusal.TheVariants.{Memory};
ghost use Rattle.frame_reader.specs.Blocks.{CanDecode};
ghost use Rattle.frame_reader.specs.Decoded.{IsDecodedOf};
ghost use Rattle.frame_reader.specs.Blocks.{AreOfFrame};

use crate::blocks::read_blocks;
use crate::decoded::{BlockRead, Decoded, Planes};
use band_geometry::Geometry;
use codeblock_views::KnownPlane;
use codestream_reader::{ReadRefusal, StreamSpans};
use std::alloc::{AllocError, Global};

/// Decodes the code-blocks of a codestream that was found. The only refusal is out of memory.
pub(crate) fn decode(
    alloc: Global,
    bytes: &[u8],
    found: StreamSpans,
) -> Result<Decoded, ReadRefusal>
    requires can { CanDecode bytes.now found }
    ensures decoded { IfOk result (IsDecodedOf bytes.now found) }
    ensures few { IfOk result (λ d. length d.blocks.items < 2 ^ 32) }
    ensures memory { IfErr result (λ refusal. refusal ≡ Memory) }
{
    let mut planes = blank(alloc, &found.geometry)?;
    let count = found.geometry.blocks() as usize;
    let mut blocks = vec![in alloc; BlockRead::default(); count]?;
    read_blocks(bytes, &found, &mut blocks, &mut planes);
    Ok(Decoded {
        main: found.read.main,
        held: found.held,
        blocks,
        c0: planes.c0,
        c1: planes.c1,
        c2: planes.c2,
    })
}

/// Planes of the frame's size.
fn blank(alloc: Global, geometry: &Geometry) -> Result<Planes, AllocError>
    ensures { IfOk result (AreOfFrame geometry.now) }
{
    let c0 = KnownPlane::new(alloc, geometry.width, geometry.height)?;
    let c1 = KnownPlane::new(alloc, geometry.width, geometry.height)?;
    let c2 = KnownPlane::new(alloc, geometry.width, geometry.height)?;
    Ok(Planes { c0, c1, c2 })
}
