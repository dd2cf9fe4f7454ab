// Laws of the meaning of a codestream that reading shows.
ghost use Rattle.std.specs.Prelude.{◌≡◌, ◌<◌, ◌^◌, ◌⊎◌, length, Err};
ghost use Rattle.cinema_markers.specs.Words.{HasMain};
ghost use Rattle.cinema_markers.specs.declared.header.MainRead.{MainRead};
ghost use Rattle.profile_reader.specs.Reads.{Decoding, Reads};
ghost use Rattle.codestream_reader.specs.declared.refusal.ReadRefusal.TheVariants.{Memory};

use crate::parts::read_tile_parts;
use crate::planes::many_planes;
use crate::refusal::ReadRefusal;
use crate::span::BlockSpan;
use band_geometry::Geometry;
use cinema_markers::{MainRead, read_main};
use profile_reader::said_once;
use std::alloc::Global;

/// The bytes of a codestream mean one thing: any two decodings of them are the same. The call reads
/// the bytes, and says nothing only where it is out of memory.
pub fn one_reading(alloc: Global, bytes: &[u8]) -> Result<(), ReadRefusal>
    requires places { length bytes.now < 2 ^ 32 }
    ensures one { (d e : Decoding) → Reads bytes.now d → Reads bytes.now e →
        (d ≡ e) ⊎ (result ≡ Err Memory) }
{
    match read_main(bytes) {
        Err(fault) => Err(ReadRefusal::Main(fault)),
        Ok(read) => one_after(alloc, bytes, &read),
    }
}

/// And after its main header.
fn one_after(alloc: Global, bytes: &[u8], read: &MainRead) -> Result<(), ReadRefusal>
    requires places { length bytes.now < 2 ^ 32 }
    requires main { HasMain bytes.now read.now }
    requires only { (other : MainRead) → HasMain bytes.now other → read.now ≡ other }
    ensures one { (d e : Decoding) → Reads bytes.now d → Reads bytes.now e →
        (d ≡ e) ⊎ (result ≡ Err Memory) }
{
    said_once();
    if let Some(band) = many_planes(&read.main.steps) {
        return Err(ReadRefusal::TooManyPlanes(band));
    }
    let main = &read.main;
    let geometry = Geometry::new(main.profile, main.levels, main.width, main.height);
    let mut spans = vec![in alloc; BlockSpan::default(); geometry.blocks() as usize]?;
    read_tile_parts(alloc, bytes, read, &geometry, &mut spans)?;
    Ok(())
}
