// The code-blocks of a packet, and their entries, as lists.
ghost use Rattle.std.specs.Prelude.{◌≡◌, ◌+◌, ◌-◌, ◌<◌, ◌≤◌, ◌++◌, map};
ghost use Rattle.arrayvec.specs.ArrayVec.{array_vec_len};
ghost use Rattle.band_geometry.specs.Bands.{HasBand, precinct_blocks_of};
ghost use Rattle.band_geometry.specs.Counts.{number_of};
ghost use Rattle.packet_order.specs.Blocks.{row_in, blocks_in, blocks_of_packet};
ghost use Rattle.codestream_reader.specs.Spans.{IsPacket, entries_in};

use arrayvec::ArrayVec;
use band_geometry::{BlockId, BlockRange, Geometry};
use cine_nums::Orient;
use packet_headers::{Entry, Packet, PacketBand};
use packet_order::PacketId;

/// The numbers of the code-blocks of a packet, in the order in which the packet has the blocks
/// (ISO/IEC 15444-1, B.9).
pub(crate) fn numbers_of(geometry: &Geometry, id: PacketId) -> ArrayVec<u32, 48>
    requires { IsPacket geometry.now id }
    ensures { result.items ≡ map (number_of geometry.now) (blocks_of_packet geometry.now id) }
{
    let mut numbers = ArrayVec::new();
    if id.res == 0 {
        add_band(&mut numbers, geometry, id, Orient::LL);
        return numbers;
    }
    add_band(&mut numbers, geometry, id, Orient::HL);
    add_band(&mut numbers, geometry, id, Orient::LH);
    add_band(&mut numbers, geometry, id, Orient::HH);
    numbers
}

/// Adds those of a band, row by row.
fn add_band(numbers: &mut ArrayVec<u32, 48>, geometry: &Geometry, id: PacketId, orient: Orient)
    requires id { IsPacket geometry.now id }
    requires band { HasBand geometry.now id.res orient }
    requires room { array_vec_len numbers.old ≤ 32 }
    ensures numbers { numbers.new.items
        ≡ numbers.old.items ++ map (number_of geometry.now) (blocks_in geometry.now id orient) }
    ensures few { array_vec_len numbers.new ≤ array_vec_len numbers.old + 16 }
{
    let range = geometry.precinct_blocks(id.res, orient, id.px, id.py);
    for row in 0..range.y1 - range.y0 {
        add_row(numbers, geometry, id, orient, range, row);
    }
}

/// Adds those of a row of the band's blocks.
fn add_row(
    numbers: &mut ArrayVec<u32, 48>,
    geometry: &Geometry,
    id: PacketId,
    orient: Orient,
    range: BlockRange,
    row: u32,
)
    requires id { IsPacket geometry.now id }
    requires band { HasBand geometry.now id.res orient }
    requires range { range ≡ precinct_blocks_of geometry.now id.res orient id.px id.py }
    requires row { row < range.y1 - range.y0 }
    requires room { array_vec_len numbers.old + (range.x1 - range.x0) ≤ 48 }
    ensures numbers { numbers.new.items
        ≡ numbers.old.items ++ map (number_of geometry.now) (row_in geometry.now id orient row) }
    ensures count { array_vec_len numbers.new
        ≡ array_vec_len numbers.old + (range.x1 - range.x0) }
{
    for column in 0..range.x1 - range.x0 {
        let block = BlockId {
            component: id.component,
            res: id.res,
            orient,
            x: range.x0 + column,
            y: range.y0 + row,
        };
        numbers.push(geometry.number(block));
    }
}

/// The entries of all bands of a packet, in the same order.
pub(crate) fn entries_of(packet: &Packet) -> ArrayVec<Entry, 48>
    ensures { result.items ≡ entries_in packet.now.bands.items }
{
    let mut entries = ArrayVec::new();
    for band in packet.bands.as_slice() {
        add_entries(&mut entries, band);
    }
    entries
}

/// Adds those of a band.
fn add_entries(entries: &mut ArrayVec<Entry, 48>, band: &PacketBand)
    requires room { array_vec_len entries.old ≤ 32 }
    ensures entries { entries.new.items ≡ entries.old.items ++ band.now.entries.items }
    ensures few { array_vec_len entries.new ≤ array_vec_len entries.old + 16 }
{
    for entry in band.entries.as_slice() {
        entries.push(*entry);
    }
}
