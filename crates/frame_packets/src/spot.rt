// Where the entry of a code-block stands.
ghost use Rattle.std.specs.Prelude.{◌≡◌};
ghost use Rattle.band_geometry.specs.Bands.{IsBlock};
ghost use Rattle.packet_order.specs.Blocks.{packet_of_block};
ghost use Rattle.frame_packets.specs.Inside.{band_place, place_in};

use band_geometry::{BlockId, Geometry};
use cine_nums::{BAND_PRECINCT_SIDE, BLOCK_SIDE, Orient};
use packet_order::PacketId;

/// The code-blocks along one side of a precinct in a band.
const BLOCKS_ALONG_PRECINCT: u32 = BAND_PRECINCT_SIDE / BLOCK_SIDE;

/// Where the entry of a code-block stands. All places count from 0.
#[derive(Clone, Copy)]
pub(crate) struct Spot {
    /// The tile-part.
    pub part: u8,
    /// The place of the packet in the order of the tile-part.
    pub at: usize,
    /// The place of the band in the packet.
    pub band: u8,
    /// The place of the block in the band's part of the packet, in raster order.
    pub place: u8,
}

/// The packet of a code-block: that of its precinct.
pub(crate) fn packet_of(id: BlockId) -> PacketId
    ensures { result ≡ packet_of_block id }
{
    PacketId {
        component: id.component,
        res: id.res,
        px: id.x / BLOCKS_ALONG_PRECINCT,
        py: id.y / BLOCKS_ALONG_PRECINCT,
    }
}

/// The place of a band in the packets of its resolution.
pub(crate) fn band_place(orient: Orient) -> u8
    ensures { result ≡ band_place orient }
{
    match orient {
        Orient::LL | Orient::HL => 0,
        Orient::LH => 1,
        Orient::HH => 2,
    }
}

/// The place of a code-block in its band's part of its packet.
pub(crate) fn place_in(geometry: &Geometry, id: BlockId) -> u8
    requires { IsBlock geometry.now id }
    ensures { result ≡ place_in geometry.now id }
{
    let packet = packet_of(id);
    let range = geometry.precinct_blocks(id.res, id.orient, packet.px, packet.py);
    let place = (id.y - range.y0) * (range.x1 - range.x0) + (id.x - range.x0);
    place as u8
}
