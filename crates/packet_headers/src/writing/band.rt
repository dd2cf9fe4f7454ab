// Writing a band.
ghost use Rattle.std.specs.Prelude.{◌≡◌, ◌+◌, ◌*◌, ◌<◌, ◌≤◌, [], ◌++◌, List, Bool, ℕ, length, map};
ghost use Rattle.packet_headers.specs.Words.{blocks_bits};
ghost use Rattle.packet_headers.specs.Written.{written_trees, written_band, zero_plane_value};
ghost use Rattle.packet_headers.specs.Written.{CanWriteBand};
ghost use Rattle.packet_headers.specs.InsideWriting.{inner_node_at, InnerNodesStand, MarksStand};
ghost use Rattle.packet_headers.specs.InsideWriting.{TopFirst, InclusionFirst};

use crate::entry::Entry;
use crate::packet::PacketBand;
use crate::writing::block::{BandMarks, put_block};
use crate::writing::inner_nodes::Marks;
use crate::writing::quarters::{quarter_of, quarters_of};
use bit_stuffing::BitSink;

/// The least zero planes of the nodes above the leaves of a band's tag trees: of the one above the
/// middle ones, and of one for each quarter.
#[derive(Clone, Copy)]
struct InnerNodes {
    top: u8,
    middle: [u8; 4],
}

/// The number of a block's leaf in the zero plane tree: all planes of the band where the block
/// isn't included.
#[inline]
fn leaf_zero_planes(entry: &Entry, planes: u8) -> u8
    ensures { result ≡ zero_plane_value planes entry.now }
{
    if entry.included {
        return entry.zero_planes;
    }
    planes
}

/// The least zero planes of the nodes above a band's blocks, and 0 for a node that isn't there: a
/// band of one block has no nodes above it, and one of at most 2 by 2 blocks none above the
/// quarter's.
fn inner_nodes_of(band: &PacketBand) -> InnerNodes
    requires { CanWriteBand band.now }
    ensures stand { InnerNodesStand (written_trees band.now)
        (inner_node_at band.now.planes result.top) (map (inner_node_at band.now.planes)
        result.middle) }
    ensures four { length result.middle ≡ 4 }
{
    let quarters = quarters_of(band.width);
    let mut middle = [u8::MAX; 4];
    for (place, entry) in band.entries.as_slice().iter().enumerate() {
        let quarter = quarter_of(quarters, band.width, band.height, place);
        let zero_planes = leaf_zero_planes(entry, band.planes);
        middle[quarter] = zero_planes.min(middle[quarter]);
    }
    let side = band.width.max(band.height);
    if side <= 1 {
        return InnerNodes {
            top: 0,
            middle: [0; 4],
        };
    }
    if side <= 2 {
        return InnerNodes { top: 0, middle };
    }
    let top = middle[0].min(middle[1]).min(middle[2]).min(middle[3]);
    InnerNodes { top, middle }
}

/// The marks of a band of which nothing is written. A node that the band doesn't have counts as
/// written.
fn fresh_marks(band: &PacketBand) -> BandMarks
    ensures stand { MarksStand (written_trees band.now) [] result.inclusion result.zero_planes }
    ensures inclusion { TopFirst result.inclusion }
    ensures zero_planes { TopFirst result.zero_planes }
    ensures seen { InclusionFirst result.inclusion result.zero_planes }
{
    let side = band.width.max(band.height);
    let marks = Marks {
        top: side <= 2,
        middle: [side <= 1; 4],
    };
    BandMarks {
        inclusion: marks,
        zero_planes: marks,
    }
}

/// Puts the bits of a band's blocks, in raster order.
pub fn put_band<S: BitSink>(band: &PacketBand, out: &mut S)
    requires band { CanWriteBand band.now }
    requires room { S.bit_count out.old + 1300 ≤ 7000 }
    ensures bits { (bits : List Bool) → S.StandsFor out.old bits →
        S.StandsFor out.new (bits ++ blocks_bits (written_trees band.now) []
        (written_band band.now).blocks) }
    ensures few { S.bit_count out.new ≤ S.bit_count out.old + 1120 }
{
    let inner_nodes = inner_nodes_of(band);
    let mut marks = fresh_marks(band);
    let quarters = quarters_of(band.width);
    for (place, entry) in band.entries.as_slice().iter().enumerate() {
        let quarter = quarter_of(quarters, band.width, band.height, place);
        put_block(
            &mut marks,
            quarter,
            inner_nodes.top,
            inner_nodes.middle[quarter],
            band.planes,
            entry,
            out,
        );
    }
}
