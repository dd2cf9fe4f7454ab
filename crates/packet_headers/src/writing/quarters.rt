// The place of a block.
ghost use Rattle.std.specs.Prelude.{◌≡◌, ◌+◌, ◌/◌, ◌%◌, ◌<◌, ◌≤◌, ◌*◌};
ghost use Rattle.tag_trees.specs.TagTree.{middle_node};
ghost use Rattle.packet_headers.specs.InsideWriting.{AreQuarters};

/// The quarter of at most 2 by 2 blocks in which a place lies, for each width of a band.
#[rattlefmt::skip]
static QUARTERS: [[u8; 16]; 5] = [
    [0, 0, 0, 0, 0, 0, 0, 0, 0, 0, 0, 0, 0, 0, 0, 0],
    [0, 0, 2, 2, 0, 0, 2, 2, 0, 0, 2, 2, 0, 0, 2, 2],
    [0, 0, 0, 0, 2, 2, 2, 2, 0, 0, 0, 0, 2, 2, 2, 2],
    [0, 0, 1, 0, 0, 1, 2, 2, 3, 2, 2, 3, 0, 0, 1, 0],
    [0, 0, 1, 1, 0, 0, 1, 1, 2, 2, 3, 3, 2, 2, 3, 3],
];

/// The quarters of the places of a band of this width.
#[inline]
pub fn quarters_of(width: u8) -> &'static [u8; 16]
    requires { width ≤ 4 }
    ensures { AreQuarters width result.now }
{
    &QUARTERS[width as usize]
}

/// Which quarter of at most 2 by 2 blocks a place lies in, in raster order, in a band of at most 4
/// by 4 with these quarters.
#[inline]
pub fn quarter_of(quarters: &[u8; 16], width: u8, height: u8, place: usize) -> usize
    requires quarters { AreQuarters width quarters.now }
    requires width { width ≤ 4 }
    requires height { height ≤ 4 }
    requires place { place < width * height }
    ensures node { middle_node (place % width) (place / width) ≡ 16 + result }
    ensures below { result < 4 }
{
    quarters[place] as usize
}
