// Reading a block's zero planes (ISO/IEC 15444-1, B.10.5).
ghost use Rattle.std.specs.Prelude.{◌≡◌, ◌≢◌, ℕ, ◌+◌, ◌<◌, ◌≤◌, ◌++◌, List, Bool, ◌⊎◌, min, Err};
ghost use Rattle.std.specs.Prelude.{Ok, IfOk};
ghost use Rattle.tag_trees.specs.TagTree.{Writing, leaf_node, IsNumbering, bits_of_writing};
ghost use Rattle.tag_trees.specs.TreeState.{width_of, height_of, levels_of, Stands, Allows};
ghost use Rattle.bit_stuffing.specs.Stuffing.{fault_of};
ghost use Rattle.packet_headers.specs.Reading.{refusal_of};
ghost use Rattle.packet_headers.specs.InsideReading.{FoundZeroPlanes};

use crate::refusal::PacketRefusal;
use bit_stuffing::BitIn;
use tag_trees::Tree;

/// The zero planes of the block of this column and row. Their number is asked for by one threshold
/// after the other, up to the band's planes: the bits are those of the last one.
pub(crate) fn read_zero_planes(
    x: u8,
    y: u8,
    planes: u8,
    tree: &mut Tree,
    bits: &mut BitIn<'_>,
) -> Result<u8, PacketRefusal>
    requires column { x < width_of tree.old }
    requires row { y < height_of tree.old }
    requires planes { planes ≤ 31 }
    requires some_planes { 1 ≤ planes }
    ensures width { width_of tree.new ≡ width_of tree.old }
    ensures height { height_of tree.new ≡ height_of tree.old }
    ensures same { bits.new.bytes ≡ bits.old.bytes }
    // where the bits don't end, some number was asked for, which is the block's one more, or that
    // of all planes
    ensures found { (earlier : List Writing) → Stands tree.old earlier →
        (result ≡ Err (refusal_of (fault_of bits.old.bytes)))
        ⊎ FoundZeroPlanes tree.old tree.new bits.old bits.new x y planes earlier result }
    // they don't end where they were written
    ensures reads { (value : ℕ → ℕ) (earlier : List Writing) (rest : List Bool) →
        IsNumbering (width_of tree.old) (height_of tree.old) value → Stands tree.old earlier →
        Allows tree.old value →
        bits.old.ahead ≡ bits_of_writing (levels_of tree.old) value earlier
        (record { column = x; row = y; threshold = min (value (leaf_node x y) + 1) planes })
        ++ rest →
        Allows tree.new value × (result ≢ Err (refusal_of (fault_of bits.old.bytes))) }
    ensures below { IfOk result (λ zero_planes. zero_planes < planes) }
{
    for zero_planes in 0..planes {
        if tree.read_upto(x, y, zero_planes + 1, bits)? {
            return Ok(zero_planes);
        }
    }
    Err(PacketRefusal::ZeroPlanesTooMany(bits.place()))
}
