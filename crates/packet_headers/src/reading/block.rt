// Reading a block's part of a packet header (ISO/IEC 15444-1, B.10.4 to B.10.7).
ghost use Rattle.std.specs.Prelude.{◌≡◌, ◌*◌, ◌<◌, ◌^◌, ◌++◌, List, Bool, ◌⊎◌, length, Err};
ghost use Rattle.tag_trees.specs.TagTree.{Writing};
ghost use Rattle.tag_trees.specs.TreeState.{Stands, Allows};
ghost use Rattle.bit_stuffing.specs.Source.{Took};
ghost use Rattle.bit_stuffing.specs.Stuffing.{fault_of};
ghost use Rattle.packet_headers.specs.Words.{BlockWords, BandTrees, leaf_at, inclusion_writings};
ghost use Rattle.packet_headers.specs.Words.{zero_plane_writings};
ghost use Rattle.packet_headers.specs.Grammar.{TreesFit};
ghost use Rattle.packet_headers.specs.Reading.{refusal_of, CanReadBand};
ghost use Rattle.packet_headers.specs.InsideReading.{Ending, EndingFits, IsInside, inside_bits};
ghost use Rattle.packet_headers.specs.InsideReading.{ending_bits, Gives, OfSides, FoundInside};
ghost use Rattle.packet_headers.specs.InsideReading.{FoundBlock};

use crate::entry::Entry;
use crate::packet::BandShape;
use crate::reading::numbers::{read_length, read_passes};
use crate::reading::zero_planes::read_zero_planes;
use crate::refusal::PacketRefusal;
use bit_stuffing::BitIn;
use tag_trees::Tree;

/// The block at a place of its band: whether it is included, and what is said of it if it is.
pub(crate) fn read_block(
    shape: BandShape,
    place: u8,
    inclusion: &mut Tree,
    zero_planes: &mut Tree,
    bits: &mut BitIn<'_>,
) -> Result<Entry, PacketRefusal>
    requires shape { CanReadBand shape }
    requires place { place < shape.width * shape.height }
    requires inclusion { OfSides inclusion.old shape }
    requires zero_planes { OfSides zero_planes.old shape }
    requires known_inclusion { (earlier : List Writing) × Stands inclusion.old earlier }
    requires known_zero_planes { (earlier : List Writing) × Stands zero_planes.old earlier }
    requires few { length bits.old.ahead < 2 ^ 40 }
    ensures inclusion { OfSides inclusion.new shape }
    ensures zero_planes { OfSides zero_planes.new shape }
    ensures same { bits.new.bytes ≡ bits.old.bytes }
    ensures found { (before : List BlockWords) → length before ≡ place →
        Stands inclusion.old (inclusion_writings shape.width 0 before) →
        Stands zero_planes.old (zero_plane_writings shape.width 0 before) →
        (result ≡ Err (refusal_of (fault_of bits.old.bytes)))
        ⊎ FoundBlock shape before inclusion.old inclusion.new zero_planes.old zero_planes.new
        bits.old bits.new result }
    ensures reads { (before : List BlockWords) (trees : BandTrees) (ending : Ending)
        (rest : List Bool) → length before ≡ place →
        Stands inclusion.old (inclusion_writings shape.width 0 before) →
        Stands zero_planes.old (zero_plane_writings shape.width 0 before) →
        TreesFit shape trees → Allows inclusion.old trees.inclusion →
        Allows zero_planes.old trees.zero_planes →
        EndingFits trees shape.planes place ending → bits.old.ahead
        ≡ ending_bits trees before shape.planes ending ++ rest →
        Gives ending bits.new result × Allows inclusion.new trees.inclusion
        × Allows zero_planes.new trees.zero_planes
        × Took bits.old (ending_bits trees before shape.planes ending) bits.new }
{
    let x = place % shape.width;
    let y = place / shape.width;
    if !inclusion.read_upto(x, y, 1, bits)? {
        return Ok(Entry::default());
    }
    read_included(shape, place, zero_planes, bits)
}

/// An included block after its inclusion: its zero planes, number of passes and length.
fn read_included(
    shape: BandShape,
    place: u8,
    tree: &mut Tree,
    bits: &mut BitIn<'_>,
) -> Result<Entry, PacketRefusal>
    requires shape { CanReadBand shape }
    requires place { place < shape.width * shape.height }
    requires sides { OfSides tree.old shape }
    requires known { (earlier : List Writing) × Stands tree.old earlier }
    requires few { length bits.old.ahead < 2 ^ 40 }
    ensures sides { OfSides tree.new shape }
    ensures same { bits.new.bytes ≡ bits.old.bytes }
    ensures found { (before : List BlockWords) → length before ≡ place →
        Stands tree.old (zero_plane_writings shape.width 0 before) →
        (result ≡ Err (refusal_of (fault_of bits.old.bytes)))
        ⊎ FoundInside shape before tree.old tree.new bits.old bits.new result }
    ensures reads { (before : List BlockWords) (trees : BandTrees) (ending : Ending)
        (rest : List Bool) →
        length before ≡ place → Stands tree.old (zero_plane_writings shape.width 0 before) →
        TreesFit shape trees → trees.inclusion (leaf_at trees.width place) ≡ 0 →
        Allows tree.old trees.zero_planes →
        IsInside ending → EndingFits trees shape.planes place ending →
        bits.old.ahead ≡ inside_bits trees before shape.planes ending ++ rest →
        Gives ending bits.new result × Allows tree.new trees.zero_planes
        × Took bits.old (inside_bits trees before shape.planes ending) bits.new }
{
    let x = place % shape.width;
    let y = place / shape.width;
    let zero_planes = read_zero_planes(x, y, shape.planes, tree, bits)?;
    let passes = read_passes(bits)?;
    if passes + 2 > 3 * (shape.planes - zero_planes) {
        return Err(PacketRefusal::PassesTooMany(bits.place()));
    }
    let len = read_length(passes, bits)?;
    Ok(Entry {
        included: true,
        zero_planes,
        passes,
        len,
    })
}
