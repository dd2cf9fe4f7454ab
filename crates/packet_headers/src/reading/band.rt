// Reading a band's part of a packet header (ISO/IEC 15444-1, B.10.8).
ghost use Rattle.std.specs.Prelude.{◌≡◌, ◌<◌, ◌^◌, ◌++◌, List, Bool, ◌⊎◌, length, Err};
ghost use Rattle.bit_stuffing.specs.Source.{Took};
ghost use Rattle.bit_stuffing.specs.Stuffing.{fault_of};
ghost use Rattle.packet_headers.specs.Words.{BandTrees};
ghost use Rattle.packet_headers.specs.Grammar.{TreesFit};
ghost use Rattle.packet_headers.specs.Reading.{refusal_of, CanReadBand};
ghost use Rattle.packet_headers.specs.InsideReading.{BandEnding, BandEndingFits, band_ending_bits};
ghost use Rattle.packet_headers.specs.InsideReading.{GivesBand, FoundBand};

use crate::packet::{BandShape, PacketBand};
use crate::reading::block::read_block;
use crate::refusal::PacketRefusal;
use arrayvec::ArrayVec;
use bit_stuffing::BitIn;
use tag_trees::Tree;

/// The blocks of a band, in raster order.
pub(crate) fn read_band(shape: BandShape, bits: &mut BitIn<'_>) -> Result<PacketBand, PacketRefusal>
    requires shape { CanReadBand shape }
    requires few { length bits.old.ahead < 2 ^ 40 }
    ensures same { bits.new.bytes ≡ bits.old.bytes }
    ensures found { (result ≡ Err (refusal_of (fault_of bits.old.bytes)))
        ⊎ FoundBand shape bits.old bits.new result }
    ensures reads { (trees : BandTrees) (ending : BandEnding) (rest : List Bool) →
        TreesFit shape trees → BandEndingFits shape trees ending →
        bits.old.ahead ≡ band_ending_bits trees shape.planes ending ++ rest →
        GivesBand shape ending bits.new result
        × Took bits.old (band_ending_bits trees shape.planes ending) bits.new }
{
    let mut inclusion = Tree::unread(shape.width, shape.height);
    let mut zero_planes = Tree::unread(shape.width, shape.height);
    let mut entries = ArrayVec::new();
    for place in 0..shape.width * shape.height {
        let entry = read_block(shape, place, &mut inclusion, &mut zero_planes, bits)?;
        entries.push(entry);
    }
    Ok(PacketBand {
        width: shape.width,
        height: shape.height,
        planes: shape.planes,
        entries,
    })
}
