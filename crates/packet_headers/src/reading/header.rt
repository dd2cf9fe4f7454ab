// Reading the bits of a packet header (ISO/IEC 15444-1, B.10.8).
ghost use Rattle.std.specs.Prelude.{◌≡◌, ◌*◌, ◌<◌, ◌^◌, ◌++◌, List, Bool, ◌⊎◌, length, Ok, Err};
ghost use Rattle.bit_stuffing.specs.Source.{Took};
ghost use Rattle.bit_stuffing.specs.Stuffing.{fault_of};
ghost use Rattle.packet_headers.specs.Words.{PacketWords, band_of, packet_of, header_words};
ghost use Rattle.packet_headers.specs.Grammar.{WordsFit, ZeroStop, PassStop};
ghost use Rattle.packet_headers.specs.declared.refusal.PacketRefusal.TheVariants.{
  ZeroPlanesTooMany,
};
ghost use Rattle.packet_headers.specs.declared.refusal.PacketRefusal.TheVariants.{PassesTooMany};
ghost use Rattle.packet_headers.specs.Reading.{refusal_of, CanReadBand, CanRead};
ghost use Rattle.packet_headers.specs.InsideReading.{BandsEnding, BandsEndingFits};
ghost use Rattle.packet_headers.specs.InsideReading.{bands_ending_bits, GivesBands, FoundBands};
ghost use Rattle.packet_headers.specs.InsideReading.{FoundHeader, kept_packet, last_place};
ghost use Rattle.packet_headers.specs.InsideReading.{empty_band, empty_words};

use crate::entry::Entry;
use crate::packet::{BandShape, Packet, PacketBand, PacketShape};
use crate::reading::band::read_band;
use crate::refusal::PacketRefusal;
use arrayvec::ArrayVec;
use bit_stuffing::BitIn;

/// The bits of a header: its first bit, and the bands where that is 1.
pub(crate) fn read_header(
    shape: &PacketShape,
    bits: &mut BitIn<'_>,
) -> Result<Packet, PacketRefusal>
    requires shape { CanRead shape.now.bands.items }
    requires few { length bits.old.ahead < 2 ^ 40 }
    ensures same { bits.new.bytes ≡ bits.old.bytes }
    ensures found { (result ≡ Err (refusal_of (fault_of bits.old.bytes)))
        ⊎ FoundHeader shape.now.bands.items bits.old bits.new result }
    ensures reads { (words : PacketWords) (rest : List Bool) → WordsFit shape.now.bands.items words
        → bits.old.ahead ≡ header_words words ++ rest →
        (result ≡ Ok (kept_packet words)) × Took bits.old (header_words words) bits.new }
    ensures zero_planes { (stop rest : List Bool) → ZeroStop shape.now.bands.items stop →
        bits.old.ahead ≡ stop ++ rest →
        (result ≡ Err (ZeroPlanesTooMany (last_place bits.new))) × Took bits.old stop bits.new }
    ensures passes { (stop rest : List Bool) → PassStop shape.now.bands.items stop →
        bits.old.ahead ≡ stop ++ rest →
        (result ≡ Err (PassesTooMany (last_place bits.new))) × Took bits.old stop bits.new }
{
    if !bits.take()? {
        return Ok(empty_packet(shape));
    }
    read_bands(shape, bits)
}

/// The packet without an included block.
fn empty_packet(shape: &PacketShape) -> Packet
    requires shape { CanRead shape.now.bands.items }
    ensures { result ≡ packet_of (empty_words shape.now.bands.items) }
{
    let mut bands = ArrayVec::new();
    for band in shape.bands.as_slice() {
        bands.push(empty_band(*band));
    }
    Packet { bands }
}

/// A band without an included block.
fn empty_band(shape: BandShape) -> PacketBand
    requires shape { CanReadBand shape }
    ensures { result ≡ band_of (empty_band shape) }
{
    let mut entries = ArrayVec::new();
    for _ in 0..shape.width * shape.height {
        entries.push(Entry::default());
    }
    PacketBand {
        width: shape.width,
        height: shape.height,
        planes: shape.planes,
        entries,
    }
}

/// The bands of a packet whose first bit is 1.
fn read_bands(shape: &PacketShape, bits: &mut BitIn<'_>) -> Result<Packet, PacketRefusal>
    requires shape { CanRead shape.now.bands.items }
    requires few { length bits.old.ahead < 2 ^ 40 }
    ensures same { bits.new.bytes ≡ bits.old.bytes }
    ensures found { (result ≡ Err (refusal_of (fault_of bits.old.bytes)))
        ⊎ FoundBands shape.now.bands.items bits.old bits.new result }
    ensures reads { (ending : BandsEnding) (rest : List Bool) →
        BandsEndingFits shape.now.bands.items ending →
        bits.old.ahead ≡ bands_ending_bits ending ++ rest → GivesBands ending bits.new result
        × Took bits.old (bands_ending_bits ending) bits.new }
{
    let mut bands = ArrayVec::new();
    for band in shape.bands.as_slice() {
        bands.push(read_band(*band, bits)?);
    }
    Ok(Packet { bands })
}
