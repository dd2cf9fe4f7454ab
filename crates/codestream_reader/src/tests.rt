// Tile-parts whose bytes are typed from the tables of ISO/IEC 15444-1, Annexes A and B: of frames
// of one pixel, whose component 0 has one index that isn't 0, and of frames of 3 by 2 pixels, whose
// codestreams a separate encoder wrote. The entries of code-blocks are read off the bits by hand.
ghost use Rattle.std.specs.Prelude.{◌≡◌, ◌<◌, ◌≤◌, ◌^◌, length};
ghost use Rattle.cine_nums.specs.Profile.{levels_of, parts_of};
ghost use Rattle.codestream_reader.specs.Spans.{AreReadable};

use crate::packets::read_packets;
use crate::part::{PartKnown, read_tile_part};
use crate::refusal::ReadRefusal;
use crate::span::BlockSpan;
use band_geometry::Geometry;
use cine_nums::Profile;
use cinema_markers::MarkerRefusal;
use dz_quantiser::StepSizes;
use packet_headers::{Entry, PacketRefusal};
use packet_order::order;
use std::alloc::{AllocError, Global};
use std::test::Fail;
use tile_parts::PartRefusal;

/// The codestream of a pixel with the index 64, of which 18 passes are kept.
#[rattlefmt::skip]
pub(crate) const PIXEL: [u8; 195] = [
    0xFF, 0x4F,
    0xFF, 0x51, 0x00, 0x2F, 0x00, 0x03, 0x00, 0x00, 0x00, 0x01, 0x00, 0x00, 0x00, 0x01,
    0x00, 0x00, 0x00, 0x00, 0x00, 0x00, 0x00, 0x00, 0x00, 0x00, 0x00, 0x01, 0x00, 0x00, 0x00, 0x01,
    0x00, 0x00, 0x00, 0x00, 0x00, 0x00, 0x00, 0x00, 0x00, 0x03,
    0x0B, 0x01, 0x01, 0x0B, 0x01, 0x01, 0x0B, 0x01, 0x01,
    0xFF, 0x52, 0x00, 0x12, 0x01, 0x04, 0x00, 0x01, 0x01, 0x05, 0x03, 0x03, 0x00, 0x00,
    0x77, 0x88, 0x88, 0x88, 0x88, 0x88,
    0xFF, 0x5C, 0x00, 0x23, 0x22, 0x90, 0x00, 0x90, 0x00, 0x90, 0x00, 0x90, 0x00, 0x88, 0x00,
    0x88, 0x00,
    0x88, 0x00, 0x80, 0x00, 0x80, 0x00, 0x80, 0x00, 0x78, 0x00, 0x78, 0x00, 0x78, 0x00, 0x70, 0x00,
    0x70, 0x00, 0x70, 0x00,
    0xFF, 0x55, 0x00, 0x13, 0x00, 0x50, 0x00, 0x00, 0x00, 0x00, 0x18, 0x00, 0x00, 0x00, 0x00, 0x14,
    0x00, 0x00, 0x00, 0x00, 0x14,
    0xFF, 0x90, 0x00, 0x0A, 0x00, 0x00, 0x00, 0x00, 0x00, 0x18, 0x00, 0x03, 0xFF, 0x93,
    0xC0, 0x07, 0xD8, 0x02, 0x04, 0x00, 0x00, 0x00, 0x00, 0x00,
    0xFF, 0x90, 0x00, 0x0A, 0x00, 0x00, 0x00, 0x00, 0x00, 0x14, 0x01, 0x03, 0xFF, 0x93,
    0x00, 0x00, 0x00, 0x00, 0x00, 0x00,
    0xFF, 0x90, 0x00, 0x0A, 0x00, 0x00, 0x00, 0x00, 0x00, 0x14, 0x02, 0x03, 0xFF, 0x93,
    0x00, 0x00, 0x00, 0x00, 0x00, 0x00,
    0xFF, 0xD9,
];

/// Its first tile-part with a segment PLT.
#[rattlefmt::skip]
pub(crate) const WITH_PLT: &[u8] = &[
    0xFF, 0x90, 0x00, 0x0A, 0x00, 0x00, 0x00, 0x00, 0x00, 0x23, 0x00, 0x03,
    0xFF, 0x58, 0x00, 0x09, 0x00, 0x05, 0x01, 0x01, 0x01, 0x01, 0x01,
    0xFF, 0x93, 0xC0, 0x07, 0xD8, 0x02, 0x04, 0x00, 0x00, 0x00, 0x00, 0x00,
];

/// That of the index 131,008 with 48 passes, in three bytes.
#[rattlefmt::skip]
const OF_131008: &[u8] = &[
    0xFF, 0x90, 0x00, 0x0A, 0x00, 0x00, 0x00, 0x00, 0x00, 0x1A, 0x00, 0x03, 0xFF, 0x93,
    0xDF, 0xF8, 0xB0, 0x18, 0x00, 0xEA, 0xC8, 0x00, 0x00, 0x00, 0x00, 0x00,
];

/// That of the index -131,072 with 51 passes, whose packet header has a bit stuffed after FF.
#[rattlefmt::skip]
const OF_131072: &[u8] = &[
    0xFF, 0x90, 0x00, 0x0A, 0x00, 0x00, 0x00, 0x00, 0x00, 0x18, 0x00, 0x03, 0xFF, 0x93,
    0xFF, 0x78, 0xE0, 0x08, 0x07, 0x00, 0x00, 0x00, 0x00, 0x00,
];

/// The first tile-part of 3 by 2 pixels, in 2K.
#[rattlefmt::skip]
const SMALL_2K: &[u8] = &[
    0xFF, 0x90, 0x00, 0x0A, 0x00, 0x00, 0x00, 0x00, 0x00, 0x26, 0x00, 0x03, 0xFF, 0x93,
    0xC0, 0x00, 0x7C, 0x00, 0x80, 0x03, 0x00, 0x00, 0x00, 0xC0, 0x01, 0xD0, 0x40, 0x09,
    0xC0, 0x01, 0x0C, 0x00, 0x7C, 0x01, 0x00, 0x03, 0x0A, 0x47,
];

/// The fourth in 4K, which has the highest resolution of component 0.
#[rattlefmt::skip]
const SMALL_4K: &[u8] = &[
    0xFF, 0x90, 0x00, 0x0A, 0x00, 0x00, 0x00, 0x00, 0x00, 0x18, 0x03, 0x06, 0xFF, 0x93,
    0xC0, 0x00, 0x86, 0x00, 0x1F, 0x00, 0x40, 0x03, 0x0A, 0x47,
];

/// The built-in steps.
fn steps_for(geometry: &Geometry) -> StepSizes
    requires levels { geometry.now.levels ≡ levels_of geometry.now.profile }
    ensures readable { AreReadable geometry.now.levels result }
{
    StepSizes::built_in(geometry.profile)
}

/// What reading a tile-part gave.
#[derive(Drop)]
struct Tried {
    result: Result<u32, ReadRefusal>,
    spans: Vec<BlockSpan>,
}

/// Reads a tile-part of a frame with the built-in steps.
fn try_part(
    alloc: Global,
    geometry: &Geometry,
    bytes: &[u8],
    at: u32,
    known: PartKnown,
) -> Result<Tried, AllocError>
    requires levels { geometry.now.levels ≡ levels_of geometry.now.profile }
    requires index { known.index < parts_of geometry.now.profile }
    requires inside { at ≤ length bytes.now }
    requires places { length bytes.now < 2 ^ 32 }
{
    let steps = steps_for(geometry);
    let ids = order(alloc, geometry, known.index)?;
    let mut spans = vec![in alloc; BlockSpan::default(); geometry.blocks() as usize]?;
    let result = read_tile_part(
        bytes,
        at,
        known,
        geometry,
        &steps,
        ids.as_slice(),
        &mut spans,
    );
    Ok(Tried { result, spans })
}

/// Reads the packets of component 0 of a frame in 2K from a place of `PIXEL` on.
#[tactic(auto, using(crate::proofs::Heads::of_frame, crate::proofs::Heads::all_differ))]
fn try_packets(
    alloc: Global,
    geometry: &Geometry,
    from: u32,
    stop: u32,
) -> Result<Result<u32, PacketRefusal>, AllocError>
    requires levels { geometry.now.levels ≡ levels_of geometry.now.profile }
    requires inside { from ≤ stop }
    requires end { stop ≤ 195 }
{
    let steps = steps_for(geometry);
    let ids = order(alloc, geometry, 0)?;
    let mut spans = vec![in alloc; BlockSpan::default(); geometry.blocks() as usize]?;
    Ok(read_packets(
        &PIXEL,
        from,
        stop,
        geometry,
        &steps,
        ids.as_slice(),
        &mut spans,
    ))
}

/// The span of an included block.
pub(crate) const fn span(zero_planes: u8, passes: u8, len: u32, at: u32) -> BlockSpan {
    BlockSpan {
        entry: Entry {
            included: true,
            zero_planes,
            passes,
            len,
        },
        at,
    }
}

/// That of a block that isn't.
pub(crate) const fn left_out(at: u32) -> BlockSpan {
    BlockSpan {
        entry: Entry {
            included: false,
            zero_planes: 0,
            passes: 0,
            len: 0,
        },
        at,
    }
}

/// The tile-part of this index of three.
const fn of_three(index: u8, size: u32) -> PartKnown
    ensures { result.index ≡ index }
{
    PartKnown {
        index,
        count: 3,
        size,
        size_at: 115 + 5 * index as u32,
    }
}

#[test]
fn the_three_tile_parts_of_a_pixel(rt: HostRuntime) -> Result<(), Fail> {
    let geometry = Geometry::new(Profile::TwoK, 5, 1, 1);
    let none = left_out(0);
    let first = try_part(rt.alloc(), &geometry, &PIXEL, 129, of_three(0, 24))?;
    assert_eq!(rt; first.result, Ok(153));
    assert_eq!(rt;
        first.spans.as_slice(),
        [span(11, 18, 1, 147), none, none].as_slice()
    );
    let second = try_part(rt.alloc(), &geometry, &PIXEL, 153, of_three(1, 20))?;
    assert_eq!(rt; second.result, Ok(173));
    assert_eq!(rt;
        second.spans.as_slice(),
        [none, left_out(168), none].as_slice()
    );
    let third = try_part(rt.alloc(), &geometry, &PIXEL, 173, of_three(2, 20))?;
    assert_eq!(rt; third.result, Ok(193));
    assert_eq!(rt;
        third.spans.as_slice(),
        [none, none, left_out(188)].as_slice()
    );
    Ok(())
}

#[test]
fn other_tile_parts_of_a_pixel(rt: HostRuntime) -> Result<(), Fail> {
    let geometry = Geometry::new(Profile::TwoK, 5, 1, 1);
    let none = left_out(0);
    for (bytes, size, block) in [
        (WITH_PLT, 35, span(11, 18, 1, 29)),
        (OF_131008, 26, span(1, 48, 3, 18)),
        (OF_131072, 24, span(0, 51, 1, 18)),
    ] {
        let tried = try_part(rt.alloc(), &geometry, bytes, 0, of_three(0, size))?;
        assert_eq!(rt; tried.result, Ok(size));
        assert_eq!(rt; tried.spans.as_slice(), [block, none, none].as_slice());
    }
    Ok(())
}

// The blocks of component 0 in 2K are those of LL, of HL of resolution 4, and of HL, LH and HH of
// resolution 5; in 4K the resolutions are 5 and 6.
#[test]
fn tile_parts_with_several_bands(rt: HostRuntime) -> Result<(), Fail> {
    let two_k = Geometry::new(Profile::TwoK, 5, 3, 2);
    let tried = try_part(rt.alloc(), &two_k, SMALL_2K, 0, of_three(0, 38))?;
    assert_eq!(rt; tried.result, Ok(38));
    assert_eq!(rt; tried.spans.len(), 15);
    assert_eq!(rt;
        tried.spans.as_slice().get(..5),
        Some([
            span(15, 6, 1, 19),
            span(13, 4, 1, 27),
            span(13, 1, 1, 35),
            span(11, 6, 2, 36),
            left_out(38),
        ]
        .as_slice())
    );
    let four_k = Geometry::new(Profile::FourK, 6, 3, 2);
    let known = PartKnown {
        index: 3,
        count: 6,
        size: 24,
        size_at: 155,
    };
    let tried = try_part(rt.alloc(), &four_k, SMALL_4K, 0, known)?;
    assert_eq!(rt; tried.result, Ok(24));
    assert_eq!(rt;
        tried.spans.as_slice().get(..5),
        Some([
            left_out(0),
            left_out(0),
            span(14, 1, 1, 21),
            span(12, 6, 2, 22),
            left_out(24),
        ]
        .as_slice())
    );
    Ok(())
}

/// What reading the first tile-part of `PIXEL` gives, with two bytes from the place `at` on changed
/// and another length in TLM.
fn try_changed(
    alloc: Global,
    at: usize,
    changed: u16,
    size: u32,
) -> Result<Result<u32, ReadRefusal>, AllocError> {
    let mut bytes = PIXEL;
    for (k, byte) in changed.to_be_bytes().into_iter().enumerate() {
        if let Some(place) = bytes.get_mut(at.wrapping_add(k)) {
            *place = byte;
        }
    }
    let geometry = Geometry::new(Profile::TwoK, 5, 1, 1);
    Ok(try_part(alloc, &geometry, &bytes, 129, of_three(0, size))?.result)
}

// SOT stands at 129, Psot at 135, TPsot at 139, TNsot at 140, and SOD at 141. The file ends at 195.
#[test]
fn damaged_heads_are_refused(rt: HostRuntime) -> Result<(), Fail> {
    for (at, changed, size, refusal) in [
        (129, 0xFF93, 24, PartRefusal::BadTilePart(129)),
        (131, 0x000B, 24, PartRefusal::BadTilePart(131)),
        (133, 0x0001, 24, PartRefusal::BadTilePart(133)),
        (137, 0x0000, 24, PartRefusal::PsotZero(135)),
        (137, 0x000D, 13, PartRefusal::BadTilePart(135)),
        (137, 0x0043, 67, PartRefusal::BadTilePart(135)),
        (139, 0x0103, 24, PartRefusal::BadTilePart(139)),
        (139, 0x0002, 24, PartRefusal::BadTilePart(140)),
        (141, 0xFF4F, 24, PartRefusal::TilePartMarker(141, 0xFF4F)),
        // PLT, whose length is more than the tile-part
        (141, 0xFF58, 24, PartRefusal::BadTilePart(141)),
    ] {
        let result = try_changed(rt.alloc(), at, changed, size)?;
        assert_eq!(rt; result, Err(ReadRefusal::Part(refusal)));
    }
    Ok(())
}

// The first packet stands at 143, and its body at 147.
#[test]
fn damaged_packets_are_refused(rt: HostRuntime) -> Result<(), Fail> {
    for (at, changed, size, refusal) in [
        // no packets, and five of six
        (137, 0x000E, 14, PacketRefusal::HeaderTruncated(143)),
        (137, 0x0017, 23, PacketRefusal::HeaderTruncated(152)),
        // 18 zero planes, 20 passes of 7 planes, 127 bytes, a bit of 1 stuffed after FF
        (144, 0x0000, 24, PacketRefusal::ZeroPlanesTooMany(145)),
        (144, 0x07DC, 24, PacketRefusal::PassesTooMany(145)),
        (145, 0xD8FE, 24, PacketRefusal::BodyTruncated(153)),
        (143, 0xFF87, 24, PacketRefusal::StuffedBitSet(144)),
    ] {
        let result = try_changed(rt.alloc(), at, changed, size)?;
        assert_eq!(rt; result, Err(ReadRefusal::Packet(refusal)));
    }
    Ok(())
}

// The first length in TLM stands at 115.
#[test]
fn other_lengths_are_refused(rt: HostRuntime) -> Result<(), Fail> {
    let differs = ReadRefusal::Main(MarkerRefusal::BadTlm(115));
    for (at, changed, size, refusal) in [
        (137, 0x0018, 25, differs),
        (137, 0x0019, 24, differs),
        // a byte after the last packet, and a first packet that is empty
        (137, 0x0019, 25, ReadRefusal::PartTooLong(153)),
        (143, 0x0007, 24, ReadRefusal::PartTooLong(149)),
    ] {
        assert_eq!(rt; try_changed(rt.alloc(), at, changed, size)?, Err(refusal));
    }
    Ok(())
}

// A packet's bytes end before `stop`, and bytes may follow the last one.
#[test]
fn packets_up_to_a_place(rt: HostRuntime) -> Result<(), Fail> {
    let geometry = Geometry::new(Profile::TwoK, 5, 1, 1);
    for (stop, result) in [
        (147, Err(PacketRefusal::BodyTruncated(147))),
        (150, Err(PacketRefusal::HeaderTruncated(150))),
        (153, Ok(153)),
        (160, Ok(153)),
    ] {
        assert_eq!(rt; try_packets(rt.alloc(), &geometry, 143, stop)?, result);
    }
    Ok(())
}
