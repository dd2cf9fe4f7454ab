// Whole codestreams of a frame of one pixel, changed, cut, and made longer. Places are counted off
// the bytes by hand.
use crate::refusal::ReadRefusal;
use crate::tests::{PIXEL, WITH_PLT, left_out, span};
use crate::whole::spans;
use cine_nums::Budget;
use cinema_markers::MarkerRefusal;
use std::alloc::{AllocError, Global};
use std::test::Fail;
use tile_parts::PartRefusal;

/// A segment COM of nine bytes.
const COMMENT: [u8; 9] = [0xFF, 0x64, 0x00, 0x07, 0x00, 0x01, 0x41, 0x42, 0x43];

/// Why `PIXEL` with these bytes from the place `at` on is refused.
fn refused_with(alloc: Global, at: usize, changed: &[u8]) -> Option<ReadRefusal> {
    let mut bytes = PIXEL;
    for (k, new) in changed.iter().enumerate() {
        if let Some(place) = bytes.get_mut(at.wrapping_add(k)) {
            *place = *new;
        }
    }
    spans(alloc, &bytes).err()
}

/// Why bytes are refused, None where there are 2^32 or more.
fn refused(alloc: Global, bytes: &[u8]) -> Option<ReadRefusal> {
    if bytes.len() >= 1 << 32 {
        return None;
    }
    spans(alloc, bytes).err()
}

#[test]
fn a_pixel_is_found(rt: HostRuntime) -> Result<(), Fail> {
    let found = spans(rt.alloc(), &PIXEL)?;
    assert_eq!(rt; found.read.bytes, 129);
    assert_eq!(rt;
        (
            found.geometry.width,
            found.geometry.height,
            found.geometry.levels
        ),
        (1, 1, 5)
    );
    assert_eq!(rt;
        (found.held.frame, found.held.component),
        (195, [24, 20, 20])
    );
    assert_eq!(rt;
        found.spans.as_slice(),
        [span(11, 18, 1, 147), left_out(168), left_out(188)].as_slice()
    );
    Ok(())
}

// COM stands after QCD, at 108, so that TLM begins at 117, and SOT of the first tile-part at 138. Its
// head has 25 bytes, and the first packet's 4.
#[test]
fn a_pixel_with_a_comment_and_lengths_of_packets(rt: HostRuntime) -> Result<(), Fail> {
    let mut bytes = Vec::new(rt.alloc());
    bytes.extend_from_slice(&PIXEL[..108])?;
    bytes.extend_from_slice(&COMMENT)?;
    bytes.extend_from_slice(&PIXEL[108..115])?;
    bytes.extend_from_slice(&[0x00, 0x00, 0x00, 0x23])?;
    bytes.extend_from_slice(&PIXEL[119..129])?;
    bytes.extend_from_slice(WITH_PLT)?;
    bytes.extend_from_slice(&PIXEL[153..])?;
    let found = spans(rt.alloc(), bytes.as_slice())?;
    assert_eq!(rt; found.read.bytes, 138);
    assert_eq!(rt;
        (found.held.frame, found.held.component),
        (215, [35, 20, 20])
    );
    assert_eq!(rt;
        found.spans.as_slice(),
        [span(11, 18, 1, 167), left_out(188), left_out(208)].as_slice()
    );
    Ok(())
}

// Rsiz stands at 6, QCD at 71 with its guard bits at 75 and a step of two bytes a band from 76 on,
// TLM at 108 with its lengths at 115, 120 and 125, and EOC at 193.
#[test]
fn changed_codestreams_are_refused(rt: HostRuntime) -> Result<(), Fail> {
    for (at, changed, refusal) in [
        (0, [0xFF, 0x4E], ReadRefusal::Main(MarkerRefusal::NotSoc(0))),
        (
            6,
            [0x00, 0x00],
            ReadRefusal::Main(MarkerRefusal::NotCinema(6)),
        ),
        // 7 guard bits, and the exponent 31 in the first band
        (75, [0xE2, 0xF8], ReadRefusal::TooManyPlanes(0)),
        (
            117,
            [0x00, 0x19],
            ReadRefusal::Main(MarkerRefusal::BadTlm(115)),
        ),
        (
            122,
            [0x00, 0x15],
            ReadRefusal::Main(MarkerRefusal::BadTlm(120)),
        ),
        (
            127,
            [0x00, 0x13],
            ReadRefusal::Main(MarkerRefusal::BadTlm(125)),
        ),
        (193, [0xFF, 0xD8], ReadRefusal::MissingEnd(193)),
        (193, [0x00, 0xD9], ReadRefusal::MissingEnd(193)),
    ] {
        let result = refused_with(rt.alloc(), at, &changed);
        assert_eq!(rt; result, Some(refusal));
    }
    Ok(())
}

/// Why the first `n` bytes of `PIXEL` are refused: in the main header at their end, then by too few
/// bytes for SOT, by Psot, and at last without EOC.
fn cut_at(n: usize) -> ReadRefusal {
    match n {
        ..131 => ReadRefusal::Main(MarkerRefusal::SegmentTruncated(n as u32)),
        131..141 => ReadRefusal::Part(PartRefusal::BadTilePart(129)),
        141..153 => ReadRefusal::Part(PartRefusal::BadTilePart(135)),
        153..165 => ReadRefusal::Part(PartRefusal::BadTilePart(153)),
        165..173 => ReadRefusal::Part(PartRefusal::BadTilePart(159)),
        173..185 => ReadRefusal::Part(PartRefusal::BadTilePart(173)),
        185..193 => ReadRefusal::Part(PartRefusal::BadTilePart(179)),
        _ => ReadRefusal::MissingEnd(193),
    }
}

#[test]
fn a_codestream_that_is_cut_is_refused(rt: HostRuntime) -> Result<(), Fail> {
    for n in 0..195 {
        assert_eq!(rt; spans(rt.alloc(), &PIXEL[..n]).err(), Some(cut_at(n)));
    }
    Ok(())
}

#[test]
fn a_byte_after_the_end_is_refused(rt: HostRuntime) -> Result<(), Fail> {
    let mut bytes = Vec::new(rt.alloc());
    bytes.extend_from_slice(&PIXEL)?;
    bytes.push(0)?;
    let result = spans(rt.alloc(), bytes.as_slice()).err();
    assert_eq!(rt; result, Some(ReadRefusal::BytesAfterEnd(195)));
    Ok(())
}

// No codestream, of one byte more than a frame may have.
#[test]
fn more_bytes_than_a_frame_are_refused(rt: HostRuntime) -> Result<(), Fail> {
    let bytes = vec![in rt.alloc(); 0; 1_302_084]?;
    let result = refused(rt.alloc(), bytes.as_slice());
    assert_eq!(rt;
        result,
        Some(ReadRefusal::LimitExceeded(Budget::Frame, 1_302_084))
    );
    let bytes = vec![in rt.alloc(); 0; 1_302_083]?;
    let result = refused(rt.alloc(), bytes.as_slice());
    assert_eq!(rt; result, Some(ReadRefusal::Main(MarkerRefusal::NotSoc(0))));
    Ok(())
}

// The first tile-part has 16 segments COM of 65,537 bytes after SOT: 1,048,616 bytes, 00100028 in
// base 16, of which a component may have 1,041,666.
#[test]
fn a_component_of_too_many_bytes_is_refused(rt: HostRuntime) -> Result<(), Fail> {
    let mut bytes = Vec::new(rt.alloc());
    bytes.extend_from_slice(&PIXEL[..115])?;
    bytes.extend_from_slice(&[0x00, 0x10, 0x00, 0x28])?;
    bytes.extend_from_slice(&PIXEL[119..135])?;
    bytes.extend_from_slice(&[0x00, 0x10, 0x00, 0x28])?;
    bytes.extend_from_slice(&PIXEL[139..141])?;
    for _ in 0..16 {
        bytes.extend_from_slice(&[0xFF, 0x64, 0xFF, 0xFF])?;
        let content = vec![in rt.alloc(); 0; 65_533]?;
        bytes.extend_from_slice(content.as_slice())?;
    }
    bytes.extend_from_slice(&PIXEL[141..])?;
    let result = refused(rt.alloc(), bytes.as_slice());
    assert_eq!(rt;
        result,
        Some(ReadRefusal::LimitExceeded(Budget::C0, 1_048_616))
    );
    Ok(())
}
