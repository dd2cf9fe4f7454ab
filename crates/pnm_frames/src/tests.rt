// Files at the edges of the grammar: what is read of each, and the place of the first fault.
ghost use Rattle.std.specs.Prelude.{◌≡◌, ◌≤◌, false, IsTrue, IfOk};
ghost use Rattle.cine_ports.specs.Source.{Reading};

use super::*;
use cine_nums::Profile;
use cine_ports::{Frames, MemoryFrame, MemoryFrames, is_frame_list};
use std::alloc::{AllocError, Global};
use std::test::Fail;

/// A frame of one pixel, whose samples differ in both bytes.
const PIXEL: &[u8] = b"P6\n1 1\n4095\n\x01\x02\x0A\x0B\x0F\xFF";

/// A frame of two rows of one pixel.
const COLUMN: &[u8] = b"P6 1\t2\r\n04095 \x00\x01\x00\x02\x00\x03\x01\x00\x02\x00\x03\x00";

/// A frame of one row of two pixels.
const ROW: &[u8] = b"P6\n2 1\n4095\n\x00\x01\x00\x02\x00\x03\x01\x00\x02\x00\x03\x00";

/// The frame of one pixel with a comment in each gap of its header, and a `#` in its raster.
const WITH_COMMENTS: &[u8] = b"P6#1 2\r\n1# \n 1\t#4095\r#\n4095\n\x01#\x0A#\x0F#";

const LIMITS: SizeLimits = SizeLimits {
    width: 2048,
    height: 1080,
};

/// Files whose header is refused, or ends too early.
const HEADER_FAULTS: &[(&[u8], FrameFault)] = &[
    (b"", FrameFault::Truncated(0)),
    (b"p6", FrameFault::NotPpm),
    (b"P5\n1 1\n4095\n", FrameFault::NotPpm),
    (b"P#", FrameFault::NotPpm),
    (b"P61 1", FrameFault::BadHeader(2)),
    (b"P6\x0B", FrameFault::BadHeader(2)),
    (b"P6\x0C", FrameFault::BadHeader(2)),
    (b"P6\nx", FrameFault::BadHeader(3)),
    (b"P6\n-1 1", FrameFault::BadHeader(3)),
    (b"P6\n\x00", FrameFault::BadHeader(3)),
    (b"P6\n1\t\r\n +", FrameFault::BadHeader(8)),
    (b"P6\n1 1/", FrameFault::BadHeader(6)),
    (b"P6\n1 1:", FrameFault::BadHeader(6)),
    (b"P6\n1 1\n4095\x08", FrameFault::BadHeader(11)),
    // The byte that ends a number is judged before the number.
    (b"P6\n2049x", FrameFault::BadHeader(7)),
    (b"P6\n1 0x", FrameFault::BadHeader(6)),
    (b"P6\n1 1 255x", FrameFault::BadHeader(10)),
    (b"P6\n2049", FrameFault::Truncated(7)),
    // The first number that is wrong is reported.
    (b"P6\n0 0 0 ", FrameFault::WidthOutOfRange),
    (b"P6\n2049 1\n4095\n", FrameFault::WidthOutOfRange),
    (b"P6\n4294967297 1\n4095\n", FrameFault::WidthOutOfRange),
    (
        b"P6\n18446744073709551617 1\n4095\n",
        FrameFault::WidthOutOfRange,
    ),
    (b"P6\n1 0\n4095\n", FrameFault::HeightOutOfRange),
    (b"P6\n2048 1081\n65535\n", FrameFault::HeightOutOfRange),
    (b"P6\n1 1\n65535\n", FrameFault::WrongMaxval),
    (b"P6\n1 1\n4294971391\n", FrameFault::WrongMaxval),
    (b"P6\n1 1\n4094\n\xFF\xFF", FrameFault::WrongMaxval),
    (b"P6\n1 1\n4096\n", FrameFault::WrongMaxval),
    // A comment stands in a gap alone.
    (b"#\nP6\n1 1\n4095\n", FrameFault::NotPpm),
    (b"P#\n6\n1 1\n4095\n", FrameFault::NotPpm),
    (b"P6\n#\n\x0B", FrameFault::BadHeader(5)),
    (b"P6#1\n-1 1", FrameFault::BadHeader(5)),
    (b"P6\n1 1\n4095#\n", FrameFault::BadHeader(11)),
    (b"P6\n1 1\n#\n255#\n", FrameFault::BadHeader(12)),
    // It is cut off by the end of the file.
    (b"P6#", FrameFault::Truncated(3)),
    (b"P6\n# 1 1 4095 ", FrameFault::Truncated(14)),
    (b"P6\n1#\n1#\x0B\x0C\x00\xFF", FrameFault::Truncated(12)),
    (b"P6\n1 1 #\r##", FrameFault::Truncated(11)),
    // A `#` ends the width and the height, which are judged there.
    (b"P6\n0#", FrameFault::WidthOutOfRange),
    (b"P6\n2049# 1\n4095\n", FrameFault::WidthOutOfRange),
    (b"P6\n1 1081#\n4095\n", FrameFault::HeightOutOfRange),
    (b"P6 1#x\n2 1\n4095\n", FrameFault::WrongMaxval),
];

/// Headers of a frame of one pixel with comments in their gaps.
const COMMENTED: &[&[u8]] = &[
    // As GIMP, ImageMagick's convert and Netpbm's manual write them.
    b"P6\n# CREATOR: GIMP PNM Filter Version 1.1\n1 1\n4095\n",
    b"P6\n# Created by GIMP version 2.10.34 PNM plug-in\n1 1\n4095\n",
    b"P6\n#two lines\n1 1\n4095\n",
    b"P6\n# feep.ppm\n1 1\n4095\n",
    b"P6\n# 12 bit\n1 1\n4095\n",
    // In each gap, ended by LF or CR, alone and among white space.
    b"P6#\n1 1 4095 ",
    b"P6 1#\n1 4095 ",
    b"P6 1 1#\r4095 ",
    b"P6#a\r1#b\n1#c\r4095\r",
    b"P6\t#a\n\n1 #b\r\n 1\r#c\n 4095\t",
    b"P6\r\n# a\r\n1 1\r\n4095\n",
    // Any other bytes belong to the comment, a `#` and numbers too.
    b"P6\n#\n##\n# 9 9 255\n\n#\x00\xFF\t P5 #\x0B\x0C\n01 001\n04095\n",
];

/// Files whose raster is refused, or is too short or too long.
const RASTER_FAULTS: &[(&[u8], FrameFault)] = &[
    // A `#` after the header is a byte of the raster.
    (
        b"P6\n1 1\n4095\n#\n\x08\x00\x08\x00\x08\x00",
        FrameFault::SampleTooLarge(12),
    ),
    (
        b"P6\n1 1\n4095 # 12 bit\n\x08\x00\x08\x00\x08\x00",
        FrameFault::SampleTooLarge(12),
    ),
    (
        b"P6#\n1 1\n4095\n\x00#\x00\n\x00#\n",
        FrameFault::TrailingBytes,
    ),
    (
        b"P6\n1 1\n4095\n\x08\x00\x10\x00\x08\x00",
        FrameFault::SampleTooLarge(14),
    ),
    (b"P6\n1 1\n4095\n\x10\x00", FrameFault::SampleTooLarge(12)),
    (b"P6\n1 1\n4095\n\xFF", FrameFault::Truncated(13)),
    (
        b"P6\n1 1\n4095\n\x00\x00\x00\x00\xFF\xFF\xFF",
        FrameFault::SampleTooLarge(16),
    ),
    (
        b"P6\n1 2\n4095\n\x00\x00\x00\x00\x00\x00",
        FrameFault::Truncated(18),
    ),
    (
        b"P6\n1 2\n4095\n\x00\x00\x00\x00\x00\x00\x00\x00\x10\x00\xFF\xFF",
        FrameFault::SampleTooLarge(20),
    ),
    (
        b"P6\n1 1\n4095\n\x08\x00\x08\x00\x08",
        FrameFault::Truncated(17),
    ),
    (
        b"P6\n1 1\n4095\n\x08\x00\x08\x00\x08\x00\x00",
        FrameFault::TrailingBytes,
    ),
    (
        b"P6\n1 1\n4095\n\n\x00\x08\x00\x08\x00\x08\x00",
        FrameFault::TrailingBytes,
    ),
];

/// A begun frame of these bytes, of whose reads those of these numbers fail, counted from 2, and
/// which is read by pieces.
fn begun(alloc: Global, bytes: &[u8], failing: &[u32], piece: u32) -> Result<MemoryFrames, Fail>
    requires { 1 ≤ piece }
    ensures begun { IfOk result (λ frames. IsTrue frames.reading.is_begun) }
    ensures working { IfOk result (λ frames. frames.has_failed ≡ false) }
{
    let mut files = Vec::new(alloc);
    files.push(MemoryFrame {
        name: String::from_str(alloc, "a")?,
        bytes: Vec::from_slice(alloc, bytes)?,
    })?;
    if !is_frame_list(files.as_slice()) {
        return Err(Fail::new("the names aren't in order"));
    }
    let mut frames = MemoryFrames::new(files, Vec::from_slice(alloc, failing)?, piece);
    frames.list()?;
    if frames.count() == 0 {
        return Err(Fail::new("no frame"));
    }
    frames.begin(0)?;
    Ok(frames)
}

/// The fault for which the whole file is refused, or None where it is read.
fn fault(alloc: Global, bytes: &[u8]) -> Result<Option<FrameFault>, Fail> {
    let mut frames = begun(alloc, bytes, &[], 5)?;
    match read_frame(alloc, &mut frames, LIMITS) {
        Ok(_) => Ok(None),
        Err(FrameRefusal::Fault(fault)) => Ok(Some(fault)),
        Err(_) => Err(Fail::new("no fault of the file")),
    }
}

#[test]
fn a_faulty_header_is_refused(rt: HostRuntime) -> Result<(), Fail> {
    let alloc = rt.alloc();
    for (bytes, want) in HEADER_FAULTS {
        let mut frames = begun(alloc, bytes, &[], 3)?;
        let header = read_header(&mut frames, LIMITS);
        assert!(rt;
            header == Err(FrameRefusal::Fault(*want)),
            "header of {bytes:?}"
        );
        assert!(rt; fault(alloc, bytes)? == Some(*want), "frame of {bytes:?}");
    }
    Ok(())
}

#[test]
fn a_faulty_raster_is_refused(rt: HostRuntime) -> Result<(), Fail> {
    let alloc = rt.alloc();
    for (bytes, want) in RASTER_FAULTS {
        assert!(rt; fault(alloc, bytes)? == Some(*want), "{bytes:?}");
    }
    Ok(())
}

#[test]
fn every_shorter_file_is_truncated(rt: HostRuntime) -> Result<(), Fail> {
    let alloc = rt.alloc();
    for file in [PIXEL, COLUMN, ROW, WITH_COMMENTS] {
        for n in 0..file.len() {
            let want = Some(FrameFault::Truncated(n as u32));
            assert!(rt; fault(alloc, &file[..n])? == want, "{n} bytes of {file:?}");
        }
        assert!(rt; fault(alloc, file)?.is_none(), "{file:?}");
    }
    Ok(())
}

/// The magic number, LF, and so many more bytes of one kind.
fn long_header(alloc: Global, byte: u8, count: u32, end: &[u8]) -> Result<Vec<u8>, AllocError> {
    let mut bytes = Vec::from_slice(alloc, b"P6\n".as_slice())?;
    for _ in 0..count {
        bytes.push(byte)?;
    }
    bytes.extend_from_slice(end)?;
    Ok(bytes)
}

/// The longest header has 4,096 bytes.
const LONG_HEADERS: &[(u8, u32, &[u8], Option<FrameFault>)] = &[
    (b' ', 4092, b"", Some(FrameFault::Truncated(4095))),
    (b' ', 4093, b"", Some(FrameFault::HeaderTooLong)),
    (b' ', 4093, b"1", Some(FrameFault::HeaderTooLong)),
    (b' ', 4092, b"x", Some(FrameFault::BadHeader(4095))),
    (b' ', 4091, b"#", Some(FrameFault::Truncated(4095))),
    (b' ', 4092, b"#", Some(FrameFault::HeaderTooLong)),
    (b'0', 4093, b"", Some(FrameFault::HeaderTooLong)),
    (b'9', 4000, b" ", Some(FrameFault::WidthOutOfRange)),
    (b'9', 4092, b" ", Some(FrameFault::WidthOutOfRange)),
    (b'9', 4093, b" ", Some(FrameFault::HeaderTooLong)),
    (b'9', 4092, b"#", Some(FrameFault::WidthOutOfRange)),
    (b'9', 4093, b"#", Some(FrameFault::HeaderTooLong)),
    (b'9', 5000, b" ", Some(FrameFault::HeaderTooLong)),
    (b'#', 4092, b"", Some(FrameFault::Truncated(4095))),
    (b'#', 4093, b"", Some(FrameFault::HeaderTooLong)),
    (b'#', 4092, b"\n", Some(FrameFault::HeaderTooLong)),
    (b'#', 4092, b"\nx", Some(FrameFault::HeaderTooLong)),
    (b'#', 4091, b"\nx", Some(FrameFault::BadHeader(4095))),
    (b'#', 4083, b"\n1 1 4095\n\x00\x00\x00\x00\x00\x00", None),
    (
        b'#',
        4084,
        b"\n1 1 4095\n\x00\x00\x00\x00\x00\x00",
        Some(FrameFault::HeaderTooLong),
    ),
    (b' ', 4085, b"1 1 255\n", Some(FrameFault::WrongMaxval)),
    (b' ', 4084, b"1 1 4095\n\x00\x00\x00\x00\x00\x00", None),
    (b'0', 4084, b"1 1 4095\n\x00\x00\x00\x00\x00\x00", None),
    (
        b' ',
        4085,
        b"1 1 4095\n\x00\x00\x00\x00\x00\x00",
        Some(FrameFault::HeaderTooLong),
    ),
];

#[test]
fn a_header_has_at_most_4096_bytes(rt: HostRuntime) -> Result<(), Fail> {
    let alloc = rt.alloc();
    for (byte, count, end, want) in LONG_HEADERS {
        let bytes = long_header(alloc, *byte, *count, end)?;
        assert!(rt;
            fault(alloc, bytes.as_slice())? == *want,
            "{count} times {byte} and {end:?}"
        );
    }
    Ok(())
}

#[test]
fn pictures_are_read(rt: HostRuntime) -> Result<(), Fail> {
    let alloc = rt.alloc();
    for (bytes, width, height) in [(COLUMN, 1, 2), (ROW, 2, 1)] {
        for piece in [1, 5, 100] {
            let mut frames = begun(alloc, bytes, &[], piece)?;
            let frame = read_frame(alloc, &mut frames, LIMITS)?;
            assert!(rt; frame.width == width && frame.height == height);
            assert!(rt; frame.x.as_slice() == [1, 256].as_slice());
            assert!(rt; frame.y.as_slice() == [2, 512].as_slice());
            assert!(rt; frame.z.as_slice() == [3, 768].as_slice());
        }
    }
    let frame = read_frame(alloc, &mut begun(alloc, PIXEL, &[], 100)?, LIMITS)?;
    assert!(rt; frame.x.as_slice() == [258].as_slice());
    assert!(rt; frame.y.as_slice() == [2571].as_slice());
    assert!(rt; frame.z.as_slice() == [4095].as_slice());
    Ok(())
}

/// A file of grey pixels.
fn grey(alloc: Global, header: &[u8], count: u32) -> Result<Vec<u8>, AllocError> {
    let mut bytes = Vec::from_slice(alloc, header)?;
    for _ in 0..count {
        bytes.extend_from_slice(b"\x08\x00\x08\x00\x08\x00".as_slice())?;
    }
    Ok(bytes)
}

#[test]
fn comments_are_read_over(rt: HostRuntime) -> Result<(), Fail> {
    let alloc = rt.alloc();
    for header in COMMENTED {
        let file = grey(alloc, header, 1)?;
        let want = Header {
            width: 1,
            height: 1,
            bytes: header.len() as u32,
        };
        let read = read_header(&mut begun(alloc, file.as_slice(), &[], 3)?, LIMITS);
        assert!(rt; read == Ok(want), "header {header:?}");
        let mut frames = begun(alloc, file.as_slice(), &[], 100)?;
        let frame = read_frame(alloc, &mut frames, LIMITS)?;
        assert!(rt;
            frame.x.as_slice() == [2048].as_slice(),
            "frame of {header:?}"
        );
    }
    let frame = read_frame(alloc, &mut begun(alloc, WITH_COMMENTS, &[], 5)?, LIMITS)?;
    assert!(rt; frame.x.as_slice() == [0x123].as_slice());
    assert!(rt; frame.y.as_slice() == [0xA23].as_slice());
    assert!(rt; frame.z.as_slice() == [0xF23].as_slice());
    Ok(())
}

#[test]
fn sides_up_to_the_limits_are_read(rt: HostRuntime) -> Result<(), Fail> {
    let alloc = rt.alloc();
    let wide = grey(alloc, b"P6\n2048 1\n4095\n", 2048)?;
    assert!(rt; fault(alloc, wide.as_slice())?.is_none());
    let high = grey(alloc, b"P6\n1 1080\n4095\n", 1080)?;
    assert!(rt; fault(alloc, high.as_slice())?.is_none());
    let larger = SizeLimits {
        width: 4096,
        height: 2160,
    };
    let mut frames = begun(alloc, b"P6\n4096 2160\n4095\n", &[], 7)?;
    let want = Header {
        width: 4096,
        height: 2160,
        bytes: 18,
    };
    assert!(rt; read_header(&mut frames, larger) == Ok(want));
    let mut frames = begun(alloc, b"P6\n2049 1081\n4095\n", &[], 7)?;
    assert!(rt; read_header(&mut frames, larger).is_ok());
    Ok(())
}

#[test]
fn the_largest_frame_is_read(rt: HostRuntime) -> Result<(), Fail> {
    let alloc = rt.alloc();
    let limits = SizeLimits {
        width: Profile::FourK.max_width(),
        height: Profile::FourK.max_height(),
    };
    let mut bytes = grey(alloc, b"P6\n4096 2160\n4095\n", 4096 * 2160 - 1)?;
    bytes.extend_from_slice(b"\x00\x01\x00\x02\x0F\xFF".as_slice())?;
    let mut frames = begun(alloc, bytes.as_slice(), &[], 1 << 20)?;
    let frame = read_frame(alloc, &mut frames, limits)?;
    assert!(rt; frame.width == 4096 && frame.height == 2160);
    for (plane, last) in [(&frame.x, 1), (&frame.y, 2), (&frame.z, 4095)] {
        assert_eq!(rt; plane.len(), 4096 * 2160);
        assert_eq!(rt; plane.first().copied(), Some(2048));
        assert_eq!(rt; plane.last().copied(), Some(last));
    }
    Ok(())
}

#[test]
fn faults_are_numbered(rt: HostRuntime) {
    let faults = [
        FrameFault::NotPpm,
        FrameFault::BadHeader(0),
        FrameFault::HeaderTooLong,
        FrameFault::WrongMaxval,
        FrameFault::WidthOutOfRange,
        FrameFault::HeightOutOfRange,
        FrameFault::SampleTooLarge(0),
        FrameFault::Truncated(0),
        FrameFault::TrailingBytes,
    ];
    for i in 0..9 {
        assert_eq!(rt; faults[i].number() as usize, i + 1);
    }
}

#[test]
fn a_failed_read_is_refused_at_once(rt: HostRuntime) -> Result<(), Fail> {
    let alloc = rt.alloc();
    // Of single bytes each is one read, and the end is one more.
    for n in 0..PIXEL.len() + 1 {
        let mut frames = begun(alloc, PIXEL, &[2 + n as u32], 1)?;
        let read = read_frame(alloc, &mut frames, LIMITS);
        assert!(rt; read.err() == Some(FrameRefusal::Source), "read {n}");
    }
    Ok(())
}

#[test]
fn rows_are_read_one_by_one(rt: HostRuntime) -> Result<(), Fail> {
    let alloc = rt.alloc();
    let mut frames = begun(alloc, COLUMN, &[], 4)?;
    let header = read_header(&mut frames, LIMITS)?;
    assert_eq!(rt; header.bytes, 14);
    let mut at = header.bytes;
    let mut scratch = [0; 6];
    let mut row = [0; 3];
    read_row(&mut frames, &mut at, &mut scratch, &mut row)?;
    assert!(rt; row == [1, 2, 3]);
    read_row(&mut frames, &mut at, &mut scratch, &mut row)?;
    assert!(rt; row == [256, 512, 768]);
    assert_eq!(rt; at, 26);
    expect_end(&mut frames)?;
    Ok(())
}
