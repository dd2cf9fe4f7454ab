// Codes that are known from outside.
use super::*;
use band_geometry::Rect;
use cine_nums::Orient;
use codeblock_views::{BlockViewMut, Known, KnownPlane};
use std::test::Fail;

/// A cell of a block.
fn known(magnitude: u32, negative: bool, unknown: u8) -> Known {
    Known {
        magnitude,
        negative,
        unknown,
    }
}

#[test]
fn reads_single_places(rt: HostRuntime) -> Result<(), Fail> {
    let rows = [
        ([0x03].as_slice(), 1, 1, known(1, false, 0)),
        ([0x07].as_slice(), 1, 1, known(1, true, 0)),
        ([0x03].as_slice(), 5, 7, known(2, false, 5)),
        ([0x04].as_slice(), 6, 7, known(4, false, 4)),
        ([0x04].as_slice(), 19, 7, known(64, false, 0)),
        (
            [0x00, 0xEA, 0xC8].as_slice(),
            48,
            17,
            known(131_008, false, 0),
        ),
        ([0x07].as_slice(), 51, 18, known(131_072, true, 0)),
        ([0x03].as_slice(), 0, 9, known(0, false, 9)),
        ([].as_slice(), 0, 0, known(0, false, 0)),
    ];
    for (bytes, passes, planes, cell) in rows {
        let mut plane = KnownPlane::new(rt.alloc(), 3, 3)?;
        plane.cells[4] = known(7, true, 7);
        plane.cells[5] = known(5, true, 3);
        let rect = Rect {
            x: 1,
            y: 1,
            width: 1,
            height: 1,
        };
        let mut block = BlockViewMut::of(&mut plane, rect);
        read(bytes, passes, planes, Orient::LL, &mut block);
        assert_eq!(rt; plane.cells[4], cell);
        assert_eq!(rt; plane.cells[5], known(5, true, 3));
        assert_eq!(rt; plane.cells[3], Known::default());
    }
    Ok(())
}

#[test]
fn reads_a_column_of_three_rows(rt: HostRuntime) -> Result<(), Fail> {
    let mut plane = KnownPlane::new(rt.alloc(), 1, 3)?;
    let rect = Rect {
        x: 0,
        y: 0,
        width: 1,
        height: 3,
    };
    let mut block = BlockViewMut::of(&mut plane, rect);
    read(&[0x0C], 1, 1, Orient::HH, &mut block);
    assert_eq!(rt; block.known(0, 0), Known::default());
    assert_eq!(rt; block.known(0, 1), Known::default());
    assert_eq!(rt; block.known(0, 2), known(1, false, 0));
    Ok(())
}

/// Only the upper left corner of the block of 265 symbols is 1; every other cell is known to be 0.
#[test]
fn reads_a_corner(rt: HostRuntime) -> Result<(), Fail> {
    let rows = [
        (Orient::LL, [0x14, 0xE8, 0xBF].as_slice()),
        (Orient::HL, [0x14, 0xE8, 0xBF].as_slice()),
        (Orient::LH, [0x14, 0xE8, 0xBF].as_slice()),
        (Orient::HH, [0x15, 0x81, 0xFF, 0x7F].as_slice()),
    ];
    for (orient, bytes) in rows {
        let mut plane = KnownPlane::new(rt.alloc(), 32, 32)?;
        plane.cells[0] = known(7, true, 7);
        plane.cells[1023] = known(3, true, 1);
        let rect = Rect {
            x: 0,
            y: 0,
            width: 32,
            height: 32,
        };
        let mut block = BlockViewMut::of(&mut plane, rect);
        read(bytes, 1, 1, orient, &mut block);
        assert_eq!(rt; plane.cells[0], known(1, false, 0));
        for cell in plane.cells.iter().skip(1) {
            assert_eq!(rt; *cell, Known::default());
        }
    }
    Ok(())
}
