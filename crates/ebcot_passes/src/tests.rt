// Codes that are known from outside.
ghost use Rattle.std.specs.Prelude.{◌≡◌, ◌+◌, ◌*◌, ◌≤◌, length};
ghost use Rattle.codeblock_views.specs.Magnitudes.{block_planes};

use super::*;
use arrayvec::ArrayVec;
use band_geometry::Rect;
use cine_nums::Orient;
use codeblock_views::{BlockView, CoefPlane, Coefs};
use dz_quantiser::Coef;
use mq_coder::{Encoder, Mark, ending};
use std::test::Fail;

/// A block that lies at the left of a grid, of which the first places of its first column are
/// given.
fn grid_of(column: &[u32; 4]) -> [u32; 1024] {
    let mut grid = [0; 1024];
    grid[0] = column[0];
    grid[32] = column[1];
    grid[64] = column[2];
    grid[96] = column[3];
    grid
}

/// The mark after the next `passes` passes, or after all where there are fewer.
fn code_passes(block: &mut BlockCoder, bytes: &mut [u8; 16384], passes: u32) -> Mark {
    let mut mark = Mark::default();
    for _ in 0..passes {
        if block.has_more() && block.has_room(bytes) {
            mark = block.code_pass(bytes).mark;
        }
    }
    mark
}

/// The ended code at a mark, of at most 8 bytes.
fn code_at(mark: &Mark, bytes: &[u8]) -> ArrayVec<u8, 8> {
    let ended = ending(mark);
    let mut all = ArrayVec::new();
    for byte in bytes.iter().take(ended.kept as usize) {
        let _ = all.try_push(*byte);
    }
    for byte in ended.tail.as_slice() {
        let _ = all.try_push(*byte);
    }
    all
}

#[test]
fn codes_single_places(rt: HostRuntime) {
    let minus = 0x8000_0000;
    let rows = [
        (1, 1, [1, 0, 0, 0], 1, [0x03].as_slice()),
        (1, 1, [1 + minus, 0, 0, 0], 1, [0x07].as_slice()),
        (3, 1, [0, 0, 1, 0], 1, [0x0C].as_slice()),
        (1, 7, [64, 0, 0, 0], 1, [0x03].as_slice()),
        (1, 7, [64, 0, 0, 0], 5, [0x03].as_slice()),
        (1, 7, [64, 0, 0, 0], 6, [0x04].as_slice()),
        (1, 7, [64, 0, 0, 0], 19, [0x04].as_slice()),
        (1, 17, [131_008, 0, 0, 0], 48, [0x00, 0xEA, 0xC8].as_slice()),
        (1, 18, [131_072 + minus, 0, 0, 0], 51, [0x07].as_slice()),
    ];
    for (height, planes, column, passes, code) in rows {
        let mut bytes = [0; 16384];
        let mut block = BlockCoder::begin(Orient::LL, 1, height, planes, &grid_of(&column), 0);
        let mark = code_passes(&mut block, &mut bytes, passes);
        assert_eq!(rt; code_at(&mark, &bytes).as_slice(), code);
    }
}

/// Puts a list of symbols, each of which has a context below 19.
fn put_all(encoder: &mut Encoder, symbols: &[(u8, bool)]) {
    for (cx, bit) in symbols {
        if *cx < 19 && encoder.has_room() {
            encoder.put(*cx, *bit);
        }
    }
}

/// A block of 32 by 32 places with 1 at its upper left corner alone has 265 symbols: a run that
/// ends in its first row, the sign, the places about the corner, then 254 columns in run mode. The
/// contexts are those of the places below the corner, beside it, and diagonal to it.
#[test]
fn codes_a_corner(rt: HostRuntime) {
    let rows = [
        (Orient::LL, 3, 5, 1, [0x14, 0xE8, 0xBF].as_slice()),
        (Orient::HL, 5, 3, 1, [0x14, 0xE8, 0xBF].as_slice()),
        (Orient::LH, 3, 5, 1, [0x14, 0xE8, 0xBF].as_slice()),
        (Orient::HH, 1, 1, 3, [0x15, 0x81, 0xFF, 0x7F].as_slice()),
    ];
    for (orient, below, beside, diagonal, code) in rows {
        let mut bytes = [0; 16384];
        let mut block = BlockCoder::begin(orient, 32, 32, 1, &grid_of(&[1, 0, 0, 0]), 9);
        let mark = code_passes(&mut block, &mut bytes, 1);
        assert_eq!(rt; code_at(&mark, &bytes).as_slice(), code);
        assert_eq!(rt; (block.distortion(), block.has_more()), (0, false));
        let mut others = [0; 64];
        let mut encoder = Encoder::new(&mut others);
        put_all(
            &mut encoder,
            &[(17, true), (18, false), (18, false), (9, false)],
        );
        put_all(
            &mut encoder,
            &[(below, false), (0, false), (0, false), (beside, false)],
        );
        put_all(&mut encoder, &[(diagonal, false), (0, false), (0, false)]);
        put_all(&mut encoder, &[(17, false); 254]);
        let mark = encoder.mark();
        assert_eq!(rt; code_at(&mark, encoder.finish()).as_slice(), code);
    }
}

#[test]
fn goes_on_after_each_pass(rt: HostRuntime) {
    let grid = grid_of(&[64, 0, 0, 0]);
    let mut bytes = [0; 16384];
    let mut block = BlockCoder::begin(Orient::HH, 1, 1, 7, &grid, 16641);
    let early = code_passes(&mut block, &mut bytes, 5);
    let late = code_passes(&mut block, &mut bytes, 14);
    assert_eq!(rt; code_at(&early, &bytes).as_slice(), [0x03].as_slice());
    assert_eq!(rt; code_at(&late, &bytes).as_slice(), [0x04].as_slice());
    assert!(rt; !block.has_more());
}

/// The ended code of a block after so many of its passes, and no byte where it has fewer.
fn code_after(coded: &BlockCode, passes: usize, bytes: &[u8]) -> ArrayVec<u8, 8> {
    for (k, pass) in coded.passes.as_slice().iter().enumerate() {
        if k + 1 == passes {
            return code_at(&pass.mark, bytes);
        }
    }
    ArrayVec::new()
}

/// The distortion after so many of its passes, and that before the first where it has fewer.
fn left_after(coded: &BlockCode, passes: usize) -> u64 {
    for (k, pass) in coded.passes.as_slice().iter().enumerate() {
        if k + 1 == passes {
            return pass.distortion;
        }
    }
    coded.start
}

#[test]
fn codes_all_passes(rt: HostRuntime) -> Result<(), Fail> {
    let mut plane = CoefPlane::new(rt.alloc(), 1, 1)?;
    plane.cells[0] = Coef::new(64, false);
    let whole = Rect {
        x: 0,
        y: 0,
        width: 1,
        height: 1,
    };
    let block = BlockView::of(&plane, whole);
    let mut bytes = [0; 77312];
    let coded = code(&block, Orient::HH, &mut bytes);
    assert_eq!(rt;
        (coded.planes, coded.passes.len(), coded.start),
        (7, 19, 16641)
    );
    for (passes, code) in [(1, 0x03), (5, 0x03), (6, 0x04), (19, 0x04)] {
        assert_eq!(rt;
            code_after(&coded, passes, &bytes).as_slice(),
            [code].as_slice()
        );
    }
    for (passes, left) in [
        (1, 3969),
        (3, 961),
        (6, 225),
        (9, 49),
        (12, 9),
        (15, 1),
        (18, 0),
        (19, 0),
    ] {
        assert_eq!(rt; left_after(&coded, passes), left);
    }
    Ok(())
}

#[test]
fn codes_columns_of_three_rows(rt: HostRuntime) -> Result<(), Fail> {
    let mut plane = CoefPlane::new(rt.alloc(), 3, 3)?;
    plane.cells[0] = Coef::new(5, false);
    plane.cells[2] = Coef::new(3, true);
    plane.cells[4] = Coef::new(2, true);
    plane.cells[6] = Coef::new(1, false);
    plane.cells[8] = Coef::new(7, false);
    let whole = Rect {
        x: 0,
        y: 0,
        width: 3,
        height: 3,
    };
    let block = BlockView::of(&plane, whole);
    let mut bytes = [0; 77312];
    let coded = code(&block, Orient::HL, &mut bytes);
    assert_eq!(rt;
        (coded.planes, coded.passes.len(), coded.start),
        (3, 7, 429)
    );
    let rows = [
        (1, [0x03, 0xD7].as_slice(), 93),
        (2, [0x03, 0xD7, 0xB4, 0x7F].as_slice(), 21),
        (3, [0x03, 0xD7, 0xB4, 0x3F].as_slice(), 13),
        (4, [0x03, 0xD7, 0xB4, 0x3F].as_slice(), 13),
        (5, [0x03, 0xD7, 0xB4, 0x39].as_slice(), 4),
        (6, [0x03, 0xD7, 0xB4, 0x3A, 0xAF].as_slice(), 0),
        (7, [0x03, 0xD7, 0xB4, 0x3A, 0xAF].as_slice(), 0),
    ];
    for (passes, code, left) in rows {
        assert_eq!(rt; code_after(&coded, passes, &bytes).as_slice(), code);
        assert_eq!(rt; left_after(&coded, passes), left);
    }
    Ok(())
}

#[test]
fn codes_two_stripes_with_run_mode(rt: HostRuntime) -> Result<(), Fail> {
    let mut plane = CoefPlane::new(rt.alloc(), 2, 5)?;
    plane.cells[1] = Coef::new(3, true);
    plane.cells[7] = Coef::new(2, false);
    plane.cells[8] = Coef::new(1, true);
    let whole = Rect {
        x: 0,
        y: 0,
        width: 2,
        height: 5,
    };
    let block = BlockView::of(&plane, whole);
    let mut bytes = [0; 77312];
    let coded = code(&block, Orient::LH, &mut bytes);
    assert_eq!(rt; (coded.planes, coded.passes.len(), coded.start), (2, 4, 83));
    let rows = [
        (1, [0x17, 0x33, 0x3F].as_slice(), 11),
        (2, [0x17, 0x33, 0x5A, 0x7F].as_slice(), 2),
        (3, [0x17, 0x33, 0x5A, 0x1F].as_slice(), 0),
        (4, [0x17, 0x33, 0x5A, 0x1F].as_slice(), 0),
    ];
    for (passes, code, left) in rows {
        assert_eq!(rt; code_after(&coded, passes, &bytes).as_slice(), code);
        assert_eq!(rt; left_after(&coded, passes), left);
    }
    Ok(())
}

#[test]
fn codes_no_pass_of_zeros(rt: HostRuntime) -> Result<(), Fail> {
    let plane = CoefPlane::new(rt.alloc(), 3, 3)?;
    let whole = Rect {
        x: 0,
        y: 0,
        width: 3,
        height: 3,
    };
    let block = BlockView::of(&plane, whole);
    let mut bytes = [0; 77312];
    let coded = code(&block, Orient::HL, &mut bytes);
    assert_eq!(rt; (coded.planes, coded.passes.len(), coded.start), (0, 0, 0));
    Ok(())
}

/// Goes on with a block for one pass where it has a further one, leaves it again, and overwrites
/// the bytes that aren't needed for the next pass.
fn code_one_pass<C: Coefs>(
    left: &LeftBlock,
    block: &C,
    orient: Orient,
    planes: u8,
    bytes: &mut [u8; 16384],
) -> LeftBlock
    requires planes { planes ≡ block_planes (C.cells block.now) }
    requires some_planes { 1 ≤ planes }
    requires few_passes { left.now.passes + 2 ≤ 3 * planes }
    ensures { result.passes + 2 ≤ 3 * planes }
{
    let mut coder = BlockCoder::go_on(left, block, orient, planes);
    if coder.has_more() && coder.has_room(bytes) {
        let _ = coder.code_pass(bytes);
    }
    let left = coder.leave();
    for byte in bytes.iter_mut().skip(left.kept() as usize) {
        *byte = 0xFF;
    }
    left
}

/// Codes so many passes of a block, which is left after each.
fn code_in_turns<C: Coefs>(
    block: &C,
    orient: Orient,
    passes: u32,
    bytes: &mut [u8; 16384],
) -> Option<LeftBlock> {
    let planes = block.planes();
    if planes == 0 {
        return None;
    }
    let mut left = BlockCoder::load(block, orient, planes).leave();
    for _ in 0..passes {
        left = code_one_pass(&left, block, orient, planes, bytes);
    }
    Some(left)
}

#[test]
fn goes_on_after_being_left(rt: HostRuntime) -> Result<(), Fail> {
    let mut plane = CoefPlane::new(rt.alloc(), 3, 3)?;
    plane.cells[0] = Coef::new(5, false);
    plane.cells[2] = Coef::new(3, true);
    plane.cells[4] = Coef::new(2, true);
    plane.cells[6] = Coef::new(1, false);
    plane.cells[8] = Coef::new(7, false);
    let whole = Rect {
        x: 0,
        y: 0,
        width: 3,
        height: 3,
    };
    let block = BlockView::of(&plane, whole);
    let rows = [
        // C is 0x7FFF after SETBITS, shifted by 12 and put out twice
        (0, [0xFF, 0x7F].as_slice(), 429),
        (1, [0x03, 0xD7].as_slice(), 93),
        (2, [0x03, 0xD7, 0xB4, 0x7F].as_slice(), 21),
        (3, [0x03, 0xD7, 0xB4, 0x3F].as_slice(), 13),
        (5, [0x03, 0xD7, 0xB4, 0x39].as_slice(), 4),
        (7, [0x03, 0xD7, 0xB4, 0x3A, 0xAF].as_slice(), 0),
    ];
    for (passes, code, distortion) in rows {
        let mut bytes = [0; 16384];
        match code_in_turns(&block, Orient::HL, passes, &mut bytes) {
            Some(left) => {
                assert_eq!(rt; left.passes(), passes);
                assert_eq!(rt; left.distortion(), distortion);
                assert_eq!(rt; code_at(left.mark(), &bytes).as_slice(), code);
            }
            None => assert!(rt; false),
        }
    }
    Ok(())
}
