// Blocks whose codes are known from outside, coded on demand.
ghost use Rattle.std.specs.Prelude.{◌≡◌, ◌≤◌, ◌<◌, ◌^◌, IfOk, length};
ghost use Rattle.codeblock_views.specs.Magnitudes.{AreSmall};

use super::*;
use band_geometry::Rect;
use cine_nums::Orient;
use codeblock_views::{BlockView, CoefPlane};
use dz_quantiser::Coef;
use ebcot_passes::{CodedPass, code};
use mq_coder::{ended_len, ending};
use offers_on_demand::Passes;
use rd_hulls::Point;
use std::alloc::{AllocError, Global};
use std::test::Fail;

// Codes passes of a block until there are so many or more.
fn code_to(block: &mut DemandBlock<'_>, passes: u8, forgets: bool, buffer: &mut [u8])
    requires room { 77312 ≤ length buffer.old }
    requires few { length buffer.old < 2 ^ 31 }
    ensures length { length buffer.new ≡ length buffer.old }
{
    for _ in 0..passes {
        if block.coded() < passes && !block.is_whole() {
            block.code_more(1 << 40, buffer);
            if forgets {
                block.forget();
            }
        }
    }
}

// A buffer for the bytes of a block.
fn buffer_of(alloc: Global) -> Result<Vec<u8>, AllocError>
    ensures { IfOk result (λ buffer. length buffer.items ≡ 77312) }
{
    vec![in alloc; 0; 77_312]
}

// The rectangle of a plane whose sides are equal.
fn whole(side: u32) -> Rect
    ensures left { result.x ≡ 0 }
    ensures top { result.y ≡ 0 }
    ensures width { result.width ≡ side }
    ensures height { result.height ≡ side }
{
    Rect {
        x: 0,
        y: 0,
        width: side,
        height: side,
    }
}

// The bytes and the distortion of the point of the first `k` passes.
fn point_at(points: &[Point], k: u8) -> (u32, u128) {
    match points.get(usize::from(k)) {
        Some(point) => (point.len, point.dist),
        None => (0, 0),
    }
}

// Whether the first passes of a block have such bytes and leave such a distortion, going on with it
// after each pass, or where nothing is kept of it after a pass.
fn has_codes(
    alloc: Global,
    view: BlockView<'_>,
    orient: Orient,
    rows: &[(u8, &[u8], u64)],
    forgets: bool,
) -> Result<bool, AllocError> {
    let mut block = DemandBlock::new(alloc, view, orient)?;
    let mut buffer = buffer_of(alloc)?;
    let buffer = buffer.as_mut_slice();
    for (passes, code, distortion) in rows {
        code_to(&mut block, *passes, forgets, buffer);
        if block.coded() < *passes {
            return Ok(false);
        }
        let mut bytes = Vec::new(alloc);
        block.push_code(*passes, buffer, &mut bytes)?;
        let (len, dist) = point_at(block.points().as_slice(), *passes);
        if bytes.as_slice() != *code
            || block.code_len(*passes) as usize != code.len()
            || block.distortion(*passes) != *distortion
            || (len as usize, dist) != (code.len(), u128::from(*distortion))
        {
            return Ok(false);
        }
    }
    Ok(block.is_whole())
}

#[test]
fn codes_columns_of_three_rows(rt: HostRuntime) -> Result<(), Fail> {
    let mut plane = CoefPlane::new(rt.alloc(), 3, 3)?;
    plane.cells[0] = Coef::new(5, false);
    plane.cells[2] = Coef::new(3, true);
    plane.cells[4] = Coef::new(2, true);
    plane.cells[6] = Coef::new(1, false);
    plane.cells[8] = Coef::new(7, false);
    let view = BlockView::of(&plane, whole(3));
    let rows = [
        (0, [].as_slice(), 429),
        (1, [0x03, 0xD7].as_slice(), 93),
        (2, [0x03, 0xD7, 0xB4, 0x7F].as_slice(), 21),
        (3, [0x03, 0xD7, 0xB4, 0x3F].as_slice(), 13),
        (5, [0x03, 0xD7, 0xB4, 0x39].as_slice(), 4),
        (7, [0x03, 0xD7, 0xB4, 0x3A, 0xAF].as_slice(), 0),
    ];
    for forgets in [false, true] {
        assert!(rt; has_codes(rt.alloc(), view, Orient::HL, &rows, forgets)?);
    }
    Ok(())
}

// The distortion that so many passes leave, and 1,000,000 where fewer are coded.
fn distortion_after(block: &DemandBlock<'_>, passes: u8) -> u64 {
    if passes <= block.coded() {
        block.distortion(passes)
    } else {
        1_000_000
    }
}

#[test]
fn leaves_less_of_the_index_64_after_each_plane(rt: HostRuntime) -> Result<(), Fail> {
    let mut plane = CoefPlane::new(rt.alloc(), 1, 1)?;
    plane.cells[0] = Coef::new(64, false);
    let view = BlockView::of(&plane, whole(1));
    let rows = [
        (1, [0x03].as_slice(), 3969),
        (5, [0x03].as_slice(), 961),
        (6, [0x04].as_slice(), 225),
        (19, [0x04].as_slice(), 0),
    ];
    for forgets in [false, true] {
        assert!(rt; has_codes(rt.alloc(), view, Orient::HH, &rows, forgets)?);
    }
    let mut block = DemandBlock::new(rt.alloc(), view, Orient::HH)?;
    let mut buffer = buffer_of(rt.alloc())?;
    code_to(&mut block, 19, false, buffer.as_mut_slice());
    for (passes, left) in [
        (0, 16641),
        (1, 3969),
        (3, 961),
        (6, 225),
        (9, 49),
        (12, 9),
        (15, 1),
        (18, 0),
        (19, 0),
    ] {
        assert_eq!(rt; distortion_after(&block, passes), left);
    }
    Ok(())
}

// Another index at a place of a plane.
fn put(plane: &mut CoefPlane, place: usize, magnitude: u32, negative: bool)
    requires place { place < length plane.old.cells.items }
    requires low { magnitude < 2 ^ 20 }
    requires small { AreSmall plane.old.cells.items }
    ensures width { plane.new.width ≡ plane.old.width }
    ensures height { plane.new.height ≡ plane.old.height }
    ensures small { AreSmall plane.new.cells.items }
{
    plane.cells[place] = Coef::new(magnitude, negative);
}

// A plane of 32 by 32 cells whose magnitudes have up to 20 bit-planes.
fn largest_block(alloc: Global) -> Result<CoefPlane, AllocError>
    ensures width { IfOk result (λ plane. plane.width ≡ 32) }
    ensures height { IfOk result (λ plane. plane.height ≡ 32) }
    ensures small { IfOk result (λ plane. AreSmall plane.cells.items) }
{
    let mut plane = CoefPlane::new(alloc, 32, 32)?;
    let mut state = 1u32;
    for place in 0..1024 {
        state = state.wrapping_mul(1_664_525).wrapping_add(1_013_904_223);
        put(&mut plane, place, state >> 12, state & 0x800 != 0);
    }
    Ok(plane)
}

// The ended code of a pass beside the bytes of all.
fn code_of(alloc: Global, pass: &CodedPass, bytes: &[u8]) -> Result<Vec<u8>, AllocError> {
    let end = ending(&pass.mark);
    let mut code = Vec::new(alloc);
    for byte in bytes.iter().take(end.kept as usize) {
        code.push(*byte)?;
    }
    code.extend_from_slice(end.tail.as_slice())?;
    Ok(code)
}

// Whether a block has after each of its passes the code of the same block coded at once.
fn has_passes(
    alloc: Global,
    view: BlockView<'_>,
    orient: Orient,
    passes: &[CodedPass],
    bytes: &[u8],
    forgets: bool,
) -> Result<bool, AllocError> {
    let mut block = DemandBlock::new(alloc, view, orient)?;
    let mut buffer = buffer_of(alloc)?;
    let buffer = buffer.as_mut_slice();
    let mut k = 0u8;
    for pass in passes {
        k = k.saturating_add(1);
        code_to(&mut block, k, forgets, buffer);
        if block.coded() < k {
            return Ok(false);
        }
        let mut code = Vec::new(alloc);
        block.push_code(k, buffer, &mut code)?;
        if code.as_slice() != code_of(alloc, pass, bytes)?.as_slice()
            || block.code_len(k) != ended_len(&pass.mark)
            || block.distortion(k) != pass.distortion
        {
            return Ok(false);
        }
    }
    Ok(block.is_whole())
}

// With nothing kept after any pass, as where memory is missing each time.
#[test]
fn codes_the_largest_block_as_at_once(rt: HostRuntime) -> Result<(), Fail> {
    let plane = largest_block(rt.alloc())?;
    let view = BlockView::of(&plane, whole(32));
    let mut bytes = buffer_of(rt.alloc())?;
    let coded = code(&view, Orient::LH, bytes.as_mut_slice());
    let passes = coded.passes.as_slice();
    assert_eq!(rt; passes.len(), 58);
    for forgets in [false, true] {
        assert!(rt;
            has_passes(
                rt.alloc(),
                view,
                Orient::LH,
                passes,
                bytes.as_slice(),
                forgets
            )?
        );
    }
    Ok(())
}

// Codes all passes of a block, and returns the bytes of the last point.
fn code_all<P: Passes>(passes: &mut P, block: u32) -> u32 {
    for _ in 0..58 {
        if block < passes.count() && !passes.is_whole(block) {
            passes.code_more(block);
        }
    }
    if block < passes.count() {
        match passes.points(block).as_slice().last() {
            Some(point) => point.len,
            None => 0,
        }
    } else {
        0
    }
}

// How many points are known of a block, the bound on the bytes of more, and whether all are.
fn known_of<P: Passes>(passes: &P, block: u32) -> (usize, u32, bool) {
    if block < passes.count() {
        let points = passes.points(block).len();
        (points, passes.least_bytes(block), passes.is_whole(block))
    } else {
        (0, 0, false)
    }
}

// The bytes of the first passes of a block after the byte 1, which alone stands where it has fewer.
fn code_at(
    alloc: Global,
    blocks: &mut DemandBlocks<'_>,
    block: u32,
    k: u8,
) -> Result<Vec<u8>, AllocError> {
    let mut out = vec![in alloc; 1]?;
    if block < blocks.count() && k <= blocks.block(block).coded() {
        blocks.push_code(block, k, &mut out)?;
    }
    Ok(out)
}

#[test]
fn codes_one_block_and_leaves_the_other(rt: HostRuntime) -> Result<(), Fail> {
    let mut plane = CoefPlane::new(rt.alloc(), 1, 1)?;
    plane.cells[0] = Coef::new(64, false);
    let view = BlockView::of(&plane, whole(1));
    let first = DemandBlock::new(rt.alloc(), view, Orient::HH)?;
    let second = DemandBlock::new(rt.alloc(), view, Orient::HH)?;
    let mut blocks = DemandBlocks::new(rt.alloc(), vec![in rt.alloc(); first, second]?, 1_302_083)?;
    assert_eq!(rt; code_all(&mut blocks, 1), 1);
    assert_eq!(rt; known_of(&blocks, 0), (1, 1, false));
    let (points, _, whole) = known_of(&blocks, 1);
    assert_eq!(rt; (points, whole), (20, true));
    let code = code_at(rt.alloc(), &mut blocks, 1, 19)?;
    assert_eq!(rt; code.as_slice(), [1, 0x04].as_slice());
    for known in [19, 20] {
        if blocks.count() == 2 && !blocks.is_whole(0) {
            blocks.code_more(0);
        }
        assert_eq!(rt; known_of(&blocks, 0).0, known);
    }
    Ok(())
}
