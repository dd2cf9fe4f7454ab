// Blocks whose codes are known from outside, and the largest 2K frame.
ghost use Rattle.std.specs.Prelude.{◌*◌, ◌<◌, IfOk};
ghost use Rattle.dz_quantiser.specs.Bands.{AreUsable};
ghost use Rattle.coded_blocks.specs.Frame.{CanBeCoded};

use super::*;
use band_geometry::Geometry;
use cine_nums::Profile;
use codeblock_views::CoefPlane;
use dz_quantiser::{Coef, StepSizes};
use packet_headers::Entry;
use std::alloc::{AllocError, Global};
use std::test::Fail;

/// A plane of zeros but for the index at one place.
fn plane_with(
    alloc: Global,
    geometry: &Geometry,
    steps: &StepSizes,
    place: usize,
    magnitude: u32,
    negative: bool,
) -> Result<CoefPlane, AllocError>
    requires usable { AreUsable geometry.now.levels steps.now }
    requires place { place < geometry.now.height * geometry.now.width }
    requires low { magnitude < 2048 }
    ensures { IfOk result (λ plane. CanBeCoded geometry.now steps.now plane) }
{
    let mut plane = CoefPlane::new(alloc, geometry.width, geometry.height)?;
    plane.cells[place] = Coef::new(magnitude, negative);
    Ok(plane)
}

/// How many passes a block has, 0 where there is none.
fn passes(blocks: &CodedBlocks, n: u32) -> u8 {
    if (n as usize) < blocks.count() {
        blocks.passes(n)
    } else {
        0
    }
}

/// The entry of the first `k` passes of a block, and zeros where it has fewer.
fn entry(blocks: &CodedBlocks, n: u32, k: u8) -> Entry {
    if (n as usize) < blocks.count() && k <= blocks.passes(n) {
        blocks.entry(n, k)
    } else {
        Entry::default()
    }
}

/// The bytes of the first `k` passes of a block after the byte 1, which alone stands where it has
/// fewer.
fn code(alloc: Global, blocks: &CodedBlocks, n: u32, k: u8) -> Result<Vec<u8>, AllocError> {
    let mut out = Vec::new(alloc);
    out.push(1)?;
    if (n as usize) < blocks.count() && k <= blocks.passes(n) {
        blocks.push_code(n, k, &mut out)?;
    }
    Ok(out)
}

/// The distortion that the first `k` passes of a block leave, and 1,000,000 where it has fewer.
fn distortion(blocks: &CodedBlocks, n: u32, k: u8) -> u64 {
    if (n as usize) < blocks.count() && k <= blocks.passes(n) {
        blocks.distortion(n, k)
    } else {
        1_000_000
    }
}

/// The bytes of all blocks of a choice of passes, those of each after the byte 1; none where a
/// block has fewer passes.
fn chosen(alloc: Global, blocks: &CodedBlocks, counts: &[u8]) -> Result<Vec<u8>, AllocError> {
    let mut out = Vec::new(alloc);
    if blocks.has_passes(counts) {
        let codes = blocks.chosen(alloc, counts)?;
        for n in 0..codes.count() {
            out.push(1)?;
            if n < 24 {
                codes.push_code(n as u32, &mut out)?;
            }
        }
    }
    Ok(out)
}

fn included(zero_planes: u8, passes: u8, len: u32) -> Entry {
    Entry {
        included: true,
        zero_planes,
        passes,
        len,
    }
}

#[test]
fn a_frame_of_one_sample(rt: HostRuntime) -> Result<(), Fail> {
    let geometry = Geometry::new(Profile::TwoK, 5, 1, 1);
    let steps = StepSizes::built_in(Profile::TwoK);
    let plane = plane_with(rt.alloc(), &geometry, &steps, 0, 64, false)?;
    let zeros = plane_with(rt.alloc(), &geometry, &steps, 0, 0, false)?;
    let blocks = CodedBlocks::code(rt.alloc(), &geometry, &steps, &plane, &zeros, &zeros)?;
    assert_eq!(rt; blocks.count(), 3);
    assert_eq!(rt;
        (passes(&blocks, 0), passes(&blocks, 1), passes(&blocks, 2)),
        (19, 0, 0)
    );
    for (k, byte) in [(1, 0x03), (5, 0x03), (6, 0x04), (19, 0x04)] {
        assert_eq!(rt; entry(&blocks, 0, k), included(11, k, 1));
        assert_eq!(rt;
            code(rt.alloc(), &blocks, 0, k)?.as_slice(),
            [1, byte].as_slice()
        );
    }
    let distortions = [
        (0, 16641),
        (1, 3969),
        (3, 961),
        (6, 225),
        (9, 49),
        (12, 9),
        (15, 1),
        (18, 0),
        (19, 0),
    ];
    for (k, left) in distortions {
        assert_eq!(rt; distortion(&blocks, 0, k), left);
    }
    assert_eq!(rt; distortion(&blocks, 1, 0), 0);
    assert_eq!(rt; entry(&blocks, 0, 0), Entry::default());
    assert_eq!(rt; code(rt.alloc(), &blocks, 0, 0)?.as_slice(), [1].as_slice());
    Ok(())
}

#[test]
fn blocks_of_three_components(rt: HostRuntime) -> Result<(), Fail> {
    let geometry = Geometry::new(Profile::TwoK, 5, 5, 3);
    let steps = StepSizes::built_in(Profile::TwoK);
    let zeros = plane_with(rt.alloc(), &geometry, &steps, 0, 0, false)?;
    // in the band HH of resolution 4, which is one place
    let second = plane_with(rt.alloc(), &geometry, &steps, 7, 64, false)?;
    let third = plane_with(rt.alloc(), &geometry, &steps, 0, 1, true)?;
    let blocks = CodedBlocks::code(rt.alloc(), &geometry, &steps, &zeros, &second, &third)?;
    assert_eq!(rt; blocks.count(), 24);
    for n in 0..24 {
        let expected = if n == 12 {
            19
        } else if n == 16 {
            1
        } else {
            0
        };
        assert_eq!(rt; passes(&blocks, n), expected);
    }
    assert_eq!(rt; entry(&blocks, 12, 19), included(8, 19, 1));
    assert_eq!(rt;
        code(rt.alloc(), &blocks, 12, 5)?.as_slice(),
        [1, 0x03].as_slice()
    );
    assert_eq!(rt;
        code(rt.alloc(), &blocks, 12, 19)?.as_slice(),
        [1, 0x04].as_slice()
    );
    assert_eq!(rt; entry(&blocks, 16, 1), included(17, 1, 1));
    assert_eq!(rt;
        code(rt.alloc(), &blocks, 16, 1)?.as_slice(),
        [1, 0x07].as_slice()
    );
    let mut counts = [0; 24];
    counts[12] = 5;
    counts[16] = 1;
    assert_eq!(rt;
        chosen(rt.alloc(), &blocks, &counts)?.as_slice(),
        [
            1, 1, 1, 1, 1, 1, 1, 1, 1, 1, 1, 1, 1, 0x03, 1, 1, 1, 1, 0x07, 1, 1, 1, 1, 1, 1, 1
        ]
        .as_slice()
    );
    // one number too few, and one pass too many
    assert_eq!(rt; blocks.has_passes(&counts[..23]), false);
    counts[16] = 2;
    assert_eq!(rt; blocks.has_passes(&counts), false);
    Ok(())
}

#[test]
fn codes_one_after_the_other(rt: HostRuntime) -> Result<(), Fail> {
    let mut codes = ChosenCodes::new(rt.alloc());
    codes.push(&[])?;
    codes.push(&[3])?;
    codes.push(&[7, 8])?;
    assert_eq!(rt; codes.count(), 3);
    let mut out = Vec::new(rt.alloc());
    codes.push_code(2, &mut out)?;
    codes.push_code(0, &mut out)?;
    codes.push_code(1, &mut out)?;
    assert_eq!(rt; out.as_slice(), [7, 8, 3].as_slice());
    Ok(())
}

#[test]
fn the_largest_frame_of_2k(rt: HostRuntime) -> Result<(), Fail> {
    let geometry = Geometry::new(Profile::TwoK, 5, 2048, 1080);
    let steps = StepSizes::built_in(Profile::TwoK);
    let plane = plane_with(rt.alloc(), &geometry, &steps, 0, 1, false)?;
    let blocks = CodedBlocks::code(rt.alloc(), &geometry, &steps, &plane, &plane, &plane)?;
    assert_eq!(rt; blocks.count(), 6708);
    assert_eq!(rt;
        (
            passes(&blocks, 0),
            passes(&blocks, 1),
            passes(&blocks, 4472)
        ),
        (1, 0, 1)
    );
    Ok(())
}
