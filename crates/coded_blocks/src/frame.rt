// The code-blocks of a frame, coded one after the other.
ghost use Rattle.std.specs.Prelude.{suc, ◌+◌, ◌≡◌, ◌<◌, ◌≤◌, ◌^◌, IfOk, length};
ghost use Rattle.band_geometry.specs.Bands.{IsBlock};
ghost use Rattle.band_geometry.specs.Counts.{number_of};
ghost use Rattle.band_geometry.specs.Numbering.{all_blocks};
ghost use Rattle.band_geometry.specs.declared.places.BlockId.{BlockId};
ghost use Rattle.codeblock_views.specs.Magnitudes.{AreSmall};
ghost use Rattle.distortion_sums.specs.Distortion.{distortion};
ghost use Rattle.dz_quantiser.specs.Bands.{AreUsable, band_planes};
ghost use Rattle.profile_reader.specs.Chosen.{Planes, block_coefs, block_shape};
ghost use Rattle.coded_blocks.specs.Coded.{AreCoded, AreCodedBelow, count_of};
ghost use Rattle.coded_blocks.specs.Frame.{CanBeCoded};
ghost use Rattle.ebcot_passes.specs.Code.{IsBlockCode};

use crate::blocks::CodedBlocks;
use band_geometry::{BlockId, Geometry};
use codeblock_views::{BlockView, CoefPlane, assembled};
use dz_quantiser::StepSizes;
use ebcot_passes::{BlockCode, code};
use std::alloc::{AllocError, Global};

/// Room for the bytes of any code-block: all its passes put out at most 68,023, and none more than
/// 9,216 beyond those of the passes before it.
const BLOCK_BYTES: usize = 77_312;

/// A buffer of so many bytes.
fn buffer(alloc: Global, bytes: usize) -> Result<Vec<u8>, AllocError>
    ensures { IfOk result (λ buffer. length buffer.items ≡ bytes) }
{
    vec![in alloc; 0; bytes]
}

/// The plane of a component.
fn component<'a>(
    component: u8,
    c0: &'a CoefPlane,
    c1: &'a CoefPlane,
    c2: &'a CoefPlane,
) -> &'a CoefPlane
    requires { component < 3 }
    ensures first { component ≡ 0 → result.now ≡ c0.now }
    ensures second { component ≡ 1 → result.now ≡ c1.now }
    ensures third { component ≡ 2 → result.now ≡ c2.now }
{
    match component {
        0 => c0,
        1 => c1,
        _ => c2,
    }
}

/// Codes the passes of a block of a plane into the buffer.
fn code_block(geometry: &Geometry, plane: &CoefPlane, id: BlockId, buffer: &mut [u8]) -> BlockCode
    requires exists { IsBlock geometry.now id }
    requires width { plane.now.width ≡ geometry.now.width }
    requires height { plane.now.height ≡ geometry.now.height }
    requires small { AreSmall plane.now.cells.items }
    requires room { 77312 ≤ length buffer.old }
    requires few { length buffer.old < 2 ^ 31 }
    ensures planes { (planes : Planes) → planes id.component ≡ plane.now.cells.items →
        result.planes ≡ (block_shape geometry.now planes id).planes }
    ensures codes { (planes : Planes) → planes id.component ≡ plane.now.cells.items →
        IsBlockCode (block_coefs geometry.now planes id) (block_shape geometry.now planes id)
        result.passes.items buffer.new }
    ensures start { (planes : Planes) → planes id.component ≡ plane.now.cells.items →
        result.start ≡ distortion (block_coefs geometry.now planes id)
        (block_shape geometry.now planes id) 0 }
{
    assembled();
    let block = BlockView::of(plane, geometry.block(id));
    code(&block, id.orient, buffer)
}

impl CodedBlocks {
    /// Codes all coding passes of all code-blocks of a frame, whose coefficients stand in a plane
    /// for each component. Each plane has the size of the frame, and its magnitudes are below 2 to
    /// the number of magnitude bit-planes of their band. The only refusal is out of memory.
    pub fn code(
        alloc: Global,
        geometry: &Geometry,
        steps: &StepSizes,
        c0: &CoefPlane,
        c1: &CoefPlane,
        c2: &CoefPlane,
    ) -> Result<CodedBlocks, AllocError>
        requires usable { AreUsable geometry.now.levels steps.now }
        requires first { CanBeCoded geometry.now steps.now c0.now }
        requires second { CanBeCoded geometry.now steps.now c1.now }
        requires third { CanBeCoded geometry.now steps.now c2.now }
        ensures count { IfOk result (λ s. count_of s ≡ length (all_blocks geometry.now)) }
        ensures coded { IfOk result (λ s. (planes : Planes) → planes 0 ≡ c0.now.cells.items →
            planes 1 ≡ c1.now.cells.items → planes 2 ≡ c2.now.cells.items →
            AreCoded geometry.now steps.now planes s) }
        // no block has more bit-planes than its band
        ensures below { IfOk result (λ _. (planes : Planes) → planes 0 ≡ c0.now.cells.items →
            planes 1 ≡ c1.now.cells.items → planes 2 ≡ c2.now.cells.items →
            (b : BlockId) → IsBlock geometry.now b →
            (block_shape geometry.now planes b).planes
            ≤ band_planes steps.now b.res b.orient) }
    {
        let mut buffer = buffer(alloc, BLOCK_BYTES)?;
        let bytes = buffer.as_mut_slice();
        let mut blocks = CodedBlocks::new(alloc);
        for n in 0..geometry.blocks() {
            let id = geometry.block_id(n);
            let plane = component(id.component, c0, c1, c2);
            blocks.code_next(geometry, steps, plane, id, bytes)?;
        }
        Ok(blocks)
    }

    /// Codes a block of a plane, and joins it to those whose numbers are below its own.
    fn code_next(
        &mut self,
        geometry: &Geometry,
        steps: &StepSizes,
        plane: &CoefPlane,
        id: BlockId,
        buffer: &mut [u8],
    ) -> Result<(), AllocError>
        requires usable { AreUsable geometry.now.levels steps.now }
        requires exists { IsBlock geometry.now id }
        requires plane { CanBeCoded geometry.now steps.now plane.now }
        requires room { 77312 ≤ length buffer.old }
        requires few { length buffer.old < 2 ^ 31 }
        ensures count { IfOk result (λ _. count_of self.new ≡ count_of self.old + 1) }
        ensures coded { IfOk result (λ _. (planes : Planes) →
            planes id.component ≡ plane.now.cells.items →
            AreCodedBelow geometry.now steps.now planes (number_of geometry.now id) self.old →
            AreCodedBelow geometry.now steps.now planes (suc (number_of geometry.now id))
            self.new) }
    {
        let code = code_block(geometry, plane, id, buffer);
        let band = steps.band(geometry.levels, id.res, id.orient);
        self.join(&code, band.planes - code.planes, buffer)?;
        Ok(())
    }
}
