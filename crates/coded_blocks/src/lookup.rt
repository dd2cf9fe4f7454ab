// What is written of the first coding passes of a block.
ghost use Rattle.std.specs.Prelude.{◌≡◌, ◌+◌, ◌<◌, ◌≤◌, ◌++◌, length, get_or, IfOk};
ghost use Rattle.band_geometry.specs.Bands.{IsBlock};
ghost use Rattle.band_geometry.specs.Counts.{number_of};
ghost use Rattle.band_geometry.specs.declared.geometry.Geometry.{Geometry};
ghost use Rattle.band_geometry.specs.declared.places.BlockId.{BlockId};
ghost use Rattle.distortion_sums.specs.Distortion.{distortion};
ghost use Rattle.dz_quantiser.specs.Bands.{band_planes};
ghost use Rattle.dz_quantiser.specs.declared.steps.StepSizes.{StepSizes};
ghost use Rattle.packet_headers.specs.Written.{CanWriteEntry};
ghost use Rattle.profile_reader.specs.Chosen.{Planes, block_coefs, block_shape, written_of};
ghost use Rattle.coded_blocks.specs.Coded.{AreCoded, count_of, passes_at, row_at};
ghost use Rattle.ebcot_passes.specs.Code.{passes_of};
ghost use Rattle.coded_blocks.specs.Rows.{IsRowIn};
ghost use Rattle.mq_coder.specs.Mark.{kept_at};
ghost use Rattle.ebcot_passes.specs.declared.coded.CodedPass.{CodedPass};

use crate::blocks::CodedBlocks;
use crate::row::CodedBlock;
use ebcot_passes::CodedPass;
use mq_coder::{ended_len, ending};
use packet_headers::Entry;
use std::alloc::AllocError;

impl CodedBlocks {
    /// How many blocks there are.
    pub fn count(&self) -> usize
        ensures { result ≡ count_of self.now }
    {
        self.rows.len()
    }

    /// How many coding passes block `n` has: three for each of its magnitude bit-planes, less two,
    /// and none where all its coefficients are 0.
    pub fn passes(&self, n: u32) -> u8
        requires { n < count_of self.now }
        ensures value { result ≡ passes_at self.now n }
        ensures coded { (g : Geometry) (steps : StepSizes) (planes : Planes) (b : BlockId) →
            AreCoded g steps planes self.now → IsBlock g b → number_of g b ≡ n →
            result ≡ passes_of (block_shape g planes b).planes }
    {
        self.row(n).passes
    }

    /// What a packet header says of block `n` of which the first `k` passes are included, and
    /// nothing but zeros where `k` is 0 (ISO/IEC 15444-1, B.10.4 to B.10.7).
    pub fn entry(&self, n: u32, k: u8) -> Entry
        requires block { n < count_of self.now }
        requires passes { k ≤ passes_at self.now n }
        ensures coded { (g : Geometry) (steps : StepSizes) (planes : Planes) (b : BlockId) →
            AreCoded g steps planes self.now → IsBlock g b → number_of g b ≡ n →
            result ≡ (written_of (band_planes steps b.res b.orient) (block_coefs g planes b)
            (block_shape g planes b) k).entry }
        ensures can_be_written { (g : Geometry) (steps : StepSizes) (planes : Planes)
            (b : BlockId) → AreCoded g steps planes self.now → IsBlock g b → number_of g b ≡ n →
            CanWriteEntry (band_planes steps b.res b.orient) result }
    {
        if k == 0 {
            return Entry::default();
        }
        let pass = self.pass(n, k - 1);
        Entry {
            included: true,
            zero_planes: self.row(n).zero_planes,
            passes: k,
            len: ended_len(&pass.mark),
        }
    }

    /// Appends the bytes of block `n` of which the first `k` passes are included: the ended code of
    /// their symbols, and none where `k` is 0 (Annex C.2.9). The only refusal is out of memory.
    pub fn push_code(&self, n: u32, k: u8, out: &mut Vec<u8>) -> Result<(), AllocError>
        requires block { n < count_of self.now }
        requires passes { k ≤ passes_at self.now n }
        ensures { IfOk result (λ _. (g : Geometry) (steps : StepSizes) (planes : Planes)
            (b : BlockId) → AreCoded g steps planes self.now → IsBlock g b → number_of g b ≡ n →
            out.new.items ≡ out.old.items ++ (written_of (band_planes steps b.res b.orient)
            (block_coefs g planes b) (block_shape g planes b) k).code) }
    {
        if k == 0 {
            return Ok(());
        }
        let pass = self.pass(n, k - 1);
        let at = self.row(n).at;
        let end = ending(&pass.mark);
        out.extend_from_slice(&self.bytes.as_slice()[at..at + end.kept as usize])?;
        out.extend_from_slice(end.tail.as_slice())?;
        Ok(())
    }

    /// The distortion that the first `k` passes of block `n` leave, in units of half a step
    /// squared.
    pub fn distortion(&self, n: u32, k: u8) -> u64
        requires block { n < count_of self.now }
        requires passes { k ≤ passes_at self.now n }
        ensures { (g : Geometry) (steps : StepSizes) (planes : Planes) (b : BlockId) →
            AreCoded g steps planes self.now → IsBlock g b → number_of g b ≡ n →
            result ≡ distortion (block_coefs g planes b) (block_shape g planes b) k }
    {
        if k == 0 {
            self.row(n).start
        } else {
            self.pass(n, k - 1).distortion
        }
    }

    /// What is kept of block `n` beside its passes and its bytes.
    fn row(&self, n: u32) -> CodedBlock
        requires { n < count_of self.now }
        ensures value { result ≡ row_at self.now n }
        ensures joined { IsRowIn self.now.passes.items self.now.bytes.items result }
    {
        self.rows[n as usize]
    }

    /// Pass `k` of block `n`, counted from 0.
    fn pass(&self, n: u32, k: u8) -> CodedPass
        requires block { n < count_of self.now }
        requires pass { k < passes_at self.now n }
        ensures value { (other : CodedPass) →
            result ≡ get_or self.now.passes.items ((row_at self.now n).first + k) other }
        ensures kept { (row_at self.now n).at + kept_at result.mark ≤ length self.now.bytes.items }
    {
        self.passes[self.row(n).first + k as usize]
    }
}
