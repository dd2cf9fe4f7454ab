// Blocks whose coding passes are coded on demand, by their numbers.
ghost use Rattle.std.specs.Prelude.{ℕ, ◌≡◌, ◌<◌, ◌≤◌, ◌^◌, ◌++◌, length, slice_get, IfOk, Some};
ghost use Rattle.demand_blocks.specs.Points.{code_of};
ghost use Rattle.demand_blocks.specs.Views.{coefs_in, shape_in};
ghost use Rattle.demand_blocks.specs.declared.block.DemandBlock.{DemandBlock};

use crate::DemandBlock;
use crate::goal::Goal;
use arrayvec::ArrayVec;
use offers_on_demand::Passes;
use rd_hulls::Point;
use std::alloc::{AllocError, Global};

/// Room for the bytes of any code-block: all its passes put out at most 68,023, and none more than
/// 9,216 beyond those of the passes before it.
const BLOCK_BYTES: usize = 77_312;

/// Code-blocks of planes, numbered from 0, whose passes are coded on demand.
#[derive(Drop)]
pub struct DemandBlocks<'a> {
    pub(crate) blocks: Vec<DemandBlock<'a>>,
    pub(crate) buffer: Vec<u8>,
    pub(crate) goal: Goal,
    ghost few: { length blocks.items < 2 ^ 32 },
    ghost room: { length buffer.items ≡ 77312 },
}

impl<'a> DemandBlocks<'a> {
    /// So many blocks, in their order, of which about so many bytes will be wanted. The only refusal
    /// is out of memory.
    pub fn new(
        alloc: Global,
        blocks: Vec<DemandBlock<'a>>,
        room: u32,
    ) -> Result<DemandBlocks<'a>, AllocError>
        requires few { length blocks.items < 2 ^ 32 }
        ensures { IfOk result (λ r. r.blocks.items ≡ blocks.entry.items) }
    {
        let mut buffer = vec![in alloc; 0; BLOCK_BYTES]?;
        let goal = Goal::new(blocks.as_slice(), room, buffer.as_mut_slice());
        Ok(DemandBlocks {
            blocks,
            buffer,
            goal,
        })
    }

    /// The block with this number.
    pub fn block(&self, block: u32) -> &DemandBlock<'a>
        requires { block < length self.now.blocks.items }
        ensures { slice_get self.now.blocks.items block ≡ Some result.now }
    {
        &self.blocks[block as usize]
    }

    /// Appends the bytes of the first `k` passes of a block, which are coded: the ended code of
    /// their symbols, and none where `k` is 0. The only refusal is out of memory.
    pub fn push_code(&mut self, block: u32, k: u8, out: &mut Vec<u8>) -> Result<(), AllocError>
        requires block { block < length self.old.blocks.items }
        requires passes { (d : DemandBlock) → slice_get self.old.blocks.items block ≡ Some d →
            k ≤ length d.passes.items }
        ensures code { IfOk result (λ _. (d : DemandBlock) →
            slice_get self.old.blocks.items block ≡ Some d →
            out.new.items ≡ out.old.items ++ code_of (coefs_in d.view)
            (shape_in d.view d.orient d.planes) k) }
        ensures blocks { self.new.blocks.items ≡ self.old.blocks.items }
    {
        self.blocks[block as usize].push_code(k, self.buffer.as_mut_slice(), out)
    }
}

impl Passes for DemandBlocks<'_> {
    ghost use Rattle.std.specs.Prelude.{length, slice_get, refl};
    ghost use Rattle.std.proofs.Common.{◌∙◌};
    ghost use Rattle.demand_blocks.specs.Blocks.{all_in, known_in, least_in, whole_in};
    ghost use Rattle.demand_blocks.specs.Blocks.{identity_in};
    ghost use Rattle.demand_blocks.specs.BlockLaws.{completes_in, begun_in, few_in};
    ghost use Rattle.demand_blocks.specs.BlockLaws.{least_some_in, least_short_in};

    ghost blocks = { λ s. length s.blocks.items };

    ghost all = { λ s b. all_in (slice_get s.blocks.items b) };

    ghost known = { λ s b. known_in (slice_get s.blocks.items b) };

    ghost least = { λ s b. least_in (slice_get s.blocks.items b) };

    ghost whole = { λ s b. whole_in (slice_get s.blocks.items b) };

    ghost stays = { λ s t. (b : ℕ) →
        identity_in (slice_get t.blocks.items b) ≡ identity_in (slice_get s.blocks.items b) };

    ghost completes = { λ s b below. completes_in (slice_get s.blocks.items b) };

    ghost begun = { λ s b below. begun_in (slice_get s.blocks.items b) };

    ghost few = { λ s b below. few_in (slice_get s.blocks.items b) };

    ghost least_some = { λ s b below. least_some_in (slice_get s.blocks.items b) };

    ghost least_short = { λ s b below. least_short_in (slice_get s.blocks.items b) };

    ghost stays_itself = { λ s b. refl };

    ghost stays_on = { λ s t u first second b. second b ∙ first b };

    fn count(&self) -> u32 {
        self.blocks.len() as u32
    }

    fn points(&self, block: u32) -> ArrayVec<Point, 59> {
        self.blocks[block as usize].points()
    }

    fn least_bytes(&self, block: u32) -> u32 {
        self.blocks[block as usize].least_bytes()
    }

    fn is_whole(&self, block: u32) -> bool {
        self.blocks[block as usize].is_whole()
    }

    fn code_more(&mut self, block: u32) {
        let asked = &mut self.blocks[block as usize];
        let price = self.goal.price_for(asked);
        asked.code_more(price, self.buffer.as_mut_slice());
    }
}
