// What the byte budgets of a frame hold at a choice of passes.
ghost use Rattle.std.proofs.Props.{props};
ghost use Rattle.budget_duals.specs.Price.{AreCounts};
ghost use Rattle.frame_choice.specs.Blocks.{most_passes, three_planes};
ghost use Rattle.frame_choice.specs.Present.{ArePresent};
ghost use Rattle.frame_packets.specs.Keeps.{Keeps};
ghost use Rattle.profile_reader.specs.Chosen.{chosen};

use crate::present::{PresentBlock, none_present};
use crate::quantised::QuantisedFrame;
use band_geometry::BlockId;
use budget_duals::{Held, Members, Price};
use demand_blocks::DemandBlocks;
use frame_packets::FramePackets;
use packet_headers::Entry;
use rd_hulls::Step;
use std::alloc::{AllocError, Global};

/// A choice of passes of a frame: the count of each block, by its number, the bytes of its code and
/// its bit-planes, and the packets that these counts make.
#[derive(Drop)]
pub struct FramePrice<'a> {
    pub frame: QuantisedFrame<'a>,
    pub counts: Vec<u8>,
    pub present: Vec<PresentBlock>,
    pub packets: FramePackets,
    pub ghost most: { AreCounts (most_passes frame.geometry.now
        (three_planes frame.c0.now frame.c1.now frame.c2.now)) counts.items },
    pub ghost present_are: { ArePresent frame.geometry.now frame.steps.now
        (three_planes frame.c0.now frame.c1.now frame.c2.now)
        counts.items present.items } by { Prim.hlevel props },
    pub ghost kept: { Keeps frame.geometry.now frame.steps.now
        (chosen frame.geometry.now frame.steps.now
        (three_planes frame.c0.now frame.c1.now frame.c2.now) counts.items)
        packets } by { Prim.hlevel props },
}

impl<'a> FramePrice<'a> {
    ghost use Rattle.std.specs.Prelude.{◌≡◌, ◌<◌, IfOk, get_or, length, replicate};
    ghost use Rattle.band_geometry.specs.Bands.{IsBlock};
    ghost use Rattle.band_geometry.specs.Numbering.{all_blocks};
    ghost use Rattle.budget_duals.specs.Price.{CanTake};
    ghost use Rattle.dz_quantiser.specs.Bands.{band_planes};
    ghost use Rattle.frame_packets.specs.Keeps.{nothing};
    ghost use Rattle.packet_headers.specs.Written.{CanWriteEntry};
    ghost use Rattle.frame_choice.specs.Blocks.{block_numbered};
    ghost use Rattle.frame_choice.specs.Demanded.{AreDemanded};
    ghost use Rattle.frame_choice.specs.Present.{IsKnownStep, block_written};
    ghost use Rattle.frame_choice.specs.PriceLaws.{planes_in};

    /// The choice of no passes, where `packets` has no included block. `blocks` are the code-blocks
    /// of the frame. The only refusal is out of memory.
    pub fn new(
        alloc: Global,
        frame: QuantisedFrame<'a>,
        blocks: &DemandBlocks,
        packets: FramePackets,
    ) -> Result<FramePrice<'a>, AllocError>
        requires blocks { AreDemanded frame.geometry.now (planes_in frame)
            blocks.now.blocks.items }
        requires packets { Keeps frame.geometry.now frame.steps.now nothing packets }
        ensures frame { IfOk result (λ price. price.frame ≡ frame.entry) }
        ensures counts { IfOk result (λ price. price.counts.items
            ≡ replicate (length (all_blocks frame.entry.geometry.now)) 0) }
    {
        let counts = vec![in alloc; 0u8; frame.geometry.blocks() as usize]?;
        let present = none_present(alloc, &frame, blocks)?;
        Ok(FramePrice {
            frame,
            counts,
            present,
            packets,
        })
    }

    /// How many passes a block has, the most that its count can be.
    pub fn passes(&self, block: u32) -> u8
        requires { block < length (all_blocks self.now.frame.geometry.now) }
        ensures { result ≡ get_or (most_passes self.now.frame.geometry.now
            (three_planes self.now.frame.c0.now self.now.frame.c1.now self.now.frame.c2.now))
            block 0 }
    {
        let planes = self.present[block as usize].planes;
        (3 * planes).saturating_sub(2)
    }

    // What a packet header says of a step's block when the step is taken: the length of its code is
    // the present one, and that of the step.
    fn entry_after(&self, id: BlockId, step: &Step) -> Entry
        requires id { block_numbered self.now.frame.geometry.now step.now.block ≡ id }
        requires exists { IsBlock self.now.frame.geometry.now id }
        requires can { CanTake (most_passes self.now.frame.geometry.now
            (planes_in self.now.frame)) self.now.counts.items step.now }
        requires known { IsKnownStep self.now.frame.geometry.now self.now.frame.steps.now
            (planes_in self.now.frame) step.now }
        ensures value { result ≡ (block_written self.now.frame.geometry.now
            self.now.frame.steps.now (planes_in self.now.frame) id step.now.to).entry }
        ensures can_be_written { CanWriteEntry
            (band_planes self.now.frame.steps.now id.res id.orient) result }
    {
        let frame = self.frame;
        let present = self.present[step.block as usize];
        let band = frame.steps.band(frame.geometry.levels, id.res, id.orient);
        Entry {
            included: true,
            zero_planes: band.planes - present.planes,
            passes: step.to,
            len: present.bytes + step.len,
        }
    }
}

impl Price for FramePrice<'_> {
    ghost use Rattle.std.specs.Prelude.{ℕ, List, ◌≡◌, refl};
    ghost use Rattle.std.proofs.Common.{◌∙◌};
    ghost use Rattle.frame_choice.specs.Blocks.{inside_at, most_passes, three_planes};
    ghost use Rattle.frame_choice.specs.Choice.{held_at};
    ghost use Rattle.frame_choice.specs.Present.{IsKnownStep};
    ghost use Rattle.frame_choice.specs.PriceLaws.{Same, same_itself, same_on, same_most};
    ghost use Rattle.frame_choice.specs.PriceLaws.{same_held_at, same_inside_at, same_known};
    ghost use Rattle.frame_choice.specs.PriceLaws.{law_of};

    ghost highest = { λ s. most_passes s.frame.geometry.now
        (three_planes s.frame.c0.now s.frame.c1.now s.frame.c2.now) };

    ghost counts = { λ s. s.counts.items };

    ghost held_for = { λ s counts. held_at s.frame.geometry.now s.frame.steps.now
        (three_planes s.frame.c0.now s.frame.c1.now s.frame.c2.now) counts };

    ghost inside_of = { λ s n. inside_at s.frame.geometry.now n };

    ghost knows = { λ s step. IsKnownStep s.frame.geometry.now s.frame.steps.now
        (three_planes s.frame.c0.now s.frame.c1.now s.frame.c2.now) step };

    ghost keeps = { λ s t. Same s.frame t.frame };

    ghost are_counts = { λ s. s.most };

    ghost has_law = { λ s. law_of s.frame };

    ghost keeps_itself = { λ s. same_itself s.frame };

    ghost keeps_on = { λ s t u. same_on s.frame t.frame u.frame };

    ghost same_highest = { λ s t. same_most s.frame t.frame };

    ghost same_held = { λ s t. same_held_at s.frame t.frame };

    ghost same_inside = { λ s t. same_inside_at s.frame t.frame };

    ghost same_knows = { λ s t step. same_known s.frame t.frame step };

    fn count(&self) -> u32 {
        self.frame.geometry.blocks()
    }

    fn held(&self) -> Held {
        self.packets.held()
    }

    fn after(&self, step: &Step) -> Held {
        let id = self.frame.geometry.block_id(step.block);
        let entry = self.entry_after(id, step);
        self.packets.held_with(id, entry)
    }

    fn take(&mut self, step: &Step) {
        let id = self.frame.geometry.block_id(step.block);
        let entry = self.entry_after(id, step);
        let block = step.block as usize;
        let present = self.present[block];
        self.packets.set(id, entry);
        self.present[block] = PresentBlock {
            bytes: entry.len,
            planes: present.planes,
        };
        self.counts[block] = step.to;
    }

    fn inside(&self, block: u32) -> Members {
        let geometry = self.frame.geometry;
        let id = geometry.block_id(block);
        Members::of(geometry.profile, geometry.levels, id.component, id.res)
    }
}
