// The choice of a frame's passes under its byte budgets.
ghost use Rattle.std.specs.Prelude.{◌≡◌, IfOk, is_some};
ghost use Rattle.budget_duals.specs.Frame.{AreLow};
ghost use Rattle.budget_duals.specs.Held.{IsWithin};
ghost use Rattle.cine_nums.specs.Limits.{has_inner};
ghost use Rattle.coded_blocks.specs.Codes.{AreChosenCodes};
ghost use Rattle.frame_choice.specs.Chosen.{IsChosen, undecoded};
ghost use Rattle.frame_choice.specs.Demanded.{AreDemanded};
ghost use Rattle.frame_choice.specs.PriceLaws.{planes_in};
ghost use Rattle.frame_packets.specs.Keeps.{Keeps, frame_held, nothing};
ghost use Rattle.profile_reader.specs.Chosen.{chosen};

use crate::blocks::{codes_of, frame_blocks};
use crate::price::FramePrice;
use crate::quantised::QuantisedFrame;
use budget_duals::{AllocateRefusal, Certificate, Limits, allocate_offers};
use coded_blocks::ChosenCodes;
use demand_blocks::DemandBlocks;
use frame_packets::FramePackets;
use offers_on_demand::OnDemand;
use std::alloc::{AllocError, Global};

/// A choice of passes of a frame, the packets that it makes, and how far it can be from the best
/// one.
#[derive(Drop)]
pub struct Choice {
    /// The number of coding passes of each code-block, by block number.
    pub counts: Vec<u8>,
    /// The bytes of these passes, by block number.
    pub codes: ChosenCodes,
    /// The packets of the frame with these passes.
    pub packets: FramePackets,
    /// The distortion with nothing decoded, in units of half a step squared.
    pub empty: u128,
    /// The multipliers, the refused steps, the distortion with the chosen passes, and the gap.
    pub certificate: Certificate,
}

/// The distortion of a frame of which nothing is decoded, in units of half a step squared.
fn undecoded(frame: &QuantisedFrame, blocks: &DemandBlocks) -> u128
    requires { AreDemanded frame.now.geometry.now (planes_in frame.now) blocks.now.blocks.items }
    ensures { result ≡ undecoded frame.now.geometry.now (planes_in frame.now) }
{
    let mut sum: u128 = 0;
    for n in 0..frame.geometry.blocks() {
        sum += u128::from(blocks.block(n).distortion(0));
    }
    sum
}

// The bytes of a codestream that keeps limits, at most.
fn most_bytes(limits: &Limits) -> u32 {
    let [first, second, third] = limits.component;
    limits
        .frame
        .min(first.saturating_add(second).saturating_add(third))
}

/// Chooses the coding passes of a frame under limits that its codestream keeps without any pass, by
/// a walk from the steepest step of the hulls of its code-blocks to the flattest (J.14.3). The
/// passes of a code-block are coded as the walk comes down to its steps.
///
/// `packets` has no included code-block. Limits are below 2^22 bytes, and `inner` is there exactly
/// for 4K. The only refusal is out of memory.
pub fn choose(
    alloc: Global,
    frame: QuantisedFrame,
    limits: &Limits,
    packets: FramePackets,
) -> Result<Choice, AllocError>
    requires empty { Keeps frame.geometry.now frame.steps.now nothing packets }
    requires low { AreLow limits.now }
    requires inner { is_some limits.now.inner ≡ has_inner frame.geometry.now.profile }
    requires within { IsWithin limits.now
        (frame_held frame.geometry.now frame.steps.now nothing) }
    ensures chosen { IfOk result (λ r. IsChosen frame.entry.geometry.now frame.entry.steps.now
        (planes_in frame.entry) limits.now r.counts.items r.certificate) }
    ensures undecoded { IfOk result (λ r. r.empty
        ≡ undecoded frame.entry.geometry.now (planes_in frame.entry)) }
    ensures packets { IfOk result (λ r. Keeps frame.entry.geometry.now frame.entry.steps.now
        (chosen frame.entry.geometry.now frame.entry.steps.now (planes_in frame.entry)
        r.counts.items) r.packets) }
    ensures codes { IfOk result (λ r. AreChosenCodes frame.entry.geometry.now
        frame.entry.steps.now (planes_in frame.entry) r.counts.items r.codes) }
{
    let blocks = frame_blocks(alloc, &frame, most_bytes(limits))?;
    let empty = undecoded(&frame, &blocks);
    let mut price = FramePrice::new(alloc, frame, &blocks, packets)?;
    let mut offers = OnDemand::new(alloc, blocks)?;
    match allocate_offers(alloc, empty, &mut offers, limits, &mut price) {
        Ok(certificate) => {
            let coded = offers.into_passes();
            let codes = codes_of(alloc, &frame, coded, price.counts.as_slice())?;
            let FramePrice {
                counts,
                packets,
                ..
            } = price;
            Ok(Choice {
                counts,
                codes,
                packets,
                empty,
                certificate,
            })
        }
        Err(AllocateRefusal::Memory) => Err(AllocError),
        Err(AllocateRefusal::LimitTooSmall(..)) => unreachable!(),
    }
}
