// How far the passes of a block are coded each time that it is asked. It is a matter of time alone:
// what is said of a block doesn't depend on it.
ghost use Rattle.std.specs.Prelude.{◌≡◌, ◌<◌, ◌≤◌, ◌^◌, length};

use crate::DemandBlock;
use ebcot_passes::{CodedPass, code};

/// One block of so many is coded whole beforehand, to find a price. It is a prime number, so that
/// the sample has blocks of all columns of a band.
const SAMPLED: usize = 127;

/// How many prices of a byte there are, four for each doubling from 1.
const PRICES: usize = 160;

// A price of a byte, in distortion.
fn price(level: usize) -> u64
    requires { level < 160 }
{
    (4 + (level % 4) as u64) << (level / 4) >> 2
}

// What the passes up to this one cost: the distortion that they leave, and their bytes at a price.
pub(crate) fn cost(pass: &CodedPass, price: u64) -> u128 {
    u128::from(pass.distortion) + u128::from(price) * (u128::from(pass.mark.count) + 1)
}

// What a block costs with the cheapest number of its coded passes.
pub(crate) fn least_cost(start: u64, passes: &[CodedPass], price: u64) -> u128 {
    let mut least = u128::from(start);
    for pass in passes {
        least = least.min(cost(pass, price));
    }
    least
}

// Whether no further pass can cost less than the least: it has a byte more than are put out, and
// may leave no distortion.
pub(crate) fn is_reached(least: u128, last: &CodedPass, price: u64) -> bool {
    least <= u128::from(price) * (u128::from(last.mark.count) + 1)
}

// How many bytes the cheapest number of passes of a block has, with what their ending and the packet
// header take, about 2.
fn bytes_at(start: u64, passes: &[CodedPass], price: u64) -> u64 {
    let mut least = u128::from(start);
    let mut bytes = 0;
    for pass in passes {
        let cost = cost(pass, price);
        if cost < least {
            least = cost;
            bytes = u64::from(pass.mark.count) + 3;
        }
    }
    bytes
}

// The least price of a byte at which the codes of all blocks have no more than so many bytes, as far
// as a sample of the blocks tells.
fn price_of(blocks: &[DemandBlock<'_>], room: u32, buffer: &mut [u8]) -> u64
    requires room { 77312 ≤ length buffer.old }
    requires few { length buffer.old < 2 ^ 31 }
    ensures length { length buffer.new ≡ length buffer.old }
{
    let mut bytes = [0u64; PRICES];
    for n in 0..blocks.len() / SAMPLED {
        let block = &blocks[SAMPLED * n];
        let coded = code(&block.view, block.orient, buffer);
        for level in 0..PRICES {
            let more = bytes_at(coded.start, coded.passes.as_slice(), price(level));
            bytes[level] = bytes[level].saturating_add(more);
        }
    }
    for level in 0..PRICES {
        if bytes[level].saturating_mul(SAMPLED as u64) <= u64::from(room) {
            return price(level);
        }
    }
    price(PRICES - 1)
}

/// The price of a byte up to which blocks are coded when they are asked.
///
/// It begins a little above the price at which a walk is likely to end. One below that would have
/// many blocks coded by passes that nobody asks for, which is dearer than some blocks that are asked
/// again: each of these codes one pass more.
#[derive(Clone, Copy)]
pub(crate) struct Goal {
    price: u64,
    blocks: usize,
    asked_again: usize,
}

impl Goal {
    // The goal of blocks of which about so many bytes will be wanted.
    pub(crate) fn new(blocks: &[DemandBlock<'_>], room: u32, buffer: &mut [u8]) -> Goal
        requires room { 77312 ≤ length buffer.old }
        requires few { length buffer.old < 2 ^ 31 }
        ensures length { length buffer.new ≡ length buffer.old }
    {
        Goal {
            price: price_of(blocks, room, buffer),
            blocks: blocks.len(),
            asked_again: 0,
        }
    }

    // The price up to which this block is coded now.
    pub(crate) fn price_for(&mut self, block: &DemandBlock<'_>) -> u64 {
        if block.is_coded_to(self.price) {
            self.ask_again();
        }
        self.price
    }

    // Lowers the price by an eighth where more than one block in sixteen was asked again since the
    // last time.
    fn ask_again(&mut self) {
        self.asked_again = self.asked_again.saturating_add(1);
        if self.asked_again > self.blocks / 16 {
            self.price = self.price.saturating_sub(self.price / 8 + 1);
            self.asked_again = 0;
        }
    }
}
