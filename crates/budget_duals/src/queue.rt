// The heap of what blocks offer.
ghost use Rattle.std.specs.Prelude.{◌≡◌, ◌<◌, ◌≤◌, ◌+◌};
ghost use Rattle.std.specs.BinaryHeap.{heap_items, heap_len, heap_capacity, IsHeap};
ghost use Rattle.budget_duals.specs.Entries.{entry_cmp};
ghost use Rattle.budget_duals.specs.Queue.{Refilled};

use crate::entry::Entry;
use crate::{Offer, Offers};
use std::collections::BinaryHeap;

// Puts what a block offers to the heap, where it offers anything. There is room for it.
pub(crate) fn refill<O: Offers>(heap: &mut BinaryHeap<Entry>, offers: &O, block: u32)
    requires block { block < O.blocks offers.now }
    requires room { heap_len heap.old < heap_capacity heap.old }
    requires order { IsHeap entry_cmp (heap_items heap.old) }
    ensures refilled { Refilled block (O.offered offers.now block) (heap_items heap.old)
        (heap_items heap.new) }
    ensures order { IsHeap entry_cmp (heap_items heap.new) }
    ensures len { heap_len heap.new ≤ heap_len heap.old + 1 }
    ensures capacity { heap_capacity heap.old ≤ heap_capacity heap.new }
{
    let offer = offers.offer(block);
    match offer {
        Offer::Nothing => {}
        _ => {
            let _ = heap.push(Entry { block, offer });
        }
    }
}
