// The heap as a walk begins.
ghost use Rattle.std.specs.Prelude.{ℕ, ◌≡◌, ◌<◌, ◌≤◌, ◌⊎◌, []};
ghost use Rattle.std.specs.BinaryHeap.{heap_items, heap_len, heap_capacity, IsHeap};
ghost use Rattle.budget_duals.specs.Entries.{entry_cmp};
ghost use Rattle.budget_duals.specs.Queue.{IsQueue, count_at};

use crate::Offers;
use crate::entry::Entry;
use crate::queue::refill;
use std::collections::BinaryHeap;

// Puts what each block offers to an empty heap, which has room for it.
pub(crate) fn first_entries<O: Offers>(heap: &mut BinaryHeap<Entry>, offers: &O)
    requires none { heap_items heap.old ≡ [] }
    requires empty { heap_len heap.old ≡ 0 }
    requires order { IsHeap entry_cmp (heap_items heap.old) }
    requires room { O.blocks offers.now ≤ heap_capacity heap.old }
    ensures queue { IsQueue (O.blocks offers.now) (O.offered offers.now) (heap_items heap.new) }
    ensures covers { (b : ℕ) → b < O.blocks offers.now →
        (O.left offers.now b ≡ []) ⊎ (1 ≤ count_at b (heap_items heap.new)) }
    ensures order { IsHeap entry_cmp (heap_items heap.new) }
    ensures len { heap_len heap.new ≤ O.blocks offers.now }
    ensures capacity { O.blocks offers.now ≤ heap_capacity heap.new }
{
    for block in 0..offers.count() {
        refill(heap, offers, block);
    }
}
