// The walk over what blocks offer.
ghost use Rattle.std.specs.Prelude.{ℕ, ◌≡◌, ◌<◌, ◌≤◌, length};
ghost use Rattle.std.specs.BinaryHeap.{heap_items, heap_len, heap_capacity};
ghost use Rattle.std.specs.List.{AllByRecursion};
ghost use Rattle.allocation_bound.specs.Settled.{AreBudgets, IsSettled};
ghost use Rattle.allocation_bound.specs.Walk.{IsReached};
ghost use Rattle.budget_duals.specs.Tree.{IsTree, budgets_of};
ghost use Rattle.budget_duals.specs.Walking.{so_far, CanWalk};
ghost use Rattle.budget_duals.specs.Going.{IsGoing};

use crate::entry::Entry;
use crate::moves::visit;
use crate::queue::refill;
use crate::{Holdings, Offers, Tree};
use rd_hulls::Step;
use std::collections::BinaryHeap;

// Looks at the steepest offer of all, until none is left: takes its step where no budget of its
// block is closed and none breaks, closes the outermost budget that breaks, or learns more of its
// block.
pub(crate) fn walk<O: Offers, H: Holdings>(
    tree: &Tree,
    offers: &mut O,
    held: &mut H,
    closed: &mut [Option<Step>],
    heap: &mut BinaryHeap<Entry>,
)
    requires tree { IsTree tree.now }
    requires closed { length closed.old ≡ length tree.now.limits.now }
    requires blocks { length (H.most held.old) ≡ O.blocks offers.old }
    requires budgets { AreBudgets
        (budgets_of tree.now (O.blocks offers.old) (H.node_of held.old) (H.held_by held.old)) }
    requires can { CanWalk (H.most held.old) (O.left offers.old) }
    requires known { (b : ℕ) → b < O.blocks offers.old →
        AllByRecursion (H.knows held.old) (O.left offers.old b) }
    requires going { IsGoing
        (budgets_of tree.now (O.blocks offers.old) (H.node_of held.old) (H.held_by held.old))
        (O.left offers.old) (so_far (H.chosen held.old) (O.done offers.old) (O.left offers.old)
        closed.old)
        (O.offered offers.old) (heap_items heap.old) }
    requires few { heap_len heap.old ≤ O.blocks offers.old }
    requires room { O.blocks offers.old ≤ heap_capacity heap.old }
    ensures settled { IsSettled
        (budgets_of tree.now (O.blocks offers.old) (H.node_of held.old) (H.held_by held.old))
        (O.left offers.old) (so_far (H.chosen held.new) (O.done offers.new) (O.left offers.new)
        closed.new) }
    ensures reached { IsReached
        (budgets_of tree.now (O.blocks offers.old) (H.node_of held.old) (H.held_by held.old))
        (O.left offers.old) (so_far (H.chosen held.new) (O.done offers.new) (O.left offers.new)
        closed.new) }
    ensures blocks { O.blocks offers.new ≡ O.blocks offers.old }
    ensures closed { length closed.new ≡ length closed.old }
    ensures most { H.most held.new ≡ H.most held.old }
    ensures node { H.node_of held.new ≡ H.node_of held.old }
    ensures held { H.held_by held.new ≡ H.held_by held.old }
    ensures stays { H.stays held.old held.new }
    ensures keeps { O.stays offers.old offers.new }
{
    while let Some(entry) = heap.pop() {
        if tree.is_open(held.node(entry.block), closed) {
            visit(tree, offers, held, closed, &entry);
            refill(heap, offers, entry.block);
        }
    }
}
