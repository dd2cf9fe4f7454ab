// The moves of a walk.
ghost use Rattle.std.specs.Prelude.{ℕ, ◌≡◌, ◌≢◌, ◌<◌, List, length, None};
ghost use Rattle.rd_hulls.specs.declared.step.Step.{Step};
ghost use Rattle.allocation_bound.specs.Settled.{AreBudgets, nearest};
ghost use Rattle.budget_duals.specs.Price.{CanTake};
ghost use Rattle.budget_duals.specs.Tree.{IsTree, budgets_of};
ghost use Rattle.budget_duals.specs.Queue.{IsEntry};
ghost use Rattle.budget_duals.specs.Walking.{so_far, Walks, IsNextStep, ahead};
ghost use Rattle.budget_duals.specs.declared.offer.Offer.{Offer};

use crate::entry::Entry;
use crate::{Holdings, Offer, Offers, Tree};
use rd_hulls::Step;

// Takes a step that is at least as steep as all that open blocks have left, or closes the outermost
// budget that it breaks.
pub(crate) fn take_or_close<O: Offers, H: Holdings>(
    tree: &Tree,
    offers: &mut O,
    held: &mut H,
    closed: &mut [Option<Step>],
    step: &Step,
)
    requires tree { IsTree tree.now }
    requires closed { length closed.old ≡ length tree.now.limits.now }
    requires blocks { length (H.most held.old) ≡ O.blocks offers.old }
    requires budgets { AreBudgets
        (budgets_of tree.now (O.blocks offers.old) (H.node_of held.old) (H.held_by held.old)) }
    requires offered { O.offered offers.old step.now.block ≡ Offer.Step step.now }
    requires can { CanTake (H.most held.old) (H.chosen held.old) step.now }
    requires known { H.knows held.old step.now }
    requires next { IsNextStep
        (budgets_of tree.now (O.blocks offers.old) (H.node_of held.old) (H.held_by held.old))
        (so_far (H.chosen held.old) (O.done offers.old) (O.left offers.old) closed.old) step.now }
    ensures walks { (steps : ℕ → List Step) →
        Walks (budgets_of tree.now (O.blocks offers.old) (H.node_of held.old) (H.held_by held.old))
        steps
        (so_far (H.chosen held.old) (O.done offers.old) (O.left offers.old) closed.old) →
        Walks (budgets_of tree.now (O.blocks offers.old) (H.node_of held.old) (H.held_by held.old))
        steps
        (so_far (H.chosen held.new) (O.done offers.new) (O.left offers.new) closed.new) }
    ensures opens { (b : ℕ) →
        nearest (budgets_of tree.now (O.blocks offers.old) (H.node_of held.old)
        (H.held_by held.old))
        (so_far (H.chosen held.new) (O.done offers.new) (O.left offers.new) closed.new) b ≡ None →
        nearest (budgets_of tree.now (O.blocks offers.old) (H.node_of held.old)
        (H.held_by held.old))
        (so_far (H.chosen held.old) (O.done offers.old) (O.left offers.old) closed.old) b ≡ None }
    ensures ahead { ahead (O.blocks offers.old) (O.left offers.new) closed.new
        (O.unknown offers.new) <
        ahead (O.blocks offers.old) (O.left offers.old) closed.old (O.unknown offers.old) }
    ensures blocks { O.blocks offers.new ≡ O.blocks offers.old }
    ensures lefts { (k : ℕ) → k ≢ step.now.block → O.left offers.new k ≡ O.left offers.old k }
    ensures others { (k : ℕ) → k ≢ step.now.block → O.offered offers.new k
        ≡ O.offered offers.old k }
    ensures closed { length closed.new ≡ length closed.old }
    ensures most { H.most held.new ≡ H.most held.old }
    ensures node { H.node_of held.new ≡ H.node_of held.old }
    ensures held { H.held_by held.new ≡ H.held_by held.old }
    ensures knows { (s : Step) → H.knows held.old s → H.knows held.new s }
    ensures stays { H.stays held.old held.new }
    ensures keeps { O.stays offers.old offers.new }
{
    match held.breaks(tree, step) {
        None => {
            held.choose(step);
            offers.take(step);
        }
        Some(budget) => {
            closed[budget as usize] = Some(*step);
        }
    }
}

// Goes on with the entry that was at the top of the heap, of an open block: takes its step, closes
// a budget, or learns more of the block.
pub(crate) fn visit<O: Offers, H: Holdings>(
    tree: &Tree,
    offers: &mut O,
    held: &mut H,
    closed: &mut [Option<Step>],
    entry: &Entry,
)
    requires tree { IsTree tree.now }
    requires closed { length closed.old ≡ length tree.now.limits.now }
    requires blocks { length (H.most held.old) ≡ O.blocks offers.old }
    requires budgets { AreBudgets
        (budgets_of tree.now (O.blocks offers.old) (H.node_of held.old) (H.held_by held.old)) }
    requires entry { IsEntry (O.blocks offers.old) (O.offered offers.old) entry.now }
    requires own { (s : Step) → entry.now.offer ≡ Offer.Step s → s.block ≡ entry.now.block }
    requires can { (s : Step) → entry.now.offer ≡ Offer.Step s →
        CanTake (H.most held.old) (H.chosen held.old) s }
    requires known { (s : Step) → entry.now.offer ≡ Offer.Step s → H.knows held.old s }
    requires next { (s : Step) → entry.now.offer ≡ Offer.Step s →
        IsNextStep (budgets_of tree.now (O.blocks offers.old) (H.node_of held.old)
        (H.held_by held.old))
        (so_far (H.chosen held.old) (O.done offers.old) (O.left offers.old) closed.old) s }
    ensures walks { (steps : ℕ → List Step) →
        Walks (budgets_of tree.now (O.blocks offers.old) (H.node_of held.old) (H.held_by held.old))
        steps
        (so_far (H.chosen held.old) (O.done offers.old) (O.left offers.old) closed.old) →
        Walks (budgets_of tree.now (O.blocks offers.old) (H.node_of held.old) (H.held_by held.old))
        steps
        (so_far (H.chosen held.new) (O.done offers.new) (O.left offers.new) closed.new) }
    ensures opens { (b : ℕ) →
        nearest (budgets_of tree.now (O.blocks offers.old) (H.node_of held.old)
        (H.held_by held.old))
        (so_far (H.chosen held.new) (O.done offers.new) (O.left offers.new) closed.new) b ≡ None →
        nearest (budgets_of tree.now (O.blocks offers.old) (H.node_of held.old)
        (H.held_by held.old))
        (so_far (H.chosen held.old) (O.done offers.old) (O.left offers.old) closed.old) b ≡ None }
    ensures ahead { ahead (O.blocks offers.old) (O.left offers.new) closed.new
        (O.unknown offers.new) <
        ahead (O.blocks offers.old) (O.left offers.old) closed.old (O.unknown offers.old) }
    ensures blocks { O.blocks offers.new ≡ O.blocks offers.old }
    ensures lefts { (k : ℕ) → k ≢ entry.now.block → O.left offers.new k ≡ O.left offers.old k }
    ensures others { (k : ℕ) → k ≢ entry.now.block → O.offered offers.new k
        ≡ O.offered offers.old k }
    ensures closed { length closed.new ≡ length closed.old }
    ensures most { H.most held.new ≡ H.most held.old }
    ensures node { H.node_of held.new ≡ H.node_of held.old }
    ensures held { H.held_by held.new ≡ H.held_by held.old }
    ensures knows { (s : Step) → H.knows held.old s → H.knows held.new s }
    ensures stays { H.stays held.old held.new }
    ensures keeps { O.stays offers.old offers.new }
{
    match entry.offer {
        Offer::Nothing => {}
        Offer::Step(step) => take_or_close(tree, offers, held, closed, &step),
        Offer::AtMost(_) => offers.look(entry.block),
    }
}
