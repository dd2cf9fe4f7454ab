// The allocation beside nested budgets: the walk, and what its end says.
ghost use Rattle.std.specs.Prelude.{ℕ, ◌≡◌, ◌+◌, ◌-◌, ◌*◌, ◌<◌, ◌≤◌, ◌^◌, [], length, get_or, None};
ghost use Rattle.std.specs.Prelude.{IfOk, OnErr};
ghost use Rattle.allocation_bound.specs.Ledger.{rounded_up};
ghost use Rattle.allocation_bound.specs.Settled.{AreBudgets};
ghost use Rattle.allocation_bound.specs.Steps.{Agrees, excess, lens};
ghost use Rattle.allocation_bound.specs.Sums.{upto};
ghost use Rattle.std.specs.BinaryHeap.{heap_items, heap_len, heap_capacity, IsHeap};
ghost use Rattle.std.specs.List.{AllByRecursion};
ghost use Rattle.budget_duals.specs.Allocated.{IsAllocated};
ghost use Rattle.budget_duals.specs.Entries.{entry_cmp};
ghost use Rattle.budget_duals.specs.Sums.{rate_by};
ghost use Rattle.budget_duals.specs.Tree.{IsTree, budgets_of, closed_by, limit_at, number_at};
ghost use Rattle.budget_duals.specs.Walking.{so_far, CanWalk};

use crate::begin::first_entries;
use crate::entry::Entry;
use crate::sums::{excess_sum, set_multipliers, unused_sum};
use crate::walking::walk;
use crate::{Holdings, Offers, Tree};
use rd_hulls::Step;
use std::alloc::{AllocError, Global};
use std::collections::BinaryHeap;

/// The multipliers of nested budgets (whole numbers over 2^32), the gap, and of each budget the
/// step that closed it, if one did.
#[derive(Debug, Drop)]
pub struct Duals {
    pub multipliers: Vec<u128>,
    pub gap: u128,
    pub closed: Vec<Option<Step>>,
}

// The gap: what blocks' excess and the budgets' unused bytes are worth together, over 2^32, rounded
// up.
fn gap_of<O: Offers, H: Holdings>(
    tree: &Tree,
    offers: &mut O,
    held: &H,
    closed: &[Option<Step>],
    multipliers: &[u128],
) -> u128
    requires tree { IsTree tree.now }
    requires closed { length closed.now ≡ length tree.now.limits.now }
    requires blocks { length (H.most held.now) ≡ O.blocks offers.old }
    requires inside { (b : ℕ) → b < O.blocks offers.old →
        H.node_of held.now b < length tree.now.limits.now }
    requires agree { (b : ℕ) → b < O.blocks offers.old →
        Agrees (rate_by tree.now closed.now (H.node_of held.now) b) (O.done offers.old b)
        (O.left offers.old b) }
    requires bytes { upto (O.blocks offers.old) (λ b. lens (O.left offers.old b)) < 2 ^ 64 }
    requires multipliers { length multipliers.now ≡ length tree.now.limits.now }
    requires few { length tree.now.limits.now ≤ 100 }
    requires limits { (j : ℕ) → j < length tree.now.limits.now → limit_at tree.now j < 2 ^ 25 }
    requires small { (j : ℕ) → j < length tree.now.limits.now →
        number_at multipliers.now j < 2 ^ 96 }
    ensures gap { result ≡ rounded_up (upto (O.blocks offers.old)
        (λ b. excess (rate_by tree.now closed.now (H.node_of held.now) b) (O.left offers.old b))
        + upto (length tree.now.limits.now)
        (λ j. number_at multipliers.now j *
        (limit_at tree.now j - H.held_by held.now (H.chosen held.now) j))) }
    ensures blocks { O.blocks offers.new ≡ O.blocks offers.old }
    ensures done { O.done offers.new ≡ O.done offers.old }
    ensures left { O.left offers.new ≡ O.left offers.old }
    ensures keeps { O.stays offers.old offers.new }
{
    let over = excess_sum(tree, offers, held, closed);
    let unused = unused_sum(tree, held, multipliers);
    (over + unused + 0xffff_ffff) / 0x1_0000_0000
}

// So many budgets, all open.
fn all_open(alloc: Global, budgets: usize) -> Result<Vec<Option<Step>>, AllocError>
    ensures many { IfOk result (λ v. length v.items ≡ budgets) }
    ensures none { IfOk result (λ v. (j : ℕ) → closed_by v.items j ≡ None) }
{
    let mut closed = Vec::new(alloc);
    for _ in 0..budgets {
        closed.push(None)?;
    }
    Ok(closed)
}

// Walks, and finds the gap of what the walk leaves.
fn settle<O: Offers, H: Holdings>(
    tree: &Tree,
    offers: &mut O,
    held: &mut H,
    closed: &mut [Option<Step>],
    multipliers: &mut [u128],
    heap: &mut BinaryHeap<Entry>,
) -> u128
    requires tree { IsTree tree.now }
    requires few { length tree.now.limits.now ≤ 100 }
    requires limits { (j : ℕ) → j < length tree.now.limits.now → limit_at tree.now j < 2 ^ 25 }
    requires blocks { length (H.most held.old) ≡ O.blocks offers.old }
    requires long { length (H.chosen held.old) ≡ O.blocks offers.old }
    requires counts { (b : ℕ) → b < O.blocks offers.old → get_or (H.chosen held.old) b 0 ≡ 0 }
    requires done { (b : ℕ) → b < O.blocks offers.old → O.done offers.old b ≡ [] }
    requires can { CanWalk (H.most held.old) (O.left offers.old) }
    requires known { (b : ℕ) → b < O.blocks offers.old →
        AllByRecursion (H.knows held.old) (O.left offers.old b) }
    requires bytes { upto (O.blocks offers.old) (λ b. lens (O.left offers.old b)) < 2 ^ 64 }
    requires budgets { AreBudgets
        (budgets_of tree.now (O.blocks offers.old) (H.node_of held.old) (H.held_by held.old)) }
    requires within { (j : ℕ) → j < length tree.now.limits.now →
        H.held_by held.old (H.chosen held.old) j ≤ limit_at tree.now j }
    requires closed { length closed.old ≡ length tree.now.limits.now }
    requires opens { (j : ℕ) → closed_by closed.old j ≡ None }
    requires multipliers { length multipliers.old ≡ length tree.now.limits.now }
    requires none { heap_items heap.old ≡ [] }
    requires empty { heap_len heap.old ≡ 0 }
    requires order { IsHeap entry_cmp (heap_items heap.old) }
    requires room { O.blocks offers.old ≤ heap_capacity heap.old }
    ensures allocated { IsAllocated
        (budgets_of tree.now (O.blocks offers.old) (H.node_of held.old) (H.held_by held.old))
        (O.left offers.old) (so_far (H.chosen held.new) (O.done offers.new) (O.left offers.new)
        closed.new)
        multipliers.new result }
    ensures closed { length closed.new ≡ length closed.old }
    ensures multipliers { length multipliers.new ≡ length multipliers.old }
    ensures blocks { O.blocks offers.new ≡ O.blocks offers.old }
    ensures stays { H.stays held.old held.new }
    ensures keeps { O.stays offers.old offers.new }
{
    first_entries(heap, offers);
    walk(tree, offers, held, closed, heap);
    set_multipliers(tree, closed, multipliers);
    gap_of(tree, offers, held, closed, multipliers)
}

/// Chooses steps of blocks beside nested budgets, by a walk from the steepest step to the flattest:
/// a step is taken where no budget of its block would hold more than its limit, else the outermost
/// budget that would is closed, and its blocks change no more.
///
/// At first no step is taken. `tree` has at most 100 budgets with limits below 2^25 bytes, each
/// within its limit at first. Only out of memory is refused; it comes before the first step is
/// taken, and `held` and `offers` are then as they were.
pub fn allocate_over<O: Offers, H: Holdings>(
    alloc: Global,
    tree: &Tree,
    offers: &mut O,
    held: &mut H,
) -> Result<Duals, AllocError>
    requires tree { IsTree tree.now }
    requires few { length tree.now.limits.now ≤ 100 }
    requires limits { (j : ℕ) → j < length tree.now.limits.now → limit_at tree.now j < 2 ^ 25 }
    requires blocks { length (H.most held.old) ≡ O.blocks offers.old }
    requires long { length (H.chosen held.old) ≡ O.blocks offers.old }
    requires counts { (b : ℕ) → b < O.blocks offers.old → get_or (H.chosen held.old) b 0 ≡ 0 }
    requires done { (b : ℕ) → b < O.blocks offers.old → O.done offers.old b ≡ [] }
    requires can { CanWalk (H.most held.old) (O.left offers.old) }
    requires known { (b : ℕ) → b < O.blocks offers.old →
        AllByRecursion (H.knows held.old) (O.left offers.old b) }
    requires bytes { upto (O.blocks offers.old) (λ b. lens (O.left offers.old b)) < 2 ^ 64 }
    requires budgets { AreBudgets
        (budgets_of tree.now (O.blocks offers.old) (H.node_of held.old) (H.held_by held.old)) }
    requires within { (j : ℕ) → j < length tree.now.limits.now →
        H.held_by held.old (H.chosen held.old) j ≤ limit_at tree.now j }
    ensures ok { IfOk result
        (λ d. IsAllocated (budgets_of tree.now (O.blocks offers.old) (H.node_of held.old)
        (H.held_by held.old))
        (O.left offers.old) (so_far (H.chosen held.new) (O.done offers.new) (O.left offers.new)
        d.closed.items)
        d.multipliers.items d.gap) }
    ensures closed { IfOk result (λ d. length d.closed.items ≡ length tree.now.limits.now) }
    ensures blocks { O.blocks offers.new ≡ O.blocks offers.old }
    ensures stays { H.stays held.old held.new }
    ensures keeps { O.stays offers.old offers.new }
    ensures memory { OnErr result (held.new ≡ held.old) }
    ensures untouched { OnErr result (offers.new ≡ offers.old) }
{
    let budgets = tree.limits.len();
    let mut closed = all_open(alloc, budgets)?;
    let mut multipliers = vec![in alloc; 0u128; budgets]?;
    let mut heap = BinaryHeap::with_capacity(alloc, offers.count() as usize)?;
    let gap = settle(tree, offers, held, &mut closed, &mut multipliers, &mut heap);
    Ok(Duals {
        multipliers,
        gap,
        closed,
    })
}
