// The allocation beside the budgets of a frame.
ghost use Rattle.std.specs.Prelude.{ℕ, ◌≡◌, ◌↔◌, ◌+◌, ◌<◌, ◌≤◌, ◌^◌, [], List, Err, Some};
ghost use Rattle.std.specs.Prelude.{length, map, get_or, IsTrue, Option, None};
ghost use Rattle.std.specs.Prelude.{IfOk, OnOk, OnErr};
ghost use Rattle.std.specs.List.{AllByRecursion};
ghost use Rattle.cine_nums.specs.declared.budget.Budget.{Budget};
ghost use Rattle.rd_hulls.specs.declared.step.Step.{Step};
ghost use Rattle.allocation_bound.specs.Budgets.{IsOn, chain};
ghost use Rattle.allocation_bound.specs.Steps.{gains};
ghost use Rattle.allocation_bound.specs.Sums.{upto};
ghost use Rattle.budget_duals.specs.Certified.{IsReady, IsCertificate};
ghost use Rattle.budget_duals.specs.Frame.{around_each, frame_budgets, or_none, AreMembers};
ghost use Rattle.budget_duals.specs.Frame.{IsTooSmall};
ghost use Rattle.budget_duals.specs.Held.{place_of, IsWithin};
ghost use Rattle.budget_duals.specs.Listed.{steps_of};
ghost use Rattle.budget_duals.specs.Listing.{refused_all};
ghost use Rattle.budget_duals.specs.Members.{is_in};
ghost use Rattle.budget_duals.specs.Numbered.{node_in};
ghost use Rattle.budget_duals.specs.Price.{CanTake};
ghost use Rattle.budget_duals.specs.Tree.{closed_by, number_at};
ghost use Rattle.budget_duals.specs.declared.certificate.AllocateRefusal.{AllocateRefusal};
ghost use Rattle.budget_duals.specs.declared.members.Members.{Members};

use crate::refused::{gained_sum, refused_list};
use crate::{
    AllocateRefusal, Certificate, Duals, Holdings, Limits, ListedOffers, Offers, Price, Tree,
    allocate_over,
};
use rd_hulls::Step;
use std::alloc::{AllocError, Global};

// What an allocation beside the five budgets of a frame says.
fn certificate_of<O: Offers, P: Price>(
    start: u128,
    offers: &O,
    price: &P,
    duals: &Duals,
) -> Certificate
    requires multipliers { length duals.now.multipliers.items ≡ 5 }
    requires closed { length duals.now.closed.items ≡ 5 }
    requires can { (j : ℕ) (s : Step) → closed_by duals.now.closed.items j ≡ Some s →
        CanTake (P.highest price.now) (P.counts price.now) s }
    requires known { (j : ℕ) (s : Step) → closed_by duals.now.closed.items j ≡ Some s →
        P.knows price.now s }
    requires start { start < 2 ^ 90 }
    requires gains { upto (O.blocks offers.now) (λ b. gains (O.done offers.now b)) ≤ start }
    ensures multipliers { (j : ℕ) → j < 5 → number_at result.multipliers j
        ≡ number_at duals.now.multipliers.items j }
    ensures gap { result.gap ≡ duals.now.gap }
    ensures distortion { result.distortion
        + upto (O.blocks offers.now) (λ b. gains (O.done offers.now b)) ≡ start }
    ensures refused { result.refused.items ≡ refused_all (⟦<P as Holdings>⟧.held_by price.now)
        (P.counts price.now) duals.now.multipliers.items duals.now.closed.items }
{
    let of = &duals.multipliers;
    Certificate {
        multipliers: [of[0], of[1], of[2], of[3], of[4]],
        gap: duals.gap,
        distortion: start - gained_sum(offers),
        refused: refused_list(price, &duals.multipliers, &duals.closed),
    }
}

// The limit of the 2K portion, and 0 where there is none.
fn inner_limit(limits: &Limits) -> u32
    ensures { result ≡ or_none limits.now.inner }
{
    match limits.inner {
        Some(limit) => limit,
        None => 0,
    }
}

// Allocates beside the five budgets of a frame, where `around` has those around each.
fn allocate_around<O: Offers, P: Price>(
    alloc: Global,
    start: u128,
    offers: &mut O,
    limits: &Limits,
    price: &mut P,
    around: &[&[u32]],
) -> Result<Certificate, AllocError>
    requires blocks { O.blocks offers.old ≡ length (P.highest price.old) }
    requires done { (b : ℕ) → b < O.blocks offers.old → O.done offers.old b ≡ [] }
    requires ready { IsReady limits.now (P.highest price.old) (P.counts price.old)
        (P.inside_of price.old) (P.held_for price.old) (O.left offers.old) start }
    requires known { (b : ℕ) → b < O.blocks offers.old →
        AllByRecursion (P.knows price.old) (O.left offers.old b) }
    requires around { map (λ row. row.now) around.now ≡ around_each limits.now.inner }
    requires within { IsWithin limits.now (P.held_for price.old (P.counts price.old)) }
    ensures certified { IfOk result (λ c. IsCertificate
        (frame_budgets limits.now (O.blocks offers.old) (P.inside_of price.old)
        (P.held_for price.old))
        (O.left offers.old) (P.counts price.new) (O.done offers.new) (O.left offers.new) start c) }
    ensures keeps { P.keeps price.old price.new }
    ensures stays { O.stays offers.old offers.new }
    ensures unchanged { OnErr result (price.new ≡ price.old) }
    ensures untouched { OnErr result (offers.new ≡ offers.old) }
{
    let component = limits.component;
    let numbers = [
        limits.frame,
        inner_limit(limits),
        component[0],
        component[1],
        component[2],
    ];
    let tree = Tree {
        around,
        limits: &numbers,
    };
    let duals = allocate_over(alloc, &tree, offers, price)?;
    Ok(certificate_of(start, offers, price, &duals))
}

// Allocates beside the budgets of a frame, each within its limit at first.
fn allocate_within<O: Offers, P: Price>(
    alloc: Global,
    start: u128,
    offers: &mut O,
    limits: &Limits,
    price: &mut P,
) -> Result<Certificate, AllocError>
    requires blocks { O.blocks offers.old ≡ length (P.highest price.old) }
    requires done { (b : ℕ) → b < O.blocks offers.old → O.done offers.old b ≡ [] }
    requires ready { IsReady limits.now (P.highest price.old) (P.counts price.old)
        (P.inside_of price.old) (P.held_for price.old) (O.left offers.old) start }
    requires known { (b : ℕ) → b < O.blocks offers.old →
        AllByRecursion (P.knows price.old) (O.left offers.old b) }
    requires within { IsWithin limits.now (P.held_for price.old (P.counts price.old)) }
    ensures certified { IfOk result (λ c. IsCertificate
        (frame_budgets limits.now (O.blocks offers.old) (P.inside_of price.old)
        (P.held_for price.old))
        (O.left offers.old) (P.counts price.new) (O.done offers.new) (O.left offers.new) start c) }
    ensures keeps { P.keeps price.old price.new }
    ensures stays { O.stays offers.old offers.new }
    ensures unchanged { OnErr result (price.new ≡ price.old) }
    ensures untouched { OnErr result (offers.new ≡ offers.old) }
{
    let frame: [&[u32]; 5] = [&[], &[0], &[0], &[0], &[0]];
    let nested: [&[u32]; 5] = [&[], &[0], &[1, 0], &[1, 0], &[1, 0]];
    match limits.inner {
        None => allocate_around(alloc, start, offers, limits, price, &frame),
        Some(_) => allocate_around(alloc, start, offers, limits, price, &nested),
    }
}

/// Chooses passes of code-blocks beside the byte budgets of a frame, by a walk from the steepest
/// step to the flattest, and reports how far the choice can be from the best one. No step is taken
/// at first.
///
/// A step is taken where each budget of its block would still be within its limit, headers
/// included. Else the outermost budget that would not is closed by the step, and its blocks change
/// no more. `start` is the distortion with no passes, below 2^90; `offers` and `price` are of the
/// same blocks, which are numbered from 0, and of no passes. Limits are below 2^22 bytes. The
/// certificate's multipliers are over 2^32 and stand in the order frame, inner, c0, c1, c2. `price`
/// knows of each step what it asks of one.
///
/// Refused with `LimitTooSmall` exactly if a budget holds more than its limit at first: the
/// outermost such budget, and the bytes that it holds. It comes before `Memory`. After both,
/// `price` and `offers` are as they were.
pub fn allocate_offers<O: Offers, P: Price>(
    alloc: Global,
    start: u128,
    offers: &mut O,
    limits: &Limits,
    price: &mut P,
) -> Result<Certificate, AllocateRefusal>
    requires blocks { O.blocks offers.old ≡ length (P.highest price.old) }
    requires done { (b : ℕ) → b < O.blocks offers.old → O.done offers.old b ≡ [] }
    requires ready { IsReady limits.now (P.highest price.old) (P.counts price.old)
        (P.inside_of price.old) (P.held_for price.old) (O.left offers.old) start }
    requires known { (b : ℕ) → b < O.blocks offers.old →
        AllByRecursion (P.knows price.old) (O.left offers.old b) }
    ensures too_small { (budget : Budget) (needed : ℕ) →
        (result ≡ Err (AllocateRefusal.LimitTooSmall budget needed)) ↔
        IsTooSmall limits.now (P.held_for price.old (P.counts price.old)) budget needed }
    ensures certified { IfOk result (λ c. IsCertificate
        (frame_budgets limits.now (O.blocks offers.old) (P.inside_of price.old)
        (P.held_for price.old))
        (O.left offers.old) (P.counts price.new) (O.done offers.new) (O.left offers.new) start c) }
    ensures within { OnOk result (IsWithin limits.now (P.held_for price.old (P.counts price.new))) }
    ensures no_inner { limits.now.inner ≡ None → IfOk result (λ c. number_at c.multipliers 1 ≡ 0) }
    ensures keeps { P.keeps price.old price.new }
    ensures stays { O.stays offers.old offers.new }
    ensures unchanged { OnErr result (price.new ≡ price.old) }
    ensures untouched { OnErr result (offers.new ≡ offers.old) }
{
    let held = price.held();
    if let Some(budget) = limits.broken(&held) {
        let needed = held.bytes(budget);
        return Err(AllocateRefusal::LimitTooSmall(budget, needed));
    }
    match allocate_within(alloc, start, offers, limits, price) {
        Ok(certificate) => Ok(certificate),
        Err(_) => Err(AllocateRefusal::Memory),
    }
}

/// The same over whole lists: `steps` has the steps of all blocks, those of each block in their
/// order.
pub fn allocate<P: Price>(
    alloc: Global,
    start: u128,
    steps: Vec<Step>,
    limits: &Limits,
    price: &mut P,
) -> Result<Certificate, AllocateRefusal>
    requires blocks { AllByRecursion (λ s. s.block < length (P.highest price.old)) steps.items }
    requires ready { IsReady limits.now (P.highest price.old) (P.counts price.old)
        (P.inside_of price.old) (P.held_for price.old) (λ b. steps_of b steps.items) start }
    requires known { (b : ℕ) → b < length (P.highest price.old) →
        AllByRecursion (P.knows price.old) (steps_of b steps.items) }
    ensures too_small { (budget : Budget) (needed : ℕ) →
        (result ≡ Err (AllocateRefusal.LimitTooSmall budget needed)) ↔
        IsTooSmall limits.now (P.held_for price.old (P.counts price.old)) budget needed }
    ensures certified { IfOk result
        (λ c. (done : ℕ → List Step) × ((left : ℕ → List Step) × IsCertificate
        (frame_budgets limits.now (length (P.highest price.old)) (P.inside_of price.old)
        (P.held_for price.old))
        (λ b. steps_of b steps.items) (P.counts price.new) done left start c)) }
    ensures within { OnOk result (IsWithin limits.now (P.held_for price.old (P.counts price.new))) }
    ensures no_inner { limits.now.inner ≡ None → IfOk result (λ c. number_at c.multipliers 1 ≡ 0) }
    ensures keeps { P.keeps price.old price.new }
    ensures unchanged { OnErr result (price.new ≡ price.old) }
{
    let held = price.held();
    if let Some(budget) = limits.broken(&held) {
        let needed = held.bytes(budget);
        return Err(AllocateRefusal::LimitTooSmall(budget, needed));
    }
    match ListedOffers::of_list(alloc, price.count(), &steps) {
        Ok(mut offers) => allocate_offers(alloc, start, &mut offers, limits, price),
        Err(_) => Err(AllocateRefusal::Memory),
    }
}

/// A block is in the budgets that stand on the chain of its innermost one. A call does nothing, and
/// gives the caller its clause.
pub fn frame_members()
    ensures { (limit : Option ℕ) (members : Members) (budget : Budget) → AreMembers limit members →
        (IsTrue (is_in members budget)
        ↔ IsOn (place_of budget) (chain (λ j. get_or (around_each limit) j []) (node_in members))) }
{}
