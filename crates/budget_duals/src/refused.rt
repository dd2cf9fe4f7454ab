// The steps that a frame's budgets refused, and the gains of those that were taken.
ghost use Rattle.std.specs.Prelude.{ℕ, ◌≡◌, ◌+◌, ◌-◌, ◌<◌, ◌≤◌, ◌++◌, ◌^◌, Some, length, set};
ghost use Rattle.arrayvec.specs.ArrayVec.{array_vec_len};
ghost use Rattle.cine_nums.specs.declared.budget.Budget.{Budget};
ghost use Rattle.rd_hulls.specs.declared.step.Step.{Step};
ghost use Rattle.allocation_bound.specs.Refused.{price};
ghost use Rattle.allocation_bound.specs.Steps.{gains};
ghost use Rattle.allocation_bound.specs.Sums.{upto};
ghost use Rattle.budget_duals.specs.Held.{place_of};
ghost use Rattle.budget_duals.specs.Listing.{refused_all, refused_listed};
ghost use Rattle.budget_duals.specs.Price.{CanTake};
ghost use Rattle.budget_duals.specs.Tree.{closed_by};

use crate::levels::closed_at;
use crate::{Holdings, Offers, RefusedStep};
use arrayvec::ArrayVec;
use cine_nums::Budget;
use rd_hulls::Step;

// The number of a budget, from the outermost.
fn place(budget: Budget) -> u32
    ensures value { result ≡ place_of budget }
    ensures small { result < 5 }
{
    match budget {
        Budget::Frame => 0,
        Budget::Inner => 1,
        Budget::C0 => 2,
        Budget::C1 => 3,
        Budget::C2 => 4,
    }
}

// A step's gain for a byte, for its own bytes and for so many more, rounded up.
fn price_of(step: &Step, more: u32) -> u128
    ensures { result ≡ price step.now more }
{
    let bytes = u128::from(step.len) + u128::from(more);
    (step.gain * bytes + u128::from(step.len - 1)) / u128::from(step.len)
}

// By how many bytes a budget would grow with a step taken, beyond those of the step itself.
fn grow_of<H: Holdings>(held: &H, step: &Step, budget: u32) -> u32
    requires can { CanTake (H.most held.now) (H.chosen held.now) step.now }
    requires known { H.knows held.now step.now }
    ensures { result ≡ H.held_by held.now (set (H.chosen held.now) step.now.block step.now.to)
        budget
        - (H.held_by held.now (H.chosen held.now) budget + step.now.len) }
{
    let before = held.held_now(budget);
    let after = held.held_with(step, budget);
    after.saturating_sub(before).saturating_sub(step.len)
}

// Puts the step that a budget refused to the others, where the budget's multiplier is above 0.
fn add_refused<H: Holdings>(
    out: &mut ArrayVec<RefusedStep, 5>,
    held: &H,
    multipliers: &[u128],
    closed: &[Option<Step>],
    budget: Budget,
)
    requires room { array_vec_len out.old < 5 }
    requires multipliers { length multipliers.now ≡ 5 }
    requires closed { length closed.now ≡ 5 }
    requires can { (j : ℕ) (s : Step) → closed_by closed.now j ≡ Some s →
        CanTake (H.most held.now) (H.chosen held.now) s }
    requires known { (j : ℕ) (s : Step) → closed_by closed.now j ≡ Some s → H.knows held.now s }
    ensures items { out.new.items ≡ out.old.items
        ++ refused_listed (H.held_by held.now) (H.chosen held.now) multipliers.now closed.now
        budget }
    ensures len { array_vec_len out.new ≤ array_vec_len out.old + 1 }
{
    let number = place(budget);
    if multipliers[number as usize] > 0 {
        if let Some(step) = closed_at(closed, number) {
            let grow = grow_of(held, &step, number);
            let price = price_of(&step, grow);
            out.push(RefusedStep {
                budget,
                step,
                grow,
                price,
            });
        }
    }
}

// The steps that the five budgets of a frame refused, outermost first.
pub(crate) fn refused_list<H: Holdings>(
    held: &H,
    multipliers: &[u128],
    closed: &[Option<Step>],
) -> ArrayVec<RefusedStep, 5>
    requires multipliers { length multipliers.now ≡ 5 }
    requires closed { length closed.now ≡ 5 }
    requires can { (j : ℕ) (s : Step) → closed_by closed.now j ≡ Some s →
        CanTake (H.most held.now) (H.chosen held.now) s }
    requires known { (j : ℕ) (s : Step) → closed_by closed.now j ≡ Some s → H.knows held.now s }
    ensures { result.items
        ≡ refused_all (H.held_by held.now) (H.chosen held.now) multipliers.now closed.now }
{
    let mut out = ArrayVec::new();
    add_refused(&mut out, held, multipliers, closed, Budget::Frame);
    add_refused(&mut out, held, multipliers, closed, Budget::Inner);
    add_refused(&mut out, held, multipliers, closed, Budget::C0);
    add_refused(&mut out, held, multipliers, closed, Budget::C1);
    add_refused(&mut out, held, multipliers, closed, Budget::C2);
    out
}

// The gains of all steps that were taken.
pub(crate) fn gained_sum<O: Offers>(offers: &O) -> u128
    requires small { upto (O.blocks offers.now) (λ b. gains (O.done offers.now b)) < 2 ^ 90 }
    ensures { result ≡ upto (O.blocks offers.now) (λ b. gains (O.done offers.now b)) }
{
    let mut sum: u128 = 0;
    for block in 0..offers.count() {
        sum += offers.gained(block);
    }
    sum
}
