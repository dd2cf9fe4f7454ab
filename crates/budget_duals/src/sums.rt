// Sums over blocks and budgets when a walk has ended.
ghost use Rattle.std.specs.Prelude.{ℕ, ◌≡◌, ◌<◌, ◌≤◌, ◌-◌, ◌*◌, ◌^◌, length};
ghost use Rattle.allocation_bound.specs.Budgets.{multiplier};
ghost use Rattle.allocation_bound.specs.Settled.{AreBudgets};
ghost use Rattle.allocation_bound.specs.Steps.{Agrees, excess, lens};
ghost use Rattle.allocation_bound.specs.Sums.{upto};
ghost use Rattle.budget_duals.specs.Sums.{rate_by};
ghost use Rattle.budget_duals.specs.Tree.{IsTree, around_in, limit_at, number_at, closed_by};

use crate::levels::{multiplier_at, rate_at};
use crate::{Holdings, Offers, Tree};
use rd_hulls::Step;

// By how much the steps that blocks have left are above their blocks' sums of multipliers.
pub(crate) fn excess_sum<O: Offers, H: Holdings>(
    tree: &Tree,
    offers: &mut O,
    held: &H,
    closed: &[Option<Step>],
) -> u128
    requires tree { IsTree tree.now }
    requires closed { length closed.now ≡ length tree.now.limits.now }
    requires blocks { length (H.most held.now) ≡ O.blocks offers.old }
    requires inside { (b : ℕ) → b < O.blocks offers.old →
        H.node_of held.now b < length tree.now.limits.now }
    requires agree { (b : ℕ) → b < O.blocks offers.old →
        Agrees (rate_by tree.now closed.now (H.node_of held.now) b) (O.done offers.old b)
        (O.left offers.old b) }
    requires few { upto (O.blocks offers.old) (λ b. lens (O.left offers.old b)) < 2 ^ 64 }
    ensures sum { result ≡ upto (O.blocks offers.old)
        (λ b. excess (rate_by tree.now closed.now (H.node_of held.now) b) (O.left offers.old b)) }
    ensures small { result < 2 ^ 64 }
    ensures blocks { O.blocks offers.new ≡ O.blocks offers.old }
    ensures done { O.done offers.new ≡ O.done offers.old }
    ensures left { O.left offers.new ≡ O.left offers.old }
    ensures keeps { O.stays offers.old offers.new }
{
    let mut sum: u128 = 0;
    for block in 0..offers.count() {
        sum += offers.excess(block, rate_at(tree, held.node(block), closed));
    }
    sum
}

// Puts the multiplier of each budget to its place.
pub(crate) fn set_multipliers(tree: &Tree, closed: &[Option<Step>], out: &mut [u128])
    requires tree { IsTree tree.now }
    requires closed { length closed.now ≡ length tree.now.limits.now }
    requires out { length out.old ≡ length tree.now.limits.now }
    requires few { length tree.now.limits.now ≤ 100 }
    ensures len { length out.new ≡ length out.old }
    ensures each { (j : ℕ) → j < length tree.now.limits.now →
        number_at out.new j ≡ multiplier (around_in tree.now) (closed_by closed.now) j }
{
    for j in 0..out.len() {
        out[j] = multiplier_at(tree, j as u32, closed);
    }
}

// What the unused bytes of budgets are worth at their multipliers.
pub(crate) fn unused_sum<H: Holdings>(tree: &Tree, held: &H, multipliers: &[u128]) -> u128
    requires multipliers { length multipliers.now ≡ length tree.now.limits.now }
    requires few { length tree.now.limits.now ≤ 100 }
    requires limits { (j : ℕ) → j < length tree.now.limits.now → limit_at tree.now j < 2 ^ 25 }
    requires small { (j : ℕ) → j < length tree.now.limits.now →
        number_at multipliers.now j < 2 ^ 96 }
    ensures sum { result ≡ upto (length tree.now.limits.now)
        (λ j. number_at multipliers.now j *
        (limit_at tree.now j - H.held_by held.now (H.chosen held.now) j)) }
    ensures small { result ≤ 100 * 2 ^ 121 }
{
    let mut sum: u128 = 0;
    for j in 0..multipliers.len() {
        let unused = tree.limits[j].saturating_sub(held.held_now(j as u32));
        sum += multipliers[j] * unused as u128;
    }
    sum
}
