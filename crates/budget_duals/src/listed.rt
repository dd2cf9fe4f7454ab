// Offers over whole lists of steps.
ghost use Rattle.std.specs.Prelude.{ℕ, ◌≡◌, ◌==◌, ◌<◌, ◌≤◌, ◌+◌, ◌*◌, ◌^◌, [], List, length, map};
ghost use Rattle.std.specs.Prelude.{slice_index, slice_index_or, IfOk, OnOk};
ghost use Rattle.std.specs.List.{AllByRecursion};
ghost use Rattle.std.proofs.Props.{props};
ghost use Rattle.rd_hulls.specs.declared.step.Step.{Step};
ghost use Rattle.allocation_bound.specs.Steps.{Agrees, excess, gains, scale};
ghost use Rattle.budget_duals.specs.Listed.{AreRows, list_at, done_at, left_at, offer_of, offer_at};
ghost use Rattle.budget_duals.specs.Listed.{steps_of};

use crate::{Offer, Offers};
use rd_hulls::Step;
use std::alloc::{AllocError, Global};

// By how much steps are above a multiplier.
fn excess_over(steps: &[Step], multiplier: u128) -> u128
    requires few { length steps.now < 2 ^ 32 }
    requires multiplier { multiplier < 2 ^ 96 }
    requires untaken { AllByRecursion (λ (s : Step). scale * s.gain < (multiplier + 1) * s.len)
        steps.now }
    ensures { result ≡ excess multiplier steps.now }
{
    let mut sum: u128 = 0;
    for step in steps {
        sum += (0x1_0000_0000 * step.gain).saturating_sub(multiplier * step.len as u128);
    }
    sum
}

// The sum of the gains of steps.
fn gains_of(steps: &[Step]) -> u128
    requires small { gains steps.now < 2 ^ 90 }
    ensures { result ≡ gains steps.now }
{
    let mut sum: u128 = 0;
    for step in steps {
        sum += step.gain;
    }
    sum
}

/// Blocks whose steps stand in lists, one a block: each offers a step or nothing.
#[derive(Debug, Drop)]
pub struct ListedOffers {
    rows: Vec<Vec<Step>>,
    places: Vec<usize>,
    ghost listed: { AreRows (map (λ v. v.items) rows.items) places.items } by { Prim.hlevel props },
}

// So many lists of no steps.
fn empty_rows(alloc: Global, blocks: u32) -> Result<Vec<Vec<Step>>, AllocError>
    ensures many { IfOk result (λ v. length (map (λ row. row.items) v.items) ≡ blocks) }
    ensures none { IfOk result (λ v. (b : ℕ) → list_at (map (λ row. row.items) v.items) b ≡ []) }
{
    let mut rows = Vec::new(alloc);
    for _ in 0..blocks {
        rows.push(Vec::new(alloc))?;
    }
    Ok(rows)
}

// Puts each step to those of its block.
fn fill_rows(rows: &mut Vec<Vec<Step>>, steps: &[Step]) -> Result<(), AllocError>
    requires blocks { AllByRecursion (λ s. s.block < length (map (λ row. row.items) rows.old.items))
        steps.now }
    requires none { (b : ℕ) → list_at (map (λ row. row.items) rows.old.items) b ≡ [] }
    ensures many { length (map (λ row. row.items) rows.new.items)
        ≡ length (map (λ row. row.items) rows.old.items) }
    ensures filled { OnOk result ((b : ℕ) → b < length (map (λ row. row.items) rows.old.items) →
        list_at (map (λ row. row.items) rows.new.items) b ≡ steps_of b steps.now) }
{
    for step in steps {
        rows[step.block as usize].push(*step)?;
    }
    Ok(())
}

impl ListedOffers {
    /// The steps of so many blocks from one list, in which those of each block stand in their
    /// order. None is taken.
    pub fn of_list(alloc: Global, blocks: u32, steps: &[Step]) -> Result<ListedOffers, AllocError>
        requires few { length steps.now < 2 ^ 32 }
        requires blocks { AllByRecursion (λ s. s.block < blocks) steps.now }
        ensures blocks { IfOk result (λ o. ⟦<ListedOffers as Offers>⟧.blocks o ≡ blocks) }
        ensures done { IfOk result
            (λ o. (b : ℕ) → b < blocks → ⟦<ListedOffers as Offers>⟧.done o b ≡ []) }
        ensures left { IfOk result (λ o. (b : ℕ) →
            ⟦<ListedOffers as Offers>⟧.left o b ≡ steps_of b steps.now) }
    {
        let mut rows = empty_rows(alloc, blocks)?;
        fill_rows(&mut rows, steps)?;
        let places = vec![in alloc; 0usize; rows.len()]?;
        Ok(ListedOffers { rows, places })
    }
}

impl Offers for ListedOffers {
    ghost use Rattle.std.specs.Prelude.{length, map, ◌≡◌, refl};
    ghost use Rattle.std.proofs.Common.{◌∙◌};
    ghost use Rattle.budget_duals.specs.Listed.{done_at, left_at, offer_at};
    ghost use Rattle.budget_duals.specs.ListedLaws.{true_at, own_at};

    ghost blocks = { λ o. length o.places.items };

    ghost done = { λ o b. done_at (map (λ v. v.items) o.rows.items) o.places.items b };

    ghost left = { λ o b. left_at (map (λ v. v.items) o.rows.items) o.places.items b };

    ghost unknown = { λ o b. 0 };

    ghost offered = { λ o b. offer_at (map (λ v. v.items) o.rows.items) o.places.items b };

    ghost stays = { λ o p. p.rows.items ≡ o.rows.items };

    ghost stays_itself = { λ o. refl };

    ghost stays_on = { λ o p q e f. f ∙ e };

    ghost true_offers = { λ o b below. true_at (map (λ v. v.items) o.rows.items) o.places.items b };

    ghost own_steps = { λ o b below. own_at (map (λ v. v.items) o.rows.items) o.places.items b
        o.listed below };

    fn count(&self) -> u32 {
        self.places.len() as u32
    }

    fn offer(&self, block: u32) -> Offer {
        let place = self.places[block as usize];
        match self.rows[block as usize].get(place) {
            Some(step) => Offer::Step(*step),
            None => Offer::Nothing,
        }
    }

    fn look(&mut self, block: u32) {}

    fn take(&mut self, step: &Step) {
        self.places[step.block as usize] += 1;
    }

    fn gained(&self, block: u32) -> u128 {
        gains_of(&self.rows[block as usize][..self.places[block as usize]])
    }

    fn excess(&mut self, block: u32, multiplier: u128) -> u128 {
        let place = self.places[block as usize];
        excess_over(&self.rows[block as usize][place..], multiplier)
    }
}
