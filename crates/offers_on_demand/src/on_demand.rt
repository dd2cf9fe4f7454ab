// Offers of blocks whose passes are coded on demand.
ghost use Rattle.std.specs.Prelude.{ℕ, ◌≡◌, ◌<◌, [], IfOk, length};
ghost use Rattle.rd_hulls.specs.Hull.{IsHull, end_of};
ghost use Rattle.offers_on_demand.specs.Hulls.{hull_steps};
ghost use Rattle.offers_on_demand.specs.RowLaws.{rows_prop};
ghost use Rattle.offers_on_demand.specs.Rows.{AreRows};

use crate::known::excess_coding_on;
use crate::rows::{first_rows, renew};
use crate::{DemandRow, Passes};
use budget_duals::{Offer, Offers};
use rd_hulls::Step;
use std::alloc::{AllocError, Global};

/// Code-blocks that offer the steps of the hulls over all their passes one after the other, while
/// their passes are coded only as far as the offers ask for it.
#[derive(Drop)]
pub struct OnDemand<P: Passes + Drop> {
    passes: P,
    rows: Vec<DemandRow>,
    ghost rows_are: { AreRows (P.blocks passes) (P.known passes) (P.whole passes)
        (λ b. hull_steps b (P.all passes b)) rows.items } by { rows_prop (P.blocks passes)
            (P.known passes) (P.whole passes) (λ b. hull_steps b (P.all passes b)) rows.items },
}

impl<P: Passes + Drop> OnDemand<P> {
    /// Blocks of which no step is taken. The only refusal is out of memory.
    pub fn new(alloc: Global, passes: P) -> Result<OnDemand<P>, AllocError>
        ensures passes { IfOk result (λ o. o.passes ≡ passes) }
        ensures blocks { IfOk result
            (λ o. ⟦<OnDemand<P> as Offers>⟧.blocks o ≡ P.blocks passes) }
        ensures done { IfOk result (λ o. (b : ℕ) → b < P.blocks passes →
            ⟦<OnDemand<P> as Offers>⟧.done o b ≡ []) }
        ensures left { IfOk result (λ o. (b : ℕ) → b < P.blocks passes →
            IsHull b (P.all passes b) (⟦<OnDemand<P> as Offers>⟧.left o b)) }
    {
        let rows = first_rows(alloc, &passes)?;
        Ok(OnDemand { passes, rows })
    }

    /// The blocks, as far as they are coded.
    pub fn passes(&self) -> &P
        ensures { result.now ≡ self.now.passes }
    {
        &self.passes
    }

    /// The blocks, as far as they are coded: of each the passes that its taken steps lead to, at
    /// the least.
    pub fn into_passes(self) -> P
        ensures same { result ≡ self.passes }
        ensures coded { (b : ℕ) → b < P.blocks self.passes →
            end_of 0 (⟦<OnDemand<P> as Offers>⟧.done self b) < length (P.known result b) }
    {
        let OnDemand { passes, .. } = self;
        passes
    }

    /// How many passes of a block are taken, where its steps that were taken end. They are coded.
    pub fn present(&self, block: u32) -> u8
        requires { block < P.blocks self.now.passes }
        ensures ended { result ≡ end_of 0 (⟦<OnDemand<P> as Offers>⟧.done self.now block) }
        ensures known { result < length (P.known self.now.passes block) }
    {
        self.rows[block as usize].present
    }
}

impl<P: Passes + Drop> Offers for OnDemand<P> {
    ghost use Rattle.offers_on_demand.specs.RowLaws.{true_at, own_at};
    ghost use Rattle.offers_on_demand.specs.Rows.{done_of, left_of, row_at};
    ghost use Rattle.std.specs.Prelude.{◌-◌, length};

    ghost blocks = { λ o. P.blocks o.passes };

    ghost done = { λ o b. done_of (λ k. hull_steps k (P.all o.passes k)) o.rows.items b };

    ghost left = { λ o b. left_of (λ k. hull_steps k (P.all o.passes k)) o.rows.items b };

    ghost unknown = { λ o b. length (P.all o.passes b) - length (P.known o.passes b) };

    ghost offered = { λ o b. (row_at o.rows.items b).offer };

    ghost stays = { λ o p. P.stays o.passes p.passes };

    ghost stays_itself = { λ o. P.stays_itself o.passes };

    ghost stays_on = { λ o p q. P.stays_on o.passes p.passes q.passes };

    ghost true_offers = { λ o b. true_at (P.blocks o.passes) (P.known o.passes) (P.whole o.passes)
        (λ k. hull_steps k (P.all o.passes k)) o.rows.items b o.rows_are };

    ghost own_steps = { λ o b below. own_at (P.all o.passes) o.rows.items b
        (P.completes o.passes b below).are };

    fn count(&self) -> u32 {
        self.passes.count()
    }

    fn offer(&self, block: u32) -> Offer {
        self.rows[block as usize].offer
    }

    fn look(&mut self, block: u32) {
        let row = self.rows[block as usize];
        if let Offer::AtMost(_) = row.offer {
            self.passes.code_more(block);
            renew(&self.passes, &mut self.rows, block, row.present, row.taken);
        }
    }

    fn take(&mut self, step: &Step) {
        let row = self.rows[step.block as usize];
        let taken = row.taken + 1;
        renew(&self.passes, &mut self.rows, step.block, step.to, taken);
    }

    fn gained(&self, block: u32) -> u128 {
        let points = self.passes.points(block);
        let present = self.rows[block as usize].present;
        points[0].dist - points[usize::from(present)].dist
    }

    fn excess(&mut self, block: u32, multiplier: u128) -> u128 {
        let row = self.rows[block as usize];
        let excess = excess_coding_on(&mut self.passes, block, row.present, multiplier);
        renew(&self.passes, &mut self.rows, block, row.present, row.taken);
        excess
    }
}
