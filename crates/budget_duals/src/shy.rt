// Two blocks, of which the first bounds its first step before it offers it, for tests.
ghost use Rattle.std.specs.Prelude.{◌≡◌, ◌<◌, length};
ghost use Rattle.budget_duals.specs.Shy.{is_shy, veil};

use crate::{ListedOffers, Offer, Offers, Slope};
use rd_hulls::Step;

/// Blocks whose steps stand in lists. Where `shy`, the first one offers a bound on its next step.
#[derive(Debug, Drop)]
pub(crate) struct Shy {
    pub inner: ListedOffers,
    pub top: Slope,
    pub shy: bool,
    pub ghost steep: { top.gain ≡ 18446744073709551615 },
    pub ghost short: { top.len ≡ 1 },
}

impl Offers for Shy {
    ghost use Rattle.std.specs.Prelude.{length, map, ◌≡◌, refl};
    ghost use Rattle.std.proofs.Common.{◌∙◌};
    ghost use Rattle.budget_duals.specs.Listed.{done_at, left_at, offer_at};
    ghost use Rattle.budget_duals.specs.ListedLaws.{own_at};
    ghost use Rattle.budget_duals.specs.Shy.{is_shy, veil, shy_unknown};
    ghost use Rattle.budget_duals.specs.ShyLaws.{veiled_at};

    ghost blocks = { λ o. length o.inner.places.items };

    ghost done = { λ o b. done_at (map (λ v. v.items) o.inner.rows.items) o.inner.places.items b };

    ghost left = { λ o b. left_at (map (λ v. v.items) o.inner.rows.items) o.inner.places.items b };

    ghost unknown = { λ o b. shy_unknown o.shy b };

    ghost offered = { λ o b. veil o.top (is_shy o.shy b)
        (offer_at (map (λ v. v.items) o.inner.rows.items) o.inner.places.items b) };

    ghost stays = { λ o p. p.inner.rows.items ≡ o.inner.rows.items };

    ghost stays_itself = { λ o. refl };

    ghost stays_on = { λ o p q e f. f ∙ e };

    ghost true_offers = { λ o b below. veiled_at o.top o.steep o.short (is_shy o.shy b)
        (map (λ v. v.items) o.inner.rows.items) o.inner.places.items b };

    ghost own_steps = { λ o b below. own_at (map (λ v. v.items) o.inner.rows.items)
        o.inner.places.items b o.inner.listed below };

    fn count(&self) -> u32 {
        self.inner.count()
    }

    fn offer(&self, block: u32) -> Offer {
        let offer = self.inner.offer(block);
        match offer {
            Offer::Step(_) => {
                if self.shy && block == 0 {
                    Offer::AtMost(self.top)
                } else {
                    offer
                }
            }
            _ => offer,
        }
    }

    fn look(&mut self, block: u32) {
        if block == 0 {
            self.shy = false;
        }
    }

    fn gained(&self, block: u32) -> u128 {
        self.inner.gained(block)
    }

    fn take(&mut self, step: &Step) {
        self.inner.take(step);
    }

    fn excess(&mut self, block: u32, multiplier: u128) -> u128 {
        self.inner.excess(block, multiplier)
    }
}
