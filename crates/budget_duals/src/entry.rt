// An entry of the heap: what a block offers.
ghost use Rattle.std.specs.Prelude.{◌≡◌};
ghost use Rattle.budget_duals.specs.Entries.{gain_of, len_of, is_bound};

use crate::Offer;
use std::cmp::Ordering;

/// What a block offers, in the order in which offers are looked at: the steepest is the greatest.
/// Of equal slopes a bound is greater than a step, and then the lower block.
#[derive(Clone, Copy, Debug)]
pub(crate) struct Entry {
    pub block: u32,
    pub offer: Offer,
}

impl Entry {
    fn gain(&self) -> u128
        ensures { result ≡ gain_of self.now.offer }
    {
        match self.offer {
            Offer::Nothing => 0,
            Offer::Step(step) => step.gain,
            Offer::AtMost(slope) => slope.gain,
        }
    }

    fn len(&self) -> u32
        ensures { result ≡ len_of self.now.offer }
    {
        match self.offer {
            Offer::Nothing => 1,
            Offer::Step(step) => step.len,
            Offer::AtMost(slope) => slope.len,
        }
    }

    fn is_bound(&self) -> bool
        ensures { result ≡ is_bound self.now.offer }
    {
        matches!(self.offer, Offer::AtMost(_))
    }
}

impl Ord for Entry {
    ghost use Rattle.std.specs.Prelude.{refl};
    ghost use Rattle.budget_duals.specs.Entries.{entry_cmp};
    ghost use Rattle.budget_duals.specs.EntryLaws.{entry_total};

    ghost cmp = { entry_cmp };

    ghost total = { entry_total };

    ghost matches_partial_cmp = { λ _ _. refl };

    ghost matches_eq = { λ _ _. refl };

    fn cmp(&self, other: &Entry) -> Ordering {
        let mine = self.gain() * other.len() as u128;
        let its = other.gain() * self.len() as u128;
        mine.cmp(&its)
            .then(self.is_bound().cmp(&other.is_bound()))
            .then(other.block.cmp(&self.block))
    }
}

impl PartialOrd for Entry {
    ghost use Rattle.std.specs.Prelude.{refl};
    ghost use Rattle.std.specs.Ordering.{as_partial_cmp};
    ghost use Rattle.std.specs.Cmp.{partial_order_from_agreeing_total};
    ghost use Rattle.budget_duals.specs.Entries.{entry_cmp};
    ghost use Rattle.budget_duals.specs.EntryLaws.{entry_total};

    ghost partial_cmp = { as_partial_cmp entry_cmp };

    ghost laws = { partial_order_from_agreeing_total entry_cmp entry_total (λ _ _. refl)
        (λ _ _. refl) };

    fn partial_cmp(&self, other: &Entry) -> Option<Ordering> {
        Some(self.cmp(other))
    }
}

impl Eq for Entry {
    ghost use Rattle.std.specs.Cmp.{eq_by_cmp_equiv};
    ghost use Rattle.budget_duals.specs.EntryLaws.{entry_total};

    ghost laws = { eq_by_cmp_equiv entry_total };
}

impl PartialEq for Entry {
    ghost use Rattle.std.specs.Ordering.{eq_by_cmp};
    ghost use Rattle.std.specs.Cmp.{eq_by_cmp_equiv, partial_equiv_from_equiv};
    ghost use Rattle.budget_duals.specs.Entries.{entry_cmp};
    ghost use Rattle.budget_duals.specs.EntryLaws.{entry_total};

    ghost eq = { eq_by_cmp entry_cmp };

    ghost laws = { partial_equiv_from_equiv (eq_by_cmp_equiv entry_total) };

    fn eq(&self, other: &Entry) -> bool {
        self.cmp(other).is_eq()
    }
}
