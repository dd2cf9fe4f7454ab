// The order of steps.
use crate::Step;
use std::cmp::Ordering;

impl Ord for Step {
    ghost use Rattle.rd_hulls.specs.Order.{step_cmp};
    ghost use Rattle.rd_hulls.specs.OrderLaws.{step_total, step_ties};
    ghost use Rattle.std.proofs.Common.{rules};
    ghost use Rattle.std.specs.Cmp.Rules.{comparing};

    ghost cmp = { step_cmp };

    ghost total = { step_total };

    ghost matches_partial_cmp = { Prim.search (comparing, rules) };

    ghost matches_eq = { step_ties };

    /// The steeper step comes first. Of equal slopes the lower block comes first, then the lower
    /// `from`, `to`, `len` and `gain`. Slopes are compared by cross products, below 2^81.
    fn cmp(&self, other: &Step) -> Ordering {
        let mine = self.gain * u128::from(other.len);
        let its = other.gain * u128::from(self.len);
        its.cmp(&mine).then(
            self.block.cmp(&other.block).then(
                self.from.cmp(&other.from).then(
                    self.to
                        .cmp(&other.to)
                        .then(self.len.cmp(&other.len).then(self.gain.cmp(&other.gain))),
                ),
            ),
        )
    }
}

impl PartialOrd for Step {
    ghost use Rattle.rd_hulls.specs.Order.{step_cmp};
    ghost use Rattle.rd_hulls.specs.OrderLaws.{step_total, step_ties};
    ghost use Rattle.std.specs.Ordering.{as_partial_cmp};
    ghost use Rattle.std.specs.Cmp.{partial_order_from_agreeing_total};
    ghost use Rattle.std.specs.Prelude.{refl};

    ghost partial_cmp = { as_partial_cmp step_cmp };

    ghost laws = { partial_order_from_agreeing_total step_cmp step_total (λ _ _. refl) step_ties };

    fn partial_cmp(&self, other: &Step) -> Option<Ordering> {
        Some(self.cmp(other))
    }
}
