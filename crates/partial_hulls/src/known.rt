// The points that are known of a code-block.
ghost use Rattle.std.specs.Prelude.{◌≤◌};
ghost use Rattle.std.proofs.Props.{props};
ghost use Rattle.rd_hulls.specs.Points.{ArePoints};

use crate::bound::{bound_from, is_steeper};
use crate::least::{least_term, term};
use budget_duals::Offer;
use rd_hulls::{Point, best_step};

/// The points of a code-block's first coding passes, as far as these are coded.
#[derive(Clone, Copy, Debug)]
pub struct KnownPoints<'a> {
    /// The block's number, from 0.
    pub block: u32,
    /// The point of k passes at place k, from no passes on.
    pub points: &'a [Point],
    /// Every ended code of more passes has at least so many bytes, from 1 to 131,072.
    pub low: u32,
    /// Whether these are the points of all passes.
    pub whole: bool,
    pub ghost are: { ArePoints points.now } by { Prim.hlevel props },
    pub ghost some: { 1 ≤ low },
    pub ghost short: { low ≤ 131072 },
}

impl KnownPoints<'_> {
    ghost use Rattle.std.specs.Prelude.{◌≡◌, ◌<◌, ◌^◌, List, length, true, MatchOption};
    ghost use Rattle.allocation_bound.specs.Steps.{Agrees, excess};
    ghost use Rattle.budget_duals.specs.Offers.{IsAtMost, IsOffer};
    ghost use Rattle.partial_hulls.specs.Known.{IsBetween, IsCompletion};
    ghost use Rattle.partial_hulls.specs.Offered.{IsByKnown, NeedsMore};
    ghost use Rattle.rd_hulls.specs.Points.{point_at};
    ghost use Rattle.rd_hulls.specs.declared.point.Point.{Point};
    ghost use Rattle.rd_hulls.specs.declared.step.Step.{Step};

    /// What the block offers when `present` passes are taken, of those whose points are known.
    ///
    /// Where `present` is a corner of the hull over the points of all passes, of which these are
    /// the first, and all passes leave no distortion: the hull's next step, where it is sure;
    /// nothing where there is none; and else the slope of all distortion that is left for the
    /// fewest bytes that a code of more passes can have more. A known step that is only as steep as
    /// this bound isn't sure: of equal slopes the farthest is the corner, and it may not be known.
    pub fn offer(&self, present: u8) -> Offer
        requires { present < length self.now.points.now }
        ensures offer { (all : List Point) (done left : List Step) →
            IsCompletion self.now.points.now self.now.low self.now.whole all →
            IsBetween self.now.block all present done left → IsOffer left result }
        // a bound is offered only where a pass is left to be coded
        ensures more { (all : List Point) (done left : List Step) →
            IsCompletion self.now.points.now self.now.low self.now.whole all →
            IsBetween self.now.block all present done left → self.now.whole ≡ true →
            ¬ IsAtMost result }
        ensures by_known { IsByKnown self.now.points.now self.now.low
            (point_at self.now.points.now present) result }
    {
        let corner = self.points[usize::from(present)];
        if corner.dist == 0 {
            return Offer::Nothing;
        }
        let bound = bound_from(self.low, &corner);
        match best_step(self.block, self.points, &corner) {
            Some(step) => {
                if self.whole || is_steeper(&step, &bound) {
                    Offer::Step(step)
                } else {
                    Offer::AtMost(bound)
                }
            }
            None => Offer::AtMost(bound),
        }
    }

    /// By how much the hull's steps from `present` passes on are above a multiplier (over 2^32)
    /// that lies between them and those before: the sum of what 2^32 times each one's gain has
    /// above its bytes times the multiplier, and nothing where it has less. `None` where further
    /// passes have to be coded to know it, which they never have once the points of all passes are
    /// known.
    pub fn excess(&self, present: u8, multiplier: u128) -> Option<u128>
        requires present { present < length self.now.points.now }
        requires multiplier { multiplier < 2 ^ 96 }
        ensures { MatchOption result
            (NeedsMore self.now.points.now self.now.low self.now.whole multiplier)
            (λ sum. (all : List Point) (done left : List Step) →
            IsCompletion self.now.points.now self.now.low self.now.whole all →
            IsBetween self.now.block all present done left → Agrees multiplier done left →
            sum ≡ excess multiplier left) }
    {
        let least = least_term(self.points, multiplier);
        if !self.whole && multiplier * u128::from(self.low) < least {
            return None;
        }
        Some(term(&self.points[usize::from(present)], multiplier) - least)
    }
}
