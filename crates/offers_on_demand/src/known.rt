// What a block offers by the points that are known of it.
ghost use Rattle.std.specs.Prelude.{ℕ, ◌≡◌, ◌≢◌, ◌<◌, ◌≤◌, ◌-◌, ◌^◌, List, length, false, true};
ghost use Rattle.std.specs.Prelude.{MatchOption};
ghost use Rattle.allocation_bound.specs.Steps.{Agrees, excess};
ghost use Rattle.budget_duals.specs.Offers.{IsAtMost, IsOffer};
ghost use Rattle.budget_duals.specs.declared.offer.Offer.{Offer};
ghost use Rattle.partial_hulls.specs.Known.{IsBetween};
ghost use Rattle.rd_hulls.specs.declared.step.Step.{Step};

use crate::Passes;
use budget_duals::Offer;
use partial_hulls::KnownPoints;

// What a block offers when so many passes are taken.
pub(crate) fn offer_now<P: Passes>(passes: &P, block: u32, present: u8) -> Offer
    requires block { block < P.blocks passes.now }
    requires present { present < length (P.known passes.now block) }
    ensures offer { (done left : List Step) →
        IsBetween block (P.all passes.now block) present done left → IsOffer left result }
    ensures more { (done left : List Step) →
        IsBetween block (P.all passes.now block) present done left →
        P.whole passes.now block ≡ true → ¬ IsAtMost result }
    ensures to_known { (s : Step) → result ≡ Offer.Step s →
        s.to < length (P.known passes.now block) }
{
    let points = passes.points(block);
    let known = KnownPoints {
        block,
        points: points.as_slice(),
        low: passes.least_bytes(block),
        whole: passes.is_whole(block),
    };
    known.offer(present)
}

// By how much the steps from so many passes on are above a multiplier, and `None` where more passes
// have to be coded to know it.
fn excess_now<P: Passes>(passes: &P, block: u32, present: u8, multiplier: u128) -> Option<u128>
    requires block { block < P.blocks passes.now }
    requires present { present < length (P.known passes.now block) }
    requires multiplier { multiplier < 2 ^ 96 }
    ensures { MatchOption result (P.whole passes.now block ≡ false)
        (λ sum. (done left : List Step) →
        IsBetween block (P.all passes.now block) present done left → Agrees multiplier done left →
        sum ≡ excess multiplier left) }
{
    let points = passes.points(block);
    let known = KnownPoints {
        block,
        points: points.as_slice(),
        low: passes.least_bytes(block),
        whole: passes.is_whole(block),
    };
    known.excess(present, multiplier)
}

// The same, with as many passes coded as it takes.
pub(crate) fn excess_coding_on<P: Passes>(
    passes: &mut P,
    block: u32,
    present: u8,
    multiplier: u128,
) -> u128
    requires block { block < P.blocks passes.old }
    requires present { present < length (P.known passes.old block) }
    requires multiplier { multiplier < 2 ^ 96 }
    ensures excess { (done left : List Step) →
        IsBetween block (P.all passes.old block) present done left → Agrees multiplier done left →
        result ≡ excess multiplier left }
    ensures blocks { P.blocks passes.new ≡ P.blocks passes.old }
    ensures all { P.all passes.new ≡ P.all passes.old }
    ensures grows { length (P.known passes.old block) ≤ length (P.known passes.new block) }
    ensures others { (k : ℕ) → k ≢ block → P.known passes.new k ≡ P.known passes.old k }
    ensures whole_others { (k : ℕ) → k ≢ block → P.whole passes.new k ≡ P.whole passes.old k }
    ensures stays { P.stays passes.old passes.new }
{
    loop {
        match excess_now(passes, block, present, multiplier) {
            Some(sum) => return sum,
            None => passes.code_more(block),
        }
    }
}
