// Laws of the definitions, for the crates above: a call of one of these functions does nothing, and
// gives the caller its clause.
ghost use Rattle.std.specs.Prelude.{ℕ, ◌≡◌, ◌<◌, List, [], None};
ghost use Rattle.rd_hulls.specs.declared.step.Step.{Step};
ghost use Rattle.allocation_bound.specs.Settled.{Budgets, AreBudgets, Outcome, IsSettled, nearest};
ghost use Rattle.allocation_bound.specs.Walk.{Stands, Takes, Closes, IsStart};
ghost use Rattle.allocation_bound.specs.Laws.{AreSteps, HasCertificate};
ghost use Rattle.allocation_bound.specs.Passes.{HaveTerms, HasPassCertificate};
ghost use Rattle.rd_hulls.specs.declared.point.Point.{Point};

/// A walk that begins stands with some step as the front.
pub fn starting()
    ensures { (w : Budgets) (steps : ℕ → List Step) (o : Outcome) → IsStart w steps o
        → (front : Step) × Stands w steps front o }
{}

/// Taking a step keeps what stands between moves, with that step as the front.
pub fn taking()
    ensures { (w : Budgets) (steps : ℕ → List Step) (front : Step) (o : Outcome) (s : Step)
        (rest : List Step) (n : Outcome)
        → AreBudgets w → Stands w steps front o → Takes w o s rest n → Stands w steps s n }
{}

/// So does closing a budget that the step would break.
pub fn closing()
    ensures { (w : Budgets) (steps : ℕ → List Step) (front : Step) (o : Outcome) (s : Step)
        (rest : List Step) (j : ℕ) (n : Outcome)
        → AreBudgets w → Stands w steps front o → Closes w o s rest j n → Stands w steps s n }
{}

/// Where no open block has a step left, the walk has settled.
pub fn settling()
    ensures { (w : Budgets) (steps : ℕ → List Step) (front : Step) (o : Outcome) →
        Stands w steps front o
        → ((b : ℕ) → b < w.blocks → nearest w o b ≡ None → o.left b ≡ []) → IsSettled w steps o }
{}

/// What a settled walk leaves has a gap, which bounds rivals and which the prices of its refused
/// steps bound.
pub fn certificate()
    ensures { (w : Budgets) (steps : ℕ → List Step) (o : Outcome)
        → AreBudgets w → AreSteps w.blocks steps → IsSettled w steps o → HasCertificate w steps o }
{}

/// The same over all pass counts of all blocks, for the hulls of their points.
pub fn pass_certificate()
    ensures { (w : Budgets) (steps : ℕ → List Step) (o : Outcome) (points : ℕ → List Point)
        (least : ℕ → ℕ)
        → AreBudgets w → IsSettled w steps o → HaveTerms w steps o points least
        → HasPassCertificate w steps o points least }
{}
