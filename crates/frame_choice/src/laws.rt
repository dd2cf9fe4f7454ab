// Laws of the definitions, for the crates above: a call of one of these functions, which do
// nothing, gives the caller its clauses.
ghost use Rattle.std.specs.Prelude.{ℕ, ◌≡◌, ◌+◌, ◌↔◌, List};
ghost use Rattle.cine_nums.specs.declared.budget.Budget.{Budget};
ghost use Rattle.band_geometry.specs.declared.geometry.Geometry.{Geometry};
ghost use Rattle.budget_duals.specs.Held.{held_in};
ghost use Rattle.budget_duals.specs.declared.limits.Limits.{Limits};
ghost use Rattle.dz_quantiser.specs.declared.steps.StepSizes.{StepSizes};
ghost use Rattle.frame_packets.specs.Changes.{AreHeld};
ghost use Rattle.profile_reader.specs.Chosen.{Planes};
ghost use Rattle.frame_choice.specs.Choice.{FitsBesideHeaders, body_bytes, held_at};
ghost use Rattle.frame_choice.specs.Headers.{FitsWithHeaders, headers_at};

/// What a budget holds of the codestream of a choice of passes is what its headers hold and the
/// choice's body bytes, together, in bytes (`held`). So a rival fits beside the headers written for
/// a choice exactly if in each budget with a limit its body bytes and those headers are together at
/// most the limit (`fits`). The frame has the levels of its profile, and one step a band.
pub fn headers_and_bodies()
    ensures held { (g : Geometry) (steps : StepSizes) (planes : Planes) (choice : List ℕ)
        (j : Budget) → AreHeld g steps →
        held_in (held_at g steps planes choice) j
        ≡ held_in (headers_at g steps planes choice) j + body_bytes g steps planes choice j }
    ensures fits { (g : Geometry) (steps : StepSizes) (planes : Planes) (limits : Limits)
        (choice rival : List ℕ) → AreHeld g steps →
        FitsBesideHeaders g steps planes limits choice rival
        ↔ FitsWithHeaders g steps planes limits choice rival }
{}
