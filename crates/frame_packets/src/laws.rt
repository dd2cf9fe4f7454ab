// Laws of the definitions, for the crates above: a call of one of these functions, which do
// nothing, gives the caller its clauses.
ghost use Rattle.std.specs.Prelude.{◌≡◌, ◌+◌, IsTrue, length};
ghost use Rattle.cine_nums.specs.declared.budget.Budget.{Budget};
ghost use Rattle.band_geometry.specs.Bands.{IsBlock};
ghost use Rattle.band_geometry.specs.declared.geometry.Geometry.{Geometry};
ghost use Rattle.band_geometry.specs.declared.places.BlockId.{BlockId};
ghost use Rattle.dz_quantiser.specs.declared.steps.StepSizes.{StepSizes};
ghost use Rattle.budget_duals.specs.Held.{held_in};
ghost use Rattle.budget_duals.specs.Members.{is_in};
ghost use Rattle.profile_reader.specs.Packets.{BlockBytes};
ghost use Rattle.profile_reader.specs.Spell.{spell};
ghost use Rattle.frame_packets.specs.Changes.{AreAlike, AreHeld, IsOther, block_members};
ghost use Rattle.frame_packets.specs.Keeps.{FrameKept, Keeps, frame_held};

/// What another choice for one code-block changes in the byte budgets: one same number of bytes in
/// each of its budgets (`same_change`), and nothing in the others (`elsewhere`). That number
/// depends only on what is written of the blocks that have the same budgets (`depends`). Sums are
/// compared, so that nothing is cut off at 0.
pub fn changes()
    ensures same_change { (g : Geometry) (steps : StepSizes) (given changed : BlockId → BlockBytes)
        (id : BlockId) (i j : Budget) → AreHeld g steps → IsBlock g id →
        IsOther g id given changed →
        IsTrue (is_in (block_members g id) i) → IsTrue (is_in (block_members g id) j) →
        held_in (frame_held g steps changed) i + held_in (frame_held g steps given) j
        ≡ held_in (frame_held g steps changed) j + held_in (frame_held g steps given) i }
    ensures elsewhere { (g : Geometry) (steps : StepSizes) (given changed : BlockId → BlockBytes)
        (id : BlockId) (j : Budget) → AreHeld g steps → IsBlock g id →
        IsOther g id given changed →
        ¬ IsTrue (is_in (block_members g id) j) →
        held_in (frame_held g steps changed) j ≡ held_in (frame_held g steps given) j }
    ensures depends { (g : Geometry) (steps : StepSizes)
        (given changed more more_changed : BlockId → BlockBytes) (id : BlockId) (j : Budget) →
        AreHeld g steps → IsBlock g id → IsOther g id given changed →
        IsOther g id more more_changed → AreAlike g id given more →
        more_changed id ≡ changed id →
        held_in (frame_held g steps more_changed) j + held_in (frame_held g steps given) j
        ≡ held_in (frame_held g steps changed) j + held_in (frame_held g steps more) j }
{}

/// What is kept of a frame depends only on what is written of its code-blocks.
pub fn keeping()
    ensures { (g : Geometry) (steps : StepSizes) (given more : BlockId → BlockBytes)
        (s : FrameKept) → ((b : BlockId) → IsBlock g b → more b ≡ given b) →
        Keeps g steps given s → Keeps g steps more s }
{}

/// What the budget of the whole frame holds is the number of bytes of the codestream.
pub fn codestream()
    ensures { (g : Geometry) (steps : StepSizes) (given : BlockId → BlockBytes) →
        length (spell g steps given) ≡ (frame_held g steps given).frame }
{}
