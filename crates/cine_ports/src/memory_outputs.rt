// Outputs in memory of which some calls fail.
use crate::fault_plan::FaultPlan;
use crate::{MemoryFrame, Outputs, PortFault};
use std::alloc::Global;
use std::marker::Model;

/// Outputs in memory, of which some calls fail, and which take pieces.
///
/// The calls of `begin`, `write` and `finish` are numbered together from 0. Exactly those whose
/// number is among the failing ones return Failed. A write without an error takes a whole piece, or
/// all that it is given where that is shorter. `begin` makes the room that `finish` needs, so that
/// `finish` takes no memory.
#[derive(Debug, Drop)]
pub struct MemoryOutputs {
    alloc: Global,
    finished: Vec<MemoryFrame>,
    unfinished: Option<MemoryFrame>,
    plan: FaultPlan,
}

impl Model for MemoryOutputs {
    ghost use Rattle.std.specs.Prelude.{◌<◌, IsSome, vec_len, vec_capacity};
    ghost use Rattle.cine_ports.specs.Memory.{FailingOutputs};

    ghost Value = { FailingOutputs };

    ghost view = { λ o. record {
      kept = record { finished = o.finished.items; unfinished = o.unfinished };
      has_failed = o.plan.has_failed;
      plan = o.plan.plan;
    } };

    ghost invariant = { λ o. IsSome o.unfinished → vec_len o.finished < vec_capacity o.finished };
}

impl MemoryOutputs {
    ghost use Rattle.std.specs.Prelude.{◌≡◌, ◌≤◌, false, option_copied};
    ghost use Rattle.cine_ports.specs.Outputs.{kept_nothing};
    ghost use Rattle.cine_ports.specs.Plan.{first_plan};

    /// Outputs of which nothing is finished or unfinished. This takes no memory.
    ///
    /// A write takes at most `piece` bytes.
    pub fn new(alloc: Global, failing: Vec<u32>, piece: u32) -> MemoryOutputs
        requires { 1 ≤ piece }
        ensures kept { result.kept ≡ kept_nothing }
        ensures working { result.has_failed ≡ false }
        ensures plan { result.plan ≡ first_plan failing.items piece }
    {
        MemoryOutputs {
            alloc,
            finished: Vec::new(alloc),
            unfinished: None,
            plan: FaultPlan::new(failing, piece),
        }
    }

    /// The finished files, in the order in which they were finished.
    pub fn files(&self) -> &[MemoryFrame]
        ensures { result.now ≡ self.now.kept.finished }
    {
        self.finished.as_slice()
    }

    /// The unfinished file, where there is one.
    pub fn unfinished(&self) -> Option<&MemoryFrame>
        ensures { option_copied result ≡ self.now.kept.unfinished }
    {
        self.unfinished.as_ref()
    }
}

impl Outputs for MemoryOutputs {
    ghost use Rattle.std.specs.Prelude.{◌≡◌, Some, is_some, refl, length, min, IfOk};
    ghost use Rattle.cine_ports.specs.Plan.{IsNumbered, IsFailed, HasMemory};

    ghost kept = { λ o. Some o.kept };

    ghost is_open = { λ o. is_some o.kept.unfinished };

    ghost has_failed = { λ o. o.has_failed };

    ghost begin_gives = { λ old new result. IsNumbered old.plan new.plan (IsFailed result) };

    ghost write_gives = { λ old new piece result. IsNumbered old.plan new.plan (IsFailed result)
        × IfOk result (λ n. n ≡ min (length piece) old.plan.piece) };

    ghost finish_gives = { λ old new result.
        IsNumbered old.plan new.plan (IsFailed result) × HasMemory result };

    ghost open_known = { λ o. refl };

    fn begin(&mut self, name: &str) -> Result<(), PortFault> {
        self.plan.next_call()?;
        self.finished.reserve(1)?;
        self.unfinished = Some(MemoryFrame {
            name: String::from_str(self.alloc, name)?,
            bytes: Vec::new(self.alloc),
        });
        Ok(())
    }

    fn write(&mut self, piece: &[u8]) -> Result<usize, PortFault> {
        self.plan.next_call()?;
        let n = self.plan.most(piece.len());
        if let Some(file) = &mut self.unfinished {
            file.append(&piece[..n])?;
        }
        Ok(n)
    }

    fn finish(&mut self) -> Result<(), PortFault> {
        self.plan.next_call()?;
        if let Some(file) = self.unfinished.take() {
            self.finished.push_reserved(file);
        }
        Ok(())
    }
}
