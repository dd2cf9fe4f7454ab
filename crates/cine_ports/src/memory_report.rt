// A report in memory of which some calls fail.
use crate::fault_plan::FaultPlan;
use crate::{PortFault, Report};
use std::alloc::Global;
use std::marker::Model;

/// A report in memory, of which some calls fail, and which takes pieces.
///
/// The calls of `write` are numbered from 0. Exactly those whose number is among the failing ones
/// return Failed. A write without an error takes a whole piece, or all that it is given where that
/// is shorter.
#[derive(Debug, Drop)]
pub struct MemoryReport {
    bytes: Vec<u8>,
    plan: FaultPlan,
}

impl Model for MemoryReport {
    ghost use Rattle.cine_ports.specs.Memory.{FailingReport};

    ghost Value = { FailingReport };

    ghost view = { λ r. record {
      said = r.bytes.items;
      has_failed = r.plan.has_failed;
      plan = r.plan.plan;
    } };
}

impl MemoryReport {
    ghost use Rattle.std.specs.Prelude.{[], ◌≡◌, ◌≤◌, false};
    ghost use Rattle.cine_ports.specs.Plan.{first_plan};

    /// A report to which nothing was written. This takes no memory.
    ///
    /// A write takes at most `piece` bytes.
    pub fn new(alloc: Global, failing: Vec<u32>, piece: u32) -> MemoryReport
        requires { 1 ≤ piece }
        ensures said { result.said ≡ [] }
        ensures working { result.has_failed ≡ false }
        ensures plan { result.plan ≡ first_plan failing.items piece }
    {
        MemoryReport {
            bytes: Vec::new(alloc),
            plan: FaultPlan::new(failing, piece),
        }
    }

    /// The bytes that were written.
    pub fn bytes(&self) -> &[u8]
        ensures { result.now ≡ self.now.said }
    {
        self.bytes.as_slice()
    }
}

impl Report for MemoryReport {
    ghost use Rattle.std.specs.Prelude.{◌≡◌, Some, length, min, IfOk};
    ghost use Rattle.cine_ports.specs.Plan.{IsNumbered, IsFailed};

    ghost said = { λ r. Some r.said };

    ghost has_failed = { λ r. r.has_failed };

    ghost write_gives = { λ old new piece result. IsNumbered old.plan new.plan (IsFailed result)
        × IfOk result (λ n. n ≡ min (length piece) old.plan.piece) };

    fn write(&mut self, piece: &[u8]) -> Result<usize, PortFault> {
        self.plan.next_call()?;
        let n = self.plan.most(piece.len());
        self.bytes.extend_from_slice(&piece[..n])?;
        Ok(n)
    }
}
