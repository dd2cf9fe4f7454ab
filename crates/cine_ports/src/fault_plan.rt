// Calls that are to fail, and pieces that they move.
use crate::Failed;
use std::marker::Model;

/// Which calls of an object in memory fail, by their numbers from 0, how many there were, how many
/// bytes one call moves at most, and whether a call has failed.
#[derive(Debug, Drop)]
pub(crate) struct FaultPlan {
    failing: Vec<u32>,
    calls: u64,
    piece: u32,
    has_failed: bool,
}

impl Model for FaultPlan {
    ghost use Rattle.std.specs.Prelude.{◌≤◌};
    ghost use Rattle.cine_ports.specs.Plan.{RunningPlan};

    ghost Value = { RunningPlan };

    ghost view = { λ p. record {
      plan = record { failing = p.failing.items; calls = p.calls; piece = p.piece };
      has_failed = p.has_failed;
    } };

    ghost invariant = { λ p. 1 ≤ p.piece };
}

impl FaultPlan {
    ghost use Rattle.std.specs.Prelude.{◌≡◌, ◌<◌, ◌≤◌, false, is_err, min, IsErr};
    ghost use Rattle.cine_ports.specs.Plan.{first_plan, IsNumbered};

    pub(crate) fn new(failing: Vec<u32>, piece: u32) -> FaultPlan
        requires { 1 ≤ piece }
        ensures plan { result.plan ≡ first_plan failing.items piece }
        ensures working { result.has_failed ≡ false }
    {
        FaultPlan {
            failing,
            calls: 0,
            piece,
            has_failed: false,
        }
    }

    /// Numbers a call, and returns whether it fails.
    pub(crate) fn next_call(&mut self) -> Result<(), Failed>
        requires { self.old.has_failed ≡ false }
        ensures numbered { IsNumbered self.old.plan self.new.plan (IsErr result) }
        ensures failed { self.new.has_failed ≡ is_err result }
    {
        let call = self.calls;
        self.calls = call.saturating_add(1);
        if self.failing.iter().any(|n| u64::from(*n) == call) {
            self.has_failed = true;
            return Err(Failed);
        }
        Ok(())
    }

    /// How many of so many bytes one call moves.
    pub(crate) fn most(&self, len: usize) -> usize
        ensures value { result ≡ min len self.now.plan.piece }
        ensures some { 0 < len → 0 < result }
    {
        len.min(self.piece as usize)
    }
}
