// Frames in memory of which some calls fail.
use crate::fault_plan::FaultPlan;
use crate::memory_source::MemorySource;
use crate::{Failed, Frames, MemoryFrame, PortFault};
use std::marker::Model;

/// Frames in memory, of which some calls fail, and which are read by pieces.
///
/// The calls of `list`, `begin` and `read` are numbered together from 0. Exactly those whose number
/// is among the failing ones return Failed. None takes memory. A read that doesn't fail gives a
/// whole piece, or what the buffer holds or the file has left where that is less.
#[derive(Debug, Drop)]
pub struct MemoryFrames {
    memory: MemorySource,
    plan: FaultPlan,
}

impl Model for MemoryFrames {
    ghost use Rattle.cine_ports.specs.Memory.{FailingFrames, known_source, known_reading};

    ghost Value = { FailingFrames };

    ghost view = { λ f. record {
      source = known_source f.memory.files.items f.memory.is_listed;
      reading = known_reading f.memory.files.items f.memory.asked f.memory.is_begun f.memory.at;
      unlisted = f.memory.unlisted;
      has_failed = f.plan.has_failed;
      plan = f.plan.plan;
    } };
}

impl MemoryFrames {
    ghost use Rattle.std.specs.Prelude.{false, ◌≡◌, ◌≤◌, map};
    ghost use Rattle.cine_ports.specs.Memory.{known_source, nothing_begun};
    ghost use Rattle.cine_ports.specs.Names.{IsNameList};
    ghost use Rattle.cine_ports.specs.Plan.{first_plan};

    /// Frames with these files. None is listed or begun.
    ///
    /// A read gives at most `piece` bytes.
    pub fn new(entries: Vec<MemoryFrame>, failing: Vec<u32>, piece: u32) -> MemoryFrames
        requires names { IsNameList (map (λ file. file.name) entries.items) }
        requires piece { 1 ≤ piece }
        ensures source { result.source ≡ known_source entries.items false }
        ensures reading { result.reading ≡ nothing_begun }
        ensures working { result.has_failed ≡ false }
        ensures plan { result.plan ≡ first_plan failing.items piece }
    {
        MemoryFrames {
            memory: MemorySource::new(entries),
            plan: FaultPlan::new(failing, piece),
        }
    }
}

impl Frames for MemoryFrames {
    ghost use Rattle.std.specs.Prelude.{◌≡◌, length, min, IsErr, IfOk};
    ghost use Rattle.cine_ports.specs.Plan.{IsNumbered, IsFailed, HasMemory};

    ghost source = { λ f. f.source };

    ghost reading = { λ f. f.reading };

    ghost has_failed = { λ f. f.has_failed };

    ghost unlisted = { λ f. f.unlisted };

    ghost list_gives = { λ old new result.
        IsNumbered old.plan new.plan (IsFailed result) × HasMemory result };

    ghost begin_gives = { λ old new result.
        IsNumbered old.plan new.plan (IsFailed result) × HasMemory result };

    ghost read_gives = { λ old new len result. IsNumbered old.plan new.plan (IsErr result)
        × IfOk result (λ n. n ≡ min (length old.reading.left) (min len old.plan.piece)) };

    fn list(&mut self) -> Result<(), PortFault> {
        self.plan.next_call()?;
        self.memory.list();
        Ok(())
    }

    fn count(&self) -> u32 {
        self.memory.count()
    }

    fn name(&self, i: u32) -> &str {
        self.memory.name(i)
    }

    fn begin(&mut self, i: u32) -> Result<(), PortFault> {
        let planned = self.plan.next_call();
        self.memory.begin(i, planned.is_ok());
        planned?;
        Ok(())
    }

    fn read(&mut self, buf: &mut [u8]) -> Result<usize, Failed> {
        self.plan.next_call()?;
        let most = self.plan.most(buf.len());
        Ok(self.memory.read(&mut buf[..most]))
    }
}
