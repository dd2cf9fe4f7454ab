// Frames in memory whose calls never fail.
use crate::memory_source::MemorySource;
use crate::{Failed, Frames, MemoryFrame, PortFault};
use std::marker::Model;

/// Frames in memory whose calls never fail.
#[derive(Debug, Drop)]
pub struct SteadyFrames {
    memory: MemorySource,
}

impl Model for SteadyFrames {
    ghost use Rattle.cine_ports.specs.Memory.{Steady, known_source, known_reading};

    ghost Value = { Steady };

    ghost view = { λ f. record {
      source = known_source f.memory.files.items f.memory.is_listed;
      reading = known_reading f.memory.files.items f.memory.asked f.memory.is_begun f.memory.at;
      unlisted = f.memory.unlisted;
    } };
}

impl SteadyFrames {
    ghost use Rattle.std.specs.Prelude.{false, ◌≡◌, map};
    ghost use Rattle.cine_ports.specs.Memory.{known_source, nothing_begun};
    ghost use Rattle.cine_ports.specs.Names.{IsNameList};

    /// Frames with these files. None is listed or begun.
    pub fn new(entries: Vec<MemoryFrame>) -> SteadyFrames
        requires { IsNameList (map (λ file. file.name) entries.items) }
        ensures source { result.source ≡ known_source entries.items false }
        ensures reading { result.reading ≡ nothing_begun }
    {
        SteadyFrames {
            memory: MemorySource::new(entries),
        }
    }
}

impl Frames for SteadyFrames {
    ghost use Rattle.std.specs.Prelude.{◌≡◌, false, length, min, Ok, IsOk};

    ghost source = { λ f. f.source };

    ghost reading = { λ f. f.reading };

    ghost has_failed = { λ f. false };

    ghost unlisted = { λ f. f.unlisted };

    ghost list_gives = { λ old new result. IsOk result };

    ghost begin_gives = { λ old new result. IsOk result };

    ghost read_gives = { λ old new len result. result ≡ Ok (min (length old.reading.left) len) };

    fn list(&mut self) -> Result<(), PortFault> {
        self.memory.list();
        Ok(())
    }

    fn count(&self) -> u32 {
        self.memory.count()
    }

    fn name(&self, i: u32) -> &str {
        self.memory.name(i)
    }

    fn begin(&mut self, i: u32) -> Result<(), PortFault> {
        self.memory.begin(i, true);
        Ok(())
    }

    fn read(&mut self, buf: &mut [u8]) -> Result<usize, Failed> {
        Ok(self.memory.read(buf))
    }
}
