// The report that is standard output.
use crate::failure_mark::FailureMark;
use crate::interrupted::print_once;
use cine_ports::{PortFault, Report};
use std::io::Print;

/// Standard output. Each piece goes straight to it: nothing is held back.
#[derive(Drop)]
pub struct StdoutReport<R: Print + Drop> {
    rt: R,
    pub(crate) mark: FailureMark,
}

impl<R: Print + Drop> StdoutReport<R> {
    ghost use Rattle.std.specs.Prelude.{◌≡◌, false};

    /// The report to which nothing was written yet.
    pub fn new(rt: R) -> StdoutReport<R>
        ensures { result.mark.has_failed ≡ false }
    {
        StdoutReport {
            rt,
            mark: FailureMark::new(),
        }
    }
}

impl<R: Print + Drop> Report for StdoutReport<R> {
    ghost use Rattle.std.specs.Prelude.{None};

    ghost said = { λ r. None };

    ghost has_failed = { λ r. r.mark.has_failed };

    fn write(&mut self, piece: &[u8]) -> Result<usize, PortFault> {
        match print_once(&self.rt, piece) {
            // A sink that takes nothing of a piece that isn't empty fails.
            Ok(0) if !piece.is_empty() => Err(PortFault::from(self.mark.fail())),
            Ok(n) => Ok(n),
            Err(error) => Err(self.mark.refuse(error)),
        }
    }
}
