// Whether a call of the system has failed.
ghost use Rattle.std.specs.Prelude.{ℕ, ◌≡◌, ◌↔◌, false, Err, IsTrue};
ghost use Rattle.std.specs.IoError.{error_kind};
ghost use Rattle.cine_ports.specs.declared.fault.PortFault.TheVariants as port_fault;
ghost use Rattle.cine_ports.specs.Failure.{is_failed};

use cine_ports::{Failed, PortFault};
use std::io;
use std::io::ErrorKind;

/// Whether a call of an object has failed.
#[derive(Debug, Drop)]
pub(crate) struct FailureMark {
    pub(crate) has_failed: bool,
}

impl FailureMark {
    /// The mark of an object of which nothing was called yet.
    pub(crate) fn new() -> FailureMark
        ensures { result.has_failed ≡ false }
    {
        FailureMark { has_failed: false }
    }

    /// Notes that a call has failed.
    pub(crate) fn fail(&mut self) -> Failed
        ensures { IsTrue self.new.has_failed }
    {
        self.has_failed = true;
        Failed
    }

    /// What a call returns that met this error of the system: Memory exactly if its kind is
    /// OutOfMemory, else Failed, which is noted.
    pub(crate) fn refuse(&mut self, error: io::Error) -> PortFault
        requires { self.old.has_failed ≡ false }
        ensures memory { (result ≡ port_fault.Memory) ↔ (error_kind error ≡ ErrorKind.OutOfMemory) }
        ensures failed { self.new.has_failed ≡ is_failed {T = ℕ} (Err result) }
    {
        if error.kind() == ErrorKind::OutOfMemory {
            return PortFault::Memory;
        }
        PortFault::from(self.fail())
    }
}
