// The errors of a call of the outside.
ghost use Rattle.std.specs.Prelude.{◌≡◌};
ghost use Rattle.cine_ports.specs.declared.fault.PortFault.TheVariants as port_fault;

use std::alloc::{AllocError, AllocFailed};

/// The call failed, and its object knows that.
#[derive(Clone, Copy, Debug, PartialEq, Eq)]
pub struct Failed;

/// Why a call that takes memory returned an error.
#[derive(Clone, Copy, Debug, PartialEq, Eq)]
pub enum PortFault {
    /// The call failed, and its object knows that.
    Failed,
    /// Out of memory. The object hasn't failed.
    Memory,
}

impl From<Failed> for PortFault {
    ghost from_gives = { λ _ e. e ≡ port_fault.Failed };

    fn from(_: Failed) -> PortFault {
        PortFault::Failed
    }
}

impl From<AllocError> for PortFault {
    ghost from_gives = { λ _ e. e ≡ port_fault.Memory };

    fn from(_: AllocError) -> PortFault {
        PortFault::Memory
    }
}

impl<T: Drop> From<AllocFailed<T>> for PortFault {
    ghost from_gives = { λ _ e. e ≡ port_fault.Memory };

    fn from(_: AllocFailed<T>) -> PortFault {
        PortFault::Memory
    }
}
