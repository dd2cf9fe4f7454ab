// What ends a run before its last frame.
ghost use Rattle.std.specs.Prelude.{◌≡◌};
ghost use Rattle.cinema_run.specs.declared.stop.Stop.TheVariants.{Memory};
ghost use Rattle.cinema_run.specs.Stop.{outputs_stop, report_stop, source_stop, status_of};

use cine_ports::PortFault;
use std::alloc::AllocError;

/// What ended a run: a failed call of one of its three objects, or out of memory.
#[derive(Clone, Copy, Debug, PartialEq, Eq)]
pub enum Stop {
    /// A call of the source failed.
    Source,
    /// A call of the outputs failed.
    Outputs,
    /// A call of the report failed.
    Report,
    /// There was no memory left.
    Memory,
}

impl From<AllocError> for Stop {
    ghost from_gives = { λ _ stop. stop ≡ Memory };

    fn from(_: AllocError) -> Self {
        Stop::Memory
    }
}

impl Stop {
    /// The status of a run that is ended so: 3 to 6.
    pub fn status(self) -> u8
        ensures { result ≡ status_of self }
    {
        match self {
            Stop::Source => 3,
            Stop::Outputs => 4,
            Stop::Report => 5,
            Stop::Memory => 6,
        }
    }

    /// What an error of the source ends a run with.
    pub fn of_source(fault: PortFault) -> Stop
        ensures { result ≡ source_stop fault }
    {
        match fault {
            PortFault::Failed => Stop::Source,
            PortFault::Memory => Stop::Memory,
        }
    }

    /// What an error of the outputs ends a run with.
    pub fn of_outputs(fault: PortFault) -> Stop
        ensures { result ≡ outputs_stop fault }
    {
        match fault {
            PortFault::Failed => Stop::Outputs,
            PortFault::Memory => Stop::Memory,
        }
    }

    /// What an error of the report ends a run with.
    pub fn of_report(fault: PortFault) -> Stop
        ensures { result ≡ report_stop fault }
    {
        match fault {
            PortFault::Failed => Stop::Report,
            PortFault::Memory => Stop::Memory,
        }
    }
}
