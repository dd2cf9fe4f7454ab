// Why a frame couldn't be read.
ghost use Rattle.std.specs.Prelude.{◌≡◌};
ghost use Rattle.pnm_frames.specs.declared.refusal.FrameRefusal.TheVariants.{Memory, Source};

use crate::fault::FrameFault;
use cine_ports::Failed;
use std::alloc::AllocError;
use thiserror::Error;

/// Why a call that reads a frame was refused.
#[derive(Clone, Copy, Debug, PartialEq, Eq, Error)]
pub enum FrameRefusal {
    /// The bytes of the file have this fault.
    #[error("{0}")]
    Fault(FrameFault),
    /// The source failed, and counted that.
    #[error("the source failed")]
    Source,
    /// There was no memory left.
    #[error("out of memory")]
    Memory,
}

impl From<Failed> for FrameRefusal {
    ghost from_gives = { λ _ e. e ≡ Source };

    fn from(_e: Failed) -> FrameRefusal {
        FrameRefusal::Source
    }
}

impl From<AllocError> for FrameRefusal {
    ghost from_gives = { λ _ e. e ≡ Memory };

    fn from(_e: AllocError) -> FrameRefusal {
        FrameRefusal::Memory
    }
}
