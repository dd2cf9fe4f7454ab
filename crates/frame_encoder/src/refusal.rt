// Why a frame couldn't be encoded.
ghost use Rattle.std.specs.Prelude.{◌≡◌};
ghost use Rattle.frame_encoder.specs.declared.refusal.EncodeRefusal.TheVariants.{Memory};

use cine_nums::Budget;
use std::alloc::AllocError;
use thiserror::Error;

/// Why a frame couldn't be encoded as the order asks for it.
#[derive(Clone, Copy, Debug, PartialEq, Eq, Error)]
pub enum EncodeRefusal {
    /// The limit of this budget is smaller than what the codestream without any coding pass holds
    /// there, which is so many bytes. Of several such budgets it is the outermost.
    #[error("the limit is too small: {1} bytes are needed")]
    LimitTooSmall(Budget, u32),
    /// There was no memory left.
    #[error("out of memory")]
    Memory,
}

impl From<AllocError> for EncodeRefusal {
    ghost from_gives = { λ _ e. e ≡ Memory };

    fn from(_: AllocError) -> EncodeRefusal {
        EncodeRefusal::Memory
    }
}
