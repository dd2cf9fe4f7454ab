// Why bytes are no certificate line.
ghost use Rattle.std.specs.Prelude.{◌≡◌};
ghost use Rattle.cert_text.specs.declared.cert_refusal.CertRefusal.TheVariants.{Memory};

use std::alloc::{AllocError, AllocFailed};

/// Why there is no certificate line.
#[derive(Clone, Copy, Debug, PartialEq, Eq)]
pub enum CertRefusal {
    /// The bytes aren't a certificate line: the least place, counted from 0, at which no
    /// certificate line goes on as the bytes do. A number is judged as a whole, at its first digit.
    BadLine(u32),
    /// Out of memory.
    Memory,
}

impl<T: Drop> From<AllocFailed<T>> for CertRefusal {
    ghost from_gives = { λ _ e. e ≡ Memory };

    fn from(_failed: AllocFailed<T>) -> CertRefusal {
        CertRefusal::Memory
    }
}

impl From<AllocError> for CertRefusal {
    ghost from_gives = { λ _ e. e ≡ Memory };

    fn from(_error: AllocError) -> CertRefusal {
        CertRefusal::Memory
    }
}
