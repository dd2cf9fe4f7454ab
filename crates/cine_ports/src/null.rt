// Outputs and a report that keep nothing.
use crate::{Outputs, PortFault, Report};

/// Outputs that keep nothing, take every piece whole and never return an error.
#[derive(Debug, Drop)]
pub struct NullOutputs {
    is_open: bool,
}

impl NullOutputs {
    ghost use Rattle.std.specs.Prelude.{◌≡◌, false};

    /// Outputs of which nothing is begun.
    pub fn new() -> NullOutputs
        ensures { result.is_open ≡ false }
    {
        NullOutputs { is_open: false }
    }
}

impl Outputs for NullOutputs {
    ghost use Rattle.std.specs.Prelude.{◌≡◌, false, None, length, Ok, IsOk};

    ghost kept = { λ o. None };

    ghost is_open = { λ o. o.is_open };

    ghost has_failed = { λ o. false };

    ghost begin_gives = { λ old new result. IsOk result };

    ghost write_gives = { λ old new piece result. result ≡ Ok (length piece) };

    ghost finish_gives = { λ old new result. IsOk result };

    ghost open_known = { λ o. tt };

    fn begin(&mut self, _name: &str) -> Result<(), PortFault> {
        self.is_open = true;
        Ok(())
    }

    fn write(&mut self, piece: &[u8]) -> Result<usize, PortFault> {
        Ok(piece.len())
    }

    fn finish(&mut self) -> Result<(), PortFault> {
        self.is_open = false;
        Ok(())
    }
}

/// A report that keeps nothing, takes every piece whole and never returns an error.
#[derive(Debug, Drop)]
pub struct NullReport;

impl Report for NullReport {
    ghost use Rattle.std.specs.Prelude.{◌≡◌, false, None, length, Ok};

    ghost said = { λ r. None };

    ghost has_failed = { λ r. false };

    ghost write_gives = { λ old new piece result. result ≡ Ok (length piece) };

    fn write(&mut self, piece: &[u8]) -> Result<usize, PortFault> {
        Ok(piece.len())
    }
}
