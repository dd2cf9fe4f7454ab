// Where the lines of a run go.
ghost use Rattle.std.specs.Prelude.{Bool, false, ⊤, ◌≡◌, ◌<◌, ◌≤◌, ◌++◌, ℕ, List, Option, Result};
ghost use Rattle.std.specs.Prelude.{length, take, option_map, IfOk, OnErr};
ghost use Rattle.cine_ports.specs.declared.fault.PortFault.{PortFault};
ghost use Rattle.cine_ports.specs.Failure.{is_failed};

use crate::fault::PortFault;

/// A text that grows at its end.
///
/// The bytes that were written may be known or not. Once a call has failed, no further call is
/// made.
pub trait Report {
    /// The bytes that were written, where they are known.
    ghost said: { Self → Option (List ℕ) };

    /// Whether a call has failed.
    ghost has_failed: { Self → Bool };

    /// What an object promises of `write` beyond this trait, of itself before and after, of the
    /// piece and of the result: nothing where the object doesn't say it.
    ghost write_gives: { Self → Self → List ℕ → Result ℕ PortFault → Type 0 } = { λ _ _ _ _. ⊤ };

    /// Appends a piece, or only a prefix of it, and returns how many bytes.
    ///
    /// Of a piece that isn't empty at least one byte is appended. After an error nothing is.
    fn write(&mut self, piece: &[u8]) -> Result<usize, PortFault>
        requires working { has_failed self.old ≡ false }
        ensures count { IfOk result (λ n. n ≤ length piece.now) }
        ensures some { IfOk result (λ n. 0 < length piece.now → 0 < n) }
        ensures appended { IfOk result (λ n.
            said self.new ≡ option_map (λ bytes. bytes ++ take n piece.now) (said self.old)) }
        ensures err { OnErr result (said self.new ≡ said self.old) }
        ensures failed { has_failed self.new ≡ is_failed result }
        ensures gives { write_gives self.old self.new piece.now result };
}
