// Where codestreams go.
ghost use Rattle.std.specs.Prelude.{Bool, false, ⊤, is_some, ◌≡◌, ◌<◌, ◌≤◌, ℕ, length, take, map};
ghost use Rattle.std.specs.Prelude.{option_map, Contains, Option, List, Result, IsTrue, IfOk};
ghost use Rattle.std.specs.Prelude.{IfSome, OnOk, OnErr};
ghost use Rattle.std.specs.Option.{ForSome};
ghost use Rattle.cine_ports.specs.declared.fault.PortFault.{PortFault};
ghost use Rattle.cine_ports.specs.Failure.{is_failed};
ghost use Rattle.cine_ports.specs.Outputs.{Kept, with_begun, with_more, with_finished};

use crate::fault::PortFault;

/// Files that are written one after the other: one is begun, written piece by piece, and finished.
///
/// What the object keeps may be known or not. No call changes a finished file, its place, or
/// whether the files are known. A call that returns an error leaves the files as they were. Once a
/// call has failed, no further call is made.
pub trait Outputs {
    /// The files, where they are known.
    ghost kept: { Self → Option Kept };

    /// Whether a file is begun and not yet finished.
    ghost is_open: { Self → Bool };

    /// Whether a call has failed.
    ghost has_failed: { Self → Bool };

    /// What an object promises of `begin` beyond this trait, of itself before and after and of the
    /// result: nothing where the object doesn't say it.
    ghost begin_gives: { Self → Self → Result Unit PortFault → Type 0 } = { λ _ _ _. ⊤ };

    /// The same of `write`, where the third is the piece.
    ghost write_gives: { Self → Self → List ℕ → Result ℕ PortFault → Type 0 } = { λ _ _ _ _. ⊤ };

    /// The same of `finish`.
    ghost finish_gives: { Self → Self → Result Unit PortFault → Type 0 } = { λ _ _ _. ⊤ };

    /// Begins a file of this name, which has no bytes yet.
    fn begin(&mut self, name: &str) -> Result<(), PortFault>
        requires working { has_failed self.old ≡ false }
        requires closed { is_open self.old ≡ false }
        requires other_name { ForSome (kept self.old)
            (λ files. ¬ Contains (map (λ file. file.name) files.finished) name.now) }
        ensures ok { OnOk result (kept self.new
            ≡ option_map (with_begun name.now) (kept self.old)) }
        ensures opened { OnOk result (IsTrue (is_open self.new)) }
        ensures err { OnErr result ((kept self.new ≡ kept self.old) × (is_open self.new ≡ false)) }
        ensures failed { has_failed self.new ≡ is_failed result }
        ensures gives { begin_gives self.old self.new result };

    /// Appends a piece, or only a prefix of it, to the unfinished file, and returns how many bytes.
    ///
    /// Of a piece that isn't empty at least one byte is appended.
    fn write(&mut self, piece: &[u8]) -> Result<usize, PortFault>
        requires working { has_failed self.old ≡ false }
        requires open { IsTrue (is_open self.old) }
        ensures count { IfOk result (λ n. n ≤ length piece.now) }
        ensures some { IfOk result (λ n. 0 < length piece.now → 0 < n) }
        ensures appended { IfOk result (λ n.
            kept self.new ≡ option_map (with_more (take n piece.now)) (kept self.old)) }
        ensures err { OnErr result (kept self.new ≡ kept self.old) }
        ensures open { IsTrue (is_open self.new) }
        ensures failed { has_failed self.new ≡ is_failed result }
        ensures gives { write_gives self.old self.new piece.now result };

    /// Finishes the unfinished file, which is then the last of the finished ones.
    fn finish(&mut self) -> Result<(), PortFault>
        requires working { has_failed self.old ≡ false }
        requires open { IsTrue (is_open self.old) }
        ensures ok { OnOk result (kept self.new ≡ option_map with_finished (kept self.old)) }
        ensures closed { OnOk result (is_open self.new ≡ false) }
        ensures err { OnErr result ((kept self.new ≡ kept self.old) × IsTrue (is_open self.new)) }
        ensures failed { has_failed self.new ≡ is_failed result }
        ensures gives { finish_gives self.old self.new result };

    /// Where the files are known, one of them is unfinished exactly if the object is open.
    ghost open_known: { (s : Self) →
        IfSome (kept s) (λ files. is_open s ≡ is_some files.unfinished) };
}
