// Where frames come from.
ghost use Rattle.std.specs.Prelude.{[], Bool, false, ⊤, ◌≡◌, ◌<◌, ◌≤◌, ◌++◌, ℕ, length, take, map};
ghost use Rattle.std.specs.Prelude.{slice_get, is_err, Result, IsTrue, IsSome, IfOk, IfSome, OnOk};
ghost use Rattle.std.specs.Prelude.{OnErr};
ghost use Rattle.cine_ports.specs.declared.fault.Failed.{Failed};
ghost use Rattle.cine_ports.specs.declared.fault.PortFault.{PortFault};
ghost use Rattle.cine_ports.specs.Failure.{is_failed};
ghost use Rattle.cine_ports.specs.Source.{Source, Reading, IsUnlisted};
ghost use Rattle.cine_ports.specs.Names.{IsNameList};

use crate::fault::{Failed, PortFault};

/// A source of frames: a list of files, of which one at a time is begun and read from its first
/// byte.
///
/// The files of a source may be known or not; where they are known, no call changes them. Names are
/// distinct and sorted by their bytes, whether the files are known or not. Once a call has failed,
/// no further call is made.
pub trait Frames {
    /// The files, where they are known, and the names that were listed.
    ghost source: { Self → Source };

    /// Which frame was asked for, and what is left of it.
    ghost reading: { Self → Reading };

    /// Whether a call has failed.
    ghost has_failed: { Self → Bool };

    /// What an object promises of `list` beyond this trait, of itself before and after and of the
    /// result: nothing where the object doesn't say it.
    ghost list_gives: { Self → Self → Result Unit PortFault → Type 0 } = { λ _ _ _. ⊤ };

    /// The same of `begin`.
    ghost begin_gives: { Self → Self → Result Unit PortFault → Type 0 } = { λ _ _ _. ⊤ };

    /// The same of `read`, where the third is the buffer's length.
    ghost read_gives: { Self → Self → ℕ → Result ℕ Failed → Type 0 } = { λ _ _ _ _. ⊤ };

    /// Lists the names, which stay from then on.
    ///
    /// A source of 2^32 names or more fails.
    fn list(&mut self) -> Result<(), PortFault>
        requires working { has_failed self.old ≡ false }
        ensures listed { OnOk result (IsTrue (source self.new).is_listed) }
        ensures valid { OnOk result (IsNameList (source self.new).names) }
        // Where the files are known, these are their names in order.
        ensures known { OnOk result (IfSome (source self.new).files
            (λ files. (source self.new).names ≡ map (λ file. file.name) files)) }
        ensures stays { IsTrue (source self.old).is_listed → source self.new ≡ source self.old }
        ensures err { OnErr result (source self.new ≡ source self.old) }
        ensures files { (source self.new).files ≡ (source self.old).files }
        ensures reading { reading self.new ≡ reading self.old }
        ensures failed { has_failed self.new ≡ is_failed result }
        ensures gives { list_gives self.old self.new result };

    /// How many names were listed.
    fn count(&self) -> u32
        ensures { result ≡ length (source self.now).names };

    /// The name of a frame, by its place in the list.
    fn name(&self, i: u32) -> &str
        requires { i < length (source self.now).names }
        ensures { slice_get (source self.now).names i ≡ Some result.now };

    /// Begins a frame, by its place in the list: all its bytes are left to be read.
    ///
    /// After an error no frame is begun.
    fn begin(&mut self, i: u32) -> Result<(), PortFault>
        requires working { has_failed self.old ≡ false }
        requires place { i < length (source self.old).names }
        ensures ok { OnOk result (IsTrue (reading self.new).is_begun) }
        // Where the files are known, all the bytes of this one are left.
        ensures left { OnOk result (IfSome (source self.new).files
            (λ files. slice_get (map (λ file. file.bytes) files) i
            ≡ Some (reading self.new).left)) }
        ensures err { OnErr result ((reading self.new).is_begun ≡ false) }
        ensures asked { (reading self.new).asked ≡ i }
        ensures source { source self.new ≡ source self.old }
        ensures failed { has_failed self.new ≡ is_failed result }
        ensures gives { begin_gives self.old self.new result };

    /// Moves the first bytes of what is left into the buffer, and returns how many.
    ///
    /// For a buffer that isn't empty, 0 means that nothing is left. A read that fails moves
    /// nothing.
    fn read(&mut self, buf: &mut [u8]) -> Result<usize, Failed>
        requires working { has_failed self.old ≡ false }
        requires begun { IsTrue (reading self.old).is_begun }
        ensures count { IfOk result (λ n. n ≤ length buf.new) }
        ensures moved { IfOk result (λ n. IsSome (source self.old).files →
            (reading self.old).left ≡ take n buf.new ++ (reading self.new).left) }
        ensures end { IfOk result (λ n. IsSome (source self.old).files →
            0 < length buf.new → n ≡ 0 → (reading self.old).left ≡ []) }
        ensures err { OnErr result (IsSome (source self.old).files →
            (reading self.new).left ≡ (reading self.old).left) }
        ensures begun { IsTrue (reading self.new).is_begun }
        ensures asked { (reading self.new).asked ≡ (reading self.old).asked }
        ensures source { source self.new ≡ source self.old }
        ensures failed { has_failed self.new ≡ is_err result }
        ensures gives { read_gives self.old self.new (length buf.old) result };

    /// Until `list` has returned Ok there are no names, and no frame was asked for.
    ghost unlisted: { (s : Self) → IsUnlisted (source s) (reading s) };
}
