// Files in memory that are read one after the other.
ghost use Rattle.std.specs.Prelude.{[], ◌≡◌, ◌+◌, ◌++◌, ◌<◌, ◌≤◌, true, false, drop, length, map};
ghost use Rattle.std.specs.Prelude.{min, take, slice_get, slice_index_or, IsTrue};
ghost use Rattle.cine_ports.specs.Memory.{bytes_at, names_listed, known_source, known_reading};
ghost use Rattle.cine_ports.specs.Names.{IsNameList};
ghost use Rattle.cine_ports.specs.Source.{IsUnlisted};

use crate::MemoryFrame;

/// Files in memory, and where the reading of them stands.
#[derive(Debug, Drop)]
pub(crate) struct MemorySource {
    files: Vec<MemoryFrame>,
    is_listed: bool,
    asked: u32,
    is_begun: bool,
    at: usize,
    ghost in_order: { IsNameList (map (λ file. file.name) files.items) },
    ghost unlisted: { IsUnlisted (known_source files.items is_listed)
        (known_reading files.items asked is_begun at) },
    ghost in_list: { IsTrue is_begun → asked < length files.items },
    ghost in_file: { IsTrue is_begun → at ≤ length (bytes_at files.items asked) },
}

impl MemorySource {
    pub(crate) fn new(files: Vec<MemoryFrame>) -> MemorySource
        requires { IsNameList (map (λ file. file.name) files.items) }
        ensures files { result.files ≡ files }
        ensures listed { result.is_listed ≡ false }
        ensures asked { result.asked ≡ 0 }
        ensures begun { result.is_begun ≡ false }
        ensures at { result.at ≡ 0 }
    {
        MemorySource {
            files,
            is_listed: false,
            asked: 0,
            is_begun: false,
            at: 0,
        }
    }

    pub(crate) fn list(&mut self)
        ensures files { self.new.files ≡ self.old.files }
        ensures listed { IsTrue self.new.is_listed }
        ensures asked { self.new.asked ≡ self.old.asked }
        ensures begun { self.new.is_begun ≡ self.old.is_begun }
        ensures at { self.new.at ≡ self.old.at }
    {
        self.is_listed = true;
    }

    pub(crate) fn count(&self) -> u32
        ensures { result ≡ length (names_listed self.now.is_listed self.now.files.items) }
    {
        if self.is_listed {
            self.files.len() as u32
        } else {
            0
        }
    }

    pub(crate) fn name(&self, i: u32) -> &str
        requires { i < length self.now.files.items }
        ensures { slice_get (map (λ file. file.name) self.now.files.items) i ≡ Some result.now }
    {
        self.files[i as usize].name()
    }

    /// Begins a file, or notes that it was asked for and isn't begun.
    pub(crate) fn begin(&mut self, i: u32, is_begun: bool)
        requires { i < length (names_listed self.old.is_listed self.old.files.items) }
        ensures files { self.new.files ≡ self.old.files }
        ensures listed { self.new.is_listed ≡ self.old.is_listed }
        ensures asked { self.new.asked ≡ i }
        ensures begun { self.new.is_begun ≡ is_begun }
        ensures at { self.new.at ≡ 0 }
    {
        self.asked = i;
        self.is_begun = is_begun;
        self.at = 0;
    }

    /// Moves the first bytes of what is left of the begun file into the buffer, and returns how
    /// many.
    pub(crate) fn read(&mut self, buf: &mut [u8]) -> usize
        requires { IsTrue self.old.is_begun }
        ensures count { result ≡ min (length
            (drop self.old.at (bytes_at self.old.files.items self.old.asked))) (length buf.old) }
        ensures moved { take result buf.new
            ≡ take result (drop self.old.at (bytes_at self.old.files.items self.old.asked)) }
        ensures len { length buf.new ≡ length buf.old }
        ensures at { self.new.at ≡ self.old.at + result }
        ensures files { self.new.files ≡ self.old.files }
        ensures listed { self.new.is_listed ≡ self.old.is_listed }
        ensures asked { self.new.asked ≡ self.old.asked }
        ensures begun { self.new.is_begun ≡ self.old.is_begun }
    {
        let bytes = self.files[self.asked as usize].bytes();
        let n = copy_prefix(&bytes[self.at..], buf);
        self.at += n;
        n
    }
}

/// Copies the first items of one slice over the first of another, as many as fit, and returns how
/// many.
fn copy_prefix(from: &[u8], to: &mut [u8]) -> usize
    ensures count { result ≡ min (length from.now) (length to.old) }
    ensures moved { take result to.new ≡ take result from.now }
    ensures len { length to.new ≡ length to.old }
{
    let n = from.len().min(to.len());
    to[..n].copy_from_slice(&from[..n]);
    n
}
