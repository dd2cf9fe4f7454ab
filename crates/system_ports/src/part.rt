// A file that is being written, under another name than its own.
ghost use Rattle.std.specs.Prelude.{◌<◌, ◌≤◌, length, IfOk};

use crate::interrupted::write_once;
use std::fs::{File, Metadata, OpenFile};
use std::io::{ErrorKind, Write};
use std::os::unix::fs::MetadataExt;
use std::path::{Path, PathBuf};
use std::rt::Files;
use std::{fs, io};

/// A file that is written as `NAME.part` and gets its name when it is whole.
#[derive(Drop)]
pub(crate) struct Part<F: Write + OpenFile + Drop> {
    file: F,
    /// How many bytes were written.
    written: u64,
    /// The path that ends in `.part`.
    path: PathBuf,
    /// The path that the whole file gets.
    whole: PathBuf,
}

/// Removes what has this path, if anything has. Of a link the link is removed, not what it points
/// to.
fn remove_if_there<R: Files>(rt: &R, path: Path<'_>) -> io::Result<()> {
    match fs::remove_file(rt, path) {
        Err(error) if error.kind() == ErrorKind::NotFound => Ok(()),
        done => done,
    }
}

/// Whether both are of one file: it has one number on one device.
fn are_of_one_file(a: &Metadata, b: &Metadata) -> bool {
    a.dev() == b.dev() && a.ino() == b.ino()
}

/// Begins the file of a name in a folder, which is there.
///
/// What is called `NAME.part` is removed, and then a new file is made. Where the name is there
/// again, that is an error: nothing that another program made is written to.
pub(crate) fn begin_part<R: Files + AllocGlobal>(
    rt: &R,
    folder: &str,
    name: &str,
) -> io::Result<Part<R::File>> {
    let alloc = rt.alloc();
    let part_name = format!(in alloc; "{name}.part")?;
    let path = Path::new(folder).join(alloc, part_name.as_str())?;
    let whole = Path::new(folder).join(alloc, name)?;
    remove_if_there(rt, path.as_path())?;
    let file = File::create_new(rt, path.as_path())?;
    Ok(Part {
        file,
        written: 0,
        path,
        whole,
    })
}

impl<F: Write + OpenFile + Drop> Part<F> {
    /// Writes a piece or a prefix of it, and returns how many bytes. A file that takes nothing of a
    /// piece that isn't empty is an error.
    pub(crate) fn write(&mut self, piece: &[u8]) -> io::Result<usize>
        ensures count { IfOk result (λ n. n ≤ length piece.now) }
        ensures some { IfOk result (λ n. 0 < length piece.now → 0 < n) }
    {
        let n = write_once(&mut self.file, piece)?;
        if n == 0 && !piece.is_empty() {
            return Err(io::Error::from(ErrorKind::WriteZero));
        }
        self.written = self.written.saturating_add(n as u64);
        Ok(n)
    }

    /// Gives the file its name, in the place of an older file, once all that was written is on the
    /// disk.
    ///
    /// It is an error where the file hasn't as many bytes as were written, or where another file
    /// has its path by now.
    pub(crate) fn finish<R: Files>(&mut self, rt: &R) -> io::Result<()> {
        self.file.flush()?;
        self.file.sync_data()?;
        let written = self.file.metadata()?;
        let named = fs::symlink_metadata(rt, self.path.as_path())?;
        if written.len() != self.written || !are_of_one_file(&written, &named) {
            return Err(io::Error::from(ErrorKind::UnexpectedEof));
        }
        fs::rename(rt, self.path.as_path(), self.whole.as_path())
    }
}
