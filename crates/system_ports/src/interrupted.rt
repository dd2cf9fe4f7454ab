// Calls that are made again where a signal interrupted them.
ghost use Rattle.std.specs.Prelude.{◌≤◌, length, IfOk};

use std::io;
use std::io::{ErrorKind, Print, Read, Write};

/// How often a call is made before it counts as failed.
const TRIES: u32 = 1000;

/// The error of a call that was interrupted each time.
fn too_often() -> io::Error {
    io::Error::from(ErrorKind::Interrupted)
}

/// Reads once from a file into a buffer, and returns how many bytes.
pub(crate) fn read_once<F: Read>(file: &mut F, buf: &mut [u8]) -> io::Result<usize>
    ensures { IfOk result (λ n. n ≤ length buf.new) }
{
    for _ in 0..TRIES {
        match file.read(buf) {
            Err(error) if error.kind() == ErrorKind::Interrupted => {}
            done => return done,
        }
    }
    Err(too_often())
}

/// Writes a piece or a prefix of it to a file, and returns how many bytes.
pub(crate) fn write_once<F: Write>(file: &mut F, piece: &[u8]) -> io::Result<usize>
    ensures { IfOk result (λ n. n ≤ length piece.now) }
{
    for _ in 0..TRIES {
        match file.write(piece) {
            Err(error) if error.kind() == ErrorKind::Interrupted => {}
            done => return done,
        }
    }
    Err(too_often())
}

/// Prints a piece or a prefix of it, and returns how many bytes.
pub(crate) fn print_once<R: Print>(rt: &R, piece: &[u8]) -> io::Result<usize>
    ensures { IfOk result (λ n. n ≤ length piece.now) }
{
    for _ in 0..TRIES {
        match rt.write_some(piece) {
            Err(error) if error.kind() == ErrorKind::Interrupted => {}
            done => return done,
        }
    }
    Err(too_often())
}
