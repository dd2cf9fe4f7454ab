// Folders of files, read and written.
ghost use Rattle.std.specs.Prelude.{false, ◌≡◌, is_some, IfOk, OnOk};

use super::interrupted::{read_once, write_once};
use super::*;
use cine_ports::{Frames, Outputs, read_fully, say, write_all};
use std::alloc::{AllocError, Global};
use std::io::{ErrorKind, Read, Write};
use std::os::unix::fs::symlink;
use std::rt::Files;
use std::test::Fail;
use std::{fs, io};

#[test]
fn standard_output_is_written(rt: HostRuntime) -> Result<(), Fail> {
    let mut report = StdoutReport::new(rt.clone()?);
    say(&mut report, b"one\n")?;
    assert!(rt; !report.mark.has_failed);
    Ok(())
}

const SOURCE: &str = "system_ports_source";

/// A folder with three frames and three names that are none.
fn make_source<R: Files + AllocGlobal>(rt: &R) -> io::Result<()> {
    let _ = fs::remove_dir_all(rt, SOURCE);
    fs::create_dir(rt, SOURCE)?;
    fs::create_dir(rt, "system_ports_source/folder.ppm")?;
    fs::write(rt, "system_ports_source/a-b.ppm", b"".as_slice())?;
    fs::write(rt, "system_ports_source/a.ppm", b"12345".as_slice())?;
    fs::write(rt, "system_ports_source/.ppm", b"".as_slice())?;
    fs::write(rt, "system_ports_source/a.PPM", b"".as_slice())?;
    symlink(rt, "a.ppm", "system_ports_source/link.ppm")
}

/// The frames of that folder.
fn source<R: Files + AllocGlobal + Clone + Drop>(rt: &R) -> Result<FolderFrames<R>, AllocError>
    ensures { IfOk result (λ frames. frames.mark.has_failed ≡ false) }
{
    let alloc = rt.alloc();
    let folder = String::from_str(alloc, SOURCE)?;
    Ok(FolderFrames::new(rt.clone()?, folder, String::from_str(alloc, ".ppm")?))
}

/// The first bytes of a frame, which are all of one that is shorter than 8 bytes.
fn first_bytes<F: Frames>(alloc: Global, frames: &mut F, i: u32) -> Result<Vec<u8>, Fail>
    requires { F.has_failed frames.old ≡ false }
{
    if i >= frames.count() {
        return Err(Fail::new("no such frame"));
    }
    frames.begin(i)?;
    let mut buf = [0; 8];
    let n = read_fully(frames, &mut buf)?;
    Ok(buf[..n].to_vec(alloc)?)
}

#[test]
fn a_folder_is_read(rt: HostRuntime) -> Result<(), Fail> {
    make_source(&rt)?;
    let mut frames = source(&rt)?;
    frames.list()?;
    assert!(rt; frames.count() == 3);
    assert!(rt; frames.name(1) == "a-b" && frames.name(2) == "link");
    let read = first_bytes(rt.alloc(), &mut frames, 2)?;
    assert!(rt; read.as_slice() == b"12345".as_slice());
    symlink(&rt, "missing", "system_ports_source/broken.ppm")?;
    let mut broken = source(&rt)?;
    assert!(rt; broken.list().is_err());
    assert!(rt; !frames.mark.has_failed && broken.mark.has_failed);
    fs::remove_dir_all(&rt, SOURCE)?;
    Ok(())
}

const TARGET: &str = "system_ports_target";

const WHOLE: &str = "system_ports_target/a.j2c";

const PART: &str = "system_ports_target/a.j2c.part";

const OTHER: &str = "system_ports_target/other";

/// The outputs of a folder.
fn target<R: Files + AllocGlobal + Clone + Drop>(
    rt: &R,
    folder: &str,
) -> Result<FolderOutputs<R>, AllocError>
    ensures closed { IfOk result (λ outputs. is_some outputs.part ≡ false) }
    ensures working { IfOk result (λ outputs. outputs.mark.has_failed ≡ false) }
{
    Ok(FolderOutputs::new(rt.clone()?, String::from_str(rt.alloc(), folder)?))
}

/// Writes the output `a.j2c` into a folder.
fn write_a<R: Files + AllocGlobal + Clone + Drop>(
    rt: &R,
    folder: &str,
    bytes: &[u8],
) -> Result<(), Fail> {
    let mut outputs = target(rt, folder)?;
    outputs.begin("a.j2c")?;
    write_all(&mut outputs, bytes)?;
    outputs.finish()?;
    Ok(())
}

/// Whether a file has these bytes.
fn has_bytes<R: Files + AllocGlobal>(rt: &R, path: &str, bytes: &[u8]) -> Result<bool, Fail> {
    let read = fs::read(rt, path)?;
    Ok(read.as_slice() == bytes)
}

#[test]
fn an_older_file_is_replaced_at_finish(rt: HostRuntime) -> Result<(), Fail> {
    let _ = fs::remove_dir_all(&rt, TARGET);
    write_a(&rt, TARGET, b"older and longer")?;
    let mut outputs = target(&rt, TARGET)?;
    outputs.begin("a.j2c")?;
    write_all(&mut outputs, b"12345")?;
    assert!(rt; has_bytes(&rt, WHOLE, b"older and longer")?);
    outputs.finish()?;
    assert!(rt; has_bytes(&rt, WHOLE, b"12345")?);
    assert!(rt; !fs::exists(&rt, PART)?);
    fs::remove_dir_all(&rt, TARGET)?;
    Ok(())
}

#[test]
fn a_link_called_part_is_not_followed(rt: HostRuntime) -> Result<(), Fail> {
    let _ = fs::remove_dir_all(&rt, TARGET);
    fs::create_dir(&rt, TARGET)?;
    fs::write(&rt, OTHER, b"kept".as_slice())?;
    symlink(&rt, "other", PART)?;
    write_a(&rt, TARGET, b"12345")?;
    assert!(rt; has_bytes(&rt, OTHER, b"kept")? && has_bytes(&rt, WHOLE, b"12345")?);
    fs::hard_link(&rt, OTHER, PART)?;
    write_a(&rt, TARGET, b"123")?;
    assert!(rt; has_bytes(&rt, OTHER, b"kept")? && has_bytes(&rt, WHOLE, b"123")?);
    // The file that is called `.part` in the end is another one, so it doesn't get the name.
    let mut outputs = target(&rt, TARGET)?;
    outputs.begin("a.j2c")?;
    fs::remove_file(&rt, PART)?;
    fs::write(&rt, PART, b"".as_slice())?;
    assert!(rt; outputs.finish().is_err());
    assert!(rt; has_bytes(&rt, WHOLE, b"123")?);
    fs::remove_dir_all(&rt, TARGET)?;
    Ok(())
}

#[test]
fn outputs_without_a_place_fail(rt: HostRuntime) -> Result<(), Fail> {
    let _ = fs::remove_dir_all(&rt, TARGET);
    fs::create_dir(&rt, TARGET)?;
    fs::write(&rt, OTHER, b"".as_slice())?;
    // No folder stands below a file, and none has an empty name.
    for folder in [OTHER, ""] {
        let mut outputs = target(&rt, folder)?;
        assert!(rt; outputs.begin("a.j2c").is_err());
        assert!(rt; outputs.mark.has_failed);
    }
    assert!(rt; !fs::exists(&rt, "a.j2c.part")?);
    // A folder isn't removed.
    fs::create_dir(&rt, PART)?;
    assert!(rt; target(&rt, TARGET)?.begin("a.j2c").is_err());
    fs::remove_dir_all(&rt, TARGET)?;
    Ok(())
}

/// A file of which so many calls are interrupted before one succeeds.
#[derive(Drop)]
struct Interrupted {
    left: u32,
}

impl Interrupted {
    /// One call.
    fn call(&mut self) -> io::Result<()> {
        if self.left == 0 {
            return Ok(());
        }
        self.left -= 1;
        Err(io::Error::from(ErrorKind::Interrupted))
    }
}

impl Read for Interrupted {
    fn read(&mut self, buf: &mut [u8]) -> io::Result<usize> {
        self.call()?;
        Ok(buf.len())
    }
}

impl Write for Interrupted {
    fn write(&mut self, piece: &[u8]) -> io::Result<usize> {
        self.call()?;
        Ok(piece.len())
    }

    fn flush(&mut self) -> io::Result<()> {
        self.call()
    }
}

#[test]
fn an_interrupted_call_is_made_again(rt: HostRuntime) -> Result<(), Fail> {
    for (left, is_ok) in [(0, true), (999, true), (1000, false)] {
        let mut buf = [0; 4];
        assert!(rt; read_once(&mut Interrupted { left }, &mut buf).is_ok() == is_ok);
        assert!(rt; write_once(&mut Interrupted { left }, &buf).is_ok() == is_ok);
    }
    Ok(())
}
