ghost use Rattle.std.specs.Prelude.{false, ◌≡◌, OnOk};

use super::*;
use std::alloc::{AllocError, Global};
use std::test::Fail;

fn file(alloc: Global, name: &str, bytes: &[u8]) -> Result<MemoryFrame, AllocError> {
    Ok(MemoryFrame {
        name: String::from_str(alloc, name)?,
        bytes: Vec::from_slice(alloc, bytes)?,
    })
}

fn files(
    alloc: Global,
    first: MemoryFrame,
    second: MemoryFrame,
) -> Result<Vec<MemoryFrame>, AllocError> {
    let mut files = Vec::new(alloc);
    files.push(first)?;
    files.push(second)?;
    Ok(files)
}

/// The first bytes of a frame, which are all of one that is shorter than 8 bytes.
fn first_bytes<F: Frames>(alloc: Global, frames: &mut F, i: u32) -> Result<Vec<u8>, Fail>
    requires { F.has_failed frames.old ≡ false }
    ensures { OnOk result (F.has_failed frames.new ≡ false) }
{
    if i >= frames.count() {
        return Err(Fail::new("no such frame"));
    }
    frames.begin(i)?;
    let mut buf = [0; 8];
    let n = read_fully(frames, &mut buf)?;
    Ok(buf[..n].to_vec(alloc)?)
}

#[test]
fn steady_frames_are_read(rt: HostRuntime) -> Result<(), Fail> {
    let alloc = rt.alloc();
    let files = files(alloc, file(alloc, "a", b"12345")?, file(alloc, "a-b", b"")?)?;
    assert!(rt; is_frame_list(files.as_slice()));
    let mut frames = SteadyFrames::new(files);
    frames.list()?;
    let read = first_bytes(alloc, &mut frames, 0)?;
    assert!(rt; read.as_slice() == b"12345".as_slice());
    Ok(())
}

/// How many calls succeed of those that list, begin and read a file of three bytes by two at a
/// time.
fn calls_before_failure(alloc: Global, failing: u32) -> Result<u32, Fail> {
    let files = files(alloc, file(alloc, "a", b"123")?, file(alloc, "b", b"")?)?;
    if !is_frame_list(files.as_slice()) {
        return Err(Fail::new("the names aren't in order"));
    }
    let mut frames = MemoryFrames::new(files, vec![in alloc; failing, 9]?, 2);
    if frames.list().is_err() {
        return Ok(0);
    }
    if frames.count() != 2 {
        return Err(Fail::new("not two names"));
    }
    if frames.begin(0).is_err() {
        return Ok(1);
    }
    let mut buf = [0; 8];
    match frames.read(&mut buf) {
        Err(Failed) => return Ok(2),
        Ok(n) if n == 2 && buf[1] == b'2' => {}
        Ok(_) => return Err(Fail::new("not two bytes")),
    }
    match frames.read(&mut buf) {
        Err(Failed) => Ok(3),
        Ok(n) if n == 1 && buf[0] == b'3' => Ok(4),
        Ok(_) => Err(Fail::new("not the last byte")),
    }
}

#[test]
fn planned_reads_fail(rt: HostRuntime) -> Result<(), Fail> {
    for failing in 0..5 {
        assert!(rt; calls_before_failure(rt.alloc(), failing)? == failing);
    }
    Ok(())
}

#[test]
fn planned_writes_fail(rt: HostRuntime) -> Result<(), Fail> {
    let alloc = rt.alloc();
    let mut outputs = MemoryOutputs::new(alloc, vec![in alloc; 6]?, 2);
    outputs.begin("a.j2c")?;
    write_all(&mut outputs, b"123")?;
    outputs.finish()?;
    outputs.begin("b.j2c")?;
    // Calls 5 and 6, of two bytes and one.
    assert!(rt; write_all(&mut outputs, b"456").is_err());
    let files = outputs.files();
    assert!(rt; files.len() == 1 && files[0].bytes() == b"123".as_slice());
    let unfinished = outputs.unfinished().ok_or("nothing unfinished")?;
    assert!(rt; unfinished.name() == "b.j2c" && unfinished.bytes() == b"45".as_slice());
    Ok(())
}

#[test]
fn planned_lines_fail(rt: HostRuntime) -> Result<(), Fail> {
    let alloc = rt.alloc();
    let mut report = MemoryReport::new(alloc, vec![in alloc; 2]?, 3);
    say(&mut report, b"one\n")?;
    assert!(rt; say(&mut report, b"two\n").is_err());
    assert!(rt; report.bytes() == b"one\n".as_slice());
    Ok(())
}

#[test]
fn nothing_is_kept(rt: HostRuntime) -> Result<(), Fail> {
    let mut outputs = NullOutputs::new();
    outputs.begin("a.j2c")?;
    write_all(&mut outputs, b"123")?;
    outputs.finish()?;
    say(&mut NullReport, b"one\n")?;
    Ok(())
}
