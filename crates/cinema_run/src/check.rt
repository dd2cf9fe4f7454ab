// One file that is checked after the other.
ghost use Rattle.std.specs.Prelude.{ℕ, ◌+◌, ◌≡◌, ◌<◌, List, [], None, Some, false, drop, length};
ghost use Rattle.std.specs.Prelude.{map, slice_get, IfOk, IfSome, OnOk, OnErr};
ghost use Rattle.std.specs.Option.{ForSome};
ghost use Rattle.cine_nums.specs.Limits.{frame_limit};
ghost use Rattle.cinema_run.specs.Stop.{is_outputs_stop, is_report_stop, is_source_stop};
ghost use Rattle.cinema_run.specs.RightCheck.{RightCheck, RightCheckByName};
ghost use Rattle.cinema_run.specs.Progress.{FrameVisited, FrameBrokeOff, FramesVisited};
ghost use Rattle.cinema_run.specs.Progress.{FramesBrokeOff};

use crate::frames::either;
use crate::stop::Stop;
use crate::verdict::judged;
use cine_nums::{Budget, Profile};
use cine_ports::{Failed, Frames, Report, read_fully, say};
use std::alloc::{AllocError, Global};

/// Visits the file at place `i`: reads as many bytes of it as the buffer has, and reports what they
/// hold or their first fault. Returns whether the file is refused. There are no outputs, so nothing
/// is said of any (`None`).
fn check_file<F: Frames, S: Report>(
    alloc: Global,
    i: u32,
    buffer: &mut [u8],
    frames: &mut F,
    report: &mut S,
) -> Result<bool, Stop>
    requires room { length buffer.old ≡ frame_limit + 1 }
    requires place { i < length (F.source frames.old).names }
    requires listed { IfSome (F.source frames.old).files
        (λ files. (F.source frames.old).names ≡ map (λ file. file.name) files) }
    requires source_working { F.has_failed frames.old ≡ false }
    requires report_working { S.has_failed report.old ≡ false }
    ensures ok { IfOk result (λ refused. FrameVisited RightCheckByName RightCheck
        (F.source frames.old) i None None (S.said report.old) (S.said report.new) refused) }
    ensures err { OnErr result (FrameBrokeOff RightCheckByName RightCheck
        (F.source frames.old) i None None (S.said report.old) (S.said report.new)) }
    // Where the files are known, as many bytes of this one were read as a verdict asks for, and all
    // others are left.
    ensures left { OnOk result (IfSome (F.source frames.old).files (λ files. (bytes : List ℕ) →
        slice_get (map (λ file. file.bytes) files) i ≡ Some bytes →
        (F.reading frames.new).left ≡ drop (frame_limit + 1) bytes)) }
    ensures room { length buffer.new ≡ length buffer.old }
    ensures source { F.source frames.new ≡ F.source frames.old }
    ensures asked { (F.reading frames.new).asked ≡ i }
    ensures source_failed { F.has_failed frames.new ≡ is_source_stop result }
    ensures no_outputs { is_outputs_stop result ≡ false }
    ensures report_failed { S.has_failed report.new ≡ is_report_stop result }
{
    match frames.begin(i) {
        Ok(()) => {}
        Err(fault) => return Err(Stop::of_source(fault)),
    }
    let count = match read_fully(frames, buffer) {
        Ok(count) => count,
        Err(Failed) => return Err(Stop::Source),
    };
    let found = judged(alloc, frames.name(i), &buffer[..count])?;
    match say(report, found.line.as_bytes()) {
        Ok(()) => Ok(found.refused),
        Err(fault) => Err(Stop::of_report(fault)),
    }
}

/// Room for the bytes that are read of a file: one more than a codestream may have.
fn room(alloc: Global) -> Result<Vec<u8>, AllocError>
    ensures { IfOk result (λ buffer. length buffer.items ≡ frame_limit + 1) }
{
    let most = Profile::FourK.limit(Budget::Frame) as usize;
    vec![in alloc; 0; most + 1]
}

/// Lists the files and visits them in order. Returns whether any is refused.
pub fn check_files<F: Frames, S: Report>(
    alloc: Global,
    frames: &mut F,
    report: &mut S,
) -> Result<bool, Stop>
    requires unlisted { (F.source frames.old).is_listed ≡ false }
    requires source_working { F.has_failed frames.old ≡ false }
    requires report_working { S.has_failed report.old ≡ false }
    requires said { ForSome (S.said report.old) (λ said. said ≡ []) }
    ensures files { (F.source frames.new).files ≡ (F.source frames.old).files }
    ensures listed { OnOk result (IfSome (F.source frames.new).files
        (λ files. (F.source frames.new).names ≡ map (λ file. file.name) files)) }
    ensures ok { IfOk result (λ refused. FramesVisited RightCheckByName RightCheck
        (F.source frames.new) (length (F.source frames.new).names) None None
        (S.said report.old) (S.said report.new) refused) }
    ensures err { OnErr result (FramesBrokeOff RightCheckByName RightCheck
        (F.source frames.new) (F.reading frames.new).asked None None
        (S.said report.old) (S.said report.new)) }
    ensures source_failed { F.has_failed frames.new ≡ is_source_stop result }
    ensures no_outputs { is_outputs_stop result ≡ false }
    ensures report_failed { S.has_failed report.new ≡ is_report_stop result }
{
    let mut buffer = room(alloc)?;
    match frames.list() {
        Ok(()) => {}
        Err(fault) => return Err(Stop::of_source(fault)),
    }
    let bytes = buffer.as_mut_slice();
    let mut refused = false;
    for i in 0..frames.count() {
        let is_refused = check_file(alloc, i, bytes, frames, report)?;
        refused = either(refused, is_refused);
    }
    Ok(refused)
}
