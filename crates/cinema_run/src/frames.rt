// One frame after the other.
ghost use Rattle.std.specs.Prelude.{◌≡◌, ◌<◌, ◌≤◌, ◌||◌, ◌++◌, ℕ, List, [], false, length, map};
ghost use Rattle.std.specs.Prelude.{slice_get, IfOk, IfSome, OnOk, OnErr, Contains};
ghost use Rattle.std.specs.Option.{ForSome};
ghost use Rattle.cine_nums.specs.Profile.{max_height_of, max_width_of};
ghost use Rattle.cine_nums.specs.declared.profile.Profile.TheVariants.{FourK};
ghost use Rattle.cine_ports.specs.Outputs.{kept_nothing};
ghost use Rattle.frame_encoder.specs.Orders.{AreLimitsFor};
ghost use Rattle.cinema_run.specs.Stop.{is_outputs_stop, is_report_stop, is_source_stop};
ghost use Rattle.cinema_run.specs.Right.{sizes_of, Right, RightByName};
ghost use Rattle.cinema_run.specs.Progress.{FrameVisited, FrameBrokeOff, FramesVisited};
ghost use Rattle.cinema_run.specs.Progress.{FramesBrokeOff};

use crate::frame::{refuse, visit_picture};
use crate::refusal::Refusal;
use crate::stop::Stop;
use cine_nums::Profile;
use cine_ports::{Frames, Outputs, Report};
use frame_encoder::EncodeOrder;
use pnm_frames::{FrameRefusal, SizeLimits, read_frame};
use std::alloc::Global;

/// The size of a profile's largest frame, in samples.
fn sizes_of(profile: Profile) -> SizeLimits
    ensures value { result ≡ sizes_of profile }
    ensures width { result.width ≤ max_width_of FourK }
    ensures height { result.height ≤ max_height_of FourK }
{
    SizeLimits {
        width: profile.max_width(),
        height: profile.max_height(),
    }
}

/// Visits the frame at place `i`: where its file is a frame, encodes it, else reports its first
/// fault. Returns whether it is refused.
fn visit_frame<F: Frames, O: Outputs, S: Report>(
    alloc: Global,
    order: &EncodeOrder,
    suffix: &str,
    i: u32,
    frames: &mut F,
    outputs: &mut O,
    report: &mut S,
) -> Result<bool, Stop>
    requires limits { AreLimitsFor order.now.profile order.now.limits }
    requires place { i < length (F.source frames.old).names }
    requires listed { IfSome (F.source frames.old).files
        (λ files. (F.source frames.old).names ≡ map (λ file. file.name) files) }
    requires source_working { F.has_failed frames.old ≡ false }
    requires outputs_working { O.has_failed outputs.old ≡ false }
    requires report_working { S.has_failed report.old ≡ false }
    requires closed { O.is_open outputs.old ≡ false }
    requires at_rest { ForSome (O.kept outputs.old) (λ kept. kept.unfinished ≡ None) }
    requires other_name { ForSome (O.kept outputs.old) (λ kept. (name : List ℕ) →
        slice_get (F.source frames.old).names i ≡ Some name →
        ¬ Contains (map (λ file. file.name) kept.finished) (name ++ suffix.now)) }
    ensures ok { IfOk result (λ refused. FrameVisited (RightByName order.now suffix.now)
        (Right order.now suffix.now)
        (F.source frames.old) i (O.kept outputs.old) (O.kept outputs.new) (S.said report.old)
        (S.said report.new) refused) }
    ensures closed { OnOk result (O.is_open outputs.new ≡ false) }
    ensures err { OnErr result (FrameBrokeOff (RightByName order.now suffix.now)
        (Right order.now suffix.now)
        (F.source frames.old) i (O.kept outputs.old) (O.kept outputs.new) (S.said report.old)
        (S.said report.new)) }
    ensures source { F.source frames.new ≡ F.source frames.old }
    ensures asked { (F.reading frames.new).asked ≡ i }
    ensures source_failed { F.has_failed frames.new ≡ is_source_stop result }
    ensures outputs_failed { O.has_failed outputs.new ≡ is_outputs_stop result }
    ensures report_failed { S.has_failed report.new ≡ is_report_stop result }
{
    match frames.begin(i) {
        Ok(()) => {}
        Err(fault) => return Err(Stop::of_source(fault)),
    }
    match read_frame(alloc, frames, sizes_of(order.profile)) {
        Ok(frame) => {
            let name = frames.name(i);
            visit_picture(alloc, order, suffix, name, &frame, outputs, report)
        }
        Err(refusal) => match refusal {
            FrameRefusal::Fault(fault) => {
                refuse(alloc, frames.name(i), Refusal::File(fault), report)?;
                Ok(true)
            }
            FrameRefusal::Source => Err(Stop::Source),
            FrameRefusal::Memory => Err(Stop::Memory),
        },
    }
}

/// Whether one or the other holds: a call, so that a loop over files can cite its clause.
pub fn either(one: bool, other: bool) -> bool
    ensures { result ≡ (one || other) }
{
    one || other
}

/// Lists the frames and visits them in order. Returns whether any is refused.
pub fn visit_frames<F: Frames, O: Outputs, S: Report>(
    alloc: Global,
    order: &EncodeOrder,
    suffix: &str,
    frames: &mut F,
    outputs: &mut O,
    report: &mut S,
) -> Result<bool, Stop>
    requires limits { AreLimitsFor order.now.profile order.now.limits }
    requires unlisted { (F.source frames.old).is_listed ≡ false }
    requires source_working { F.has_failed frames.old ≡ false }
    requires outputs_working { O.has_failed outputs.old ≡ false }
    requires report_working { S.has_failed report.old ≡ false }
    requires closed { O.is_open outputs.old ≡ false }
    requires kept { ForSome (O.kept outputs.old) (λ kept. kept ≡ kept_nothing) }
    requires said { ForSome (S.said report.old) (λ said. said ≡ []) }
    ensures files { (F.source frames.new).files ≡ (F.source frames.old).files }
    ensures listed { OnOk result (IfSome (F.source frames.new).files
        (λ files. (F.source frames.new).names ≡ map (λ file. file.name) files)) }
    ensures ok { IfOk result (λ refused. FramesVisited (RightByName order.now suffix.now)
        (Right order.now suffix.now)
        (F.source frames.new) (length (F.source frames.new).names)
        (O.kept outputs.old) (O.kept outputs.new) (S.said report.old) (S.said report.new) refused) }
    ensures err { OnErr result (FramesBrokeOff (RightByName order.now suffix.now)
        (Right order.now suffix.now)
        (F.source frames.new) (F.reading frames.new).asked
        (O.kept outputs.old) (O.kept outputs.new) (S.said report.old) (S.said report.new)) }
    ensures source_failed { F.has_failed frames.new ≡ is_source_stop result }
    ensures outputs_failed { O.has_failed outputs.new ≡ is_outputs_stop result }
    ensures report_failed { S.has_failed report.new ≡ is_report_stop result }
{
    match frames.list() {
        Ok(()) => {}
        Err(fault) => return Err(Stop::of_source(fault)),
    }
    let mut refused = false;
    for i in 0..frames.count() {
        let is_refused = visit_frame(alloc, order, suffix, i, frames, outputs, report)?;
        refused = either(refused, is_refused);
    }
    Ok(refused)
}
