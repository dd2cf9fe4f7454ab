// What is written and reported of one frame.
ghost use Rattle.std.specs.Prelude.{Option, ◌≡◌, ◌≤◌, ◌++◌, Ok, Err, [], None, false, map};
ghost use Rattle.std.specs.Prelude.{ℕ, List, option_map, is_some, Contains, OnOk, OnErr};
ghost use Rattle.std.specs.Prelude.{IfOk, string_bytes};
ghost use Rattle.std.specs.Option.{ForSome};
ghost use Rattle.cine_nums.specs.Limits.{has_inner};
ghost use Rattle.cine_nums.specs.declared.budget.Budget.{Budget};
ghost use Rattle.cine_nums.specs.Profile.{max_height_of, max_width_of};
ghost use Rattle.cine_ports.specs.WholePieces.{said_with};
ghost use Rattle.cine_ports.specs.Outputs.{Kept};
ghost use Rattle.pnm_frames.specs.View.{picture_of};
ghost use Rattle.frame_encoder.specs.Orders.{AreLimitsFor};
ghost use Rattle.frame_encoder.specs.Refused.{IsTooSmall};
ghost use Rattle.frame_encoder.specs.declared.refusal.EncodeRefusal.TheVariants.{LimitTooSmall};
ghost use Rattle.cinema_run.specs.Output.{kept_and};
ghost use Rattle.cinema_run.specs.Stop.{is_outputs_stop, is_report_stop, is_source_stop};
ghost use Rattle.cinema_run.specs.Visit.{Visit, outputs_of};
ghost use Rattle.cinema_run.specs.Right.{accepted, refused, IsAccepted, RightFor};
ghost use Rattle.cinema_run.specs.Progress.{VisitBrokeOff};

use crate::output::write_output;
use crate::refusal::Refusal;
use crate::report_line::{certified, refused_line};
use crate::stop::Stop;
use cert_text::{CertLine, write_cert};
use cine_ports::{Outputs, Report, say};
use frame_encoder::{EncodeOrder, EncodeRefusal, encode};
use pnm_frames::Frame;
use std::alloc::{AllocError, Global};

/// The name of a frame's output.
fn output_name(alloc: Global, name: &str, suffix: &str) -> Result<String, AllocError>
    ensures { IfOk result (λ text. string_bytes text ≡ name.now ++ suffix.now) }
{
    format!(in alloc; "{name}{suffix}")
}

/// The codestream of a frame as the order asks for it, and what its certificate line says.
pub fn encode_and_certify(
    alloc: Global,
    order: &EncodeOrder,
    name: &str,
    frame: &Frame,
) -> Result<(Vec<u8>, CertLine), EncodeRefusal>
    requires some_width { 1 ≤ frame.now.width }
    requires width { frame.now.width ≤ max_width_of order.now.profile }
    requires some_height { 1 ≤ frame.now.height }
    requires height { frame.now.height ≤ max_height_of order.now.profile }
    requires limits { AreLimitsFor order.now.profile order.now.limits }
    ensures accepted { IfOk result (λ found. (suffix : List ℕ) →
        IsAccepted order.now suffix name.now (picture_of frame.now)
        (accepted (name.now ++ suffix) found.0.items found.1)) }
    ensures budgets { IfOk result (λ found.
        is_some found.1.limits.inner ≡ has_inner found.1.profile) }
    ensures too_small { (budget : Budget) (needed : ℕ) →
        result ≡ Err (LimitTooSmall budget needed) →
        IsTooSmall order.now (picture_of frame.now) budget needed }
{
    let made = encode(alloc, frame, order)?;
    let (bytes, says) = certified(alloc, order, name, frame, made)?;
    Ok((bytes, says))
}

/// Writes the codestream of a frame under its name and the suffix, and then reports its certificate
/// line.
pub fn write_frame<O: Outputs, S: Report>(
    alloc: Global,
    suffix: &str,
    name: &str,
    bytes: &[u8],
    says: &CertLine,
    outputs: &mut O,
    report: &mut S,
) -> Result<(), Stop>
    requires budgets { is_some says.now.limits.inner ≡ has_inner says.now.profile }
    requires outputs_working { O.has_failed outputs.old ≡ false }
    requires report_working { S.has_failed report.old ≡ false }
    requires closed { O.is_open outputs.old ≡ false }
    requires at_rest { ForSome (O.kept outputs.old) (λ kept. kept.unfinished ≡ None) }
    requires other_name { ForSome (O.kept outputs.old)
        (λ kept. ¬ Contains (map (λ file. file.name) kept.finished) (name.now ++ suffix.now)) }
    ensures kept { OnOk result (O.kept outputs.new ≡ option_map
        (kept_and (outputs_of (accepted (name.now ++ suffix.now) bytes.now says.now)))
        (O.kept outputs.old)) }
    ensures said { OnOk result (S.said report.new ≡ option_map
        (said_with (accepted (name.now ++ suffix.now) bytes.now says.now).line)
        (S.said report.old)) }
    ensures closed { OnOk result (O.is_open outputs.new ≡ false) }
    ensures err { OnErr result (VisitBrokeOff
        (λ visit. visit ≡ accepted (name.now ++ suffix.now) bytes.now says.now)
        (O.kept outputs.old) (O.kept outputs.new) (S.said report.old) (S.said report.new)) }
    ensures no_source { is_source_stop result ≡ false }
    ensures outputs_failed { O.has_failed outputs.new ≡ is_outputs_stop result }
    ensures report_failed { S.has_failed report.new ≡ is_report_stop result }
{
    let output = output_name(alloc, name, suffix)?;
    let line = write_cert(alloc, says)?;
    match write_output(outputs, output.as_str(), bytes) {
        Ok(()) => {}
        Err(fault) => return Err(Stop::of_outputs(fault)),
    }
    match say(report, line.as_bytes()) {
        Ok(()) => Ok(()),
        Err(fault) => Err(Stop::of_report(fault)),
    }
}

/// Encodes a frame as the order asks for it, writes its codestream and then reports its certificate
/// line. Where a limit is too small for it, reports that. Returns whether it is refused.
pub fn visit_picture<O: Outputs, S: Report>(
    alloc: Global,
    order: &EncodeOrder,
    suffix: &str,
    name: &str,
    frame: &Frame,
    outputs: &mut O,
    report: &mut S,
) -> Result<bool, Stop>
    requires some_width { 1 ≤ frame.now.width }
    requires width { frame.now.width ≤ max_width_of order.now.profile }
    requires some_height { 1 ≤ frame.now.height }
    requires height { frame.now.height ≤ max_height_of order.now.profile }
    requires limits { AreLimitsFor order.now.profile order.now.limits }
    requires outputs_working { O.has_failed outputs.old ≡ false }
    requires report_working { S.has_failed report.old ≡ false }
    requires closed { O.is_open outputs.old ≡ false }
    requires at_rest { ForSome (O.kept outputs.old) (λ kept. kept.unfinished ≡ None) }
    requires other_name { ForSome (O.kept outputs.old)
        (λ kept. ¬ Contains (map (λ file. file.name) kept.finished) (name.now ++ suffix.now)) }
    ensures ok { IfOk result (λ refused. (visit : Visit)
        × RightFor order.now suffix.now name.now (Ok (picture_of frame.now)) visit
        × (O.kept outputs.new ≡ option_map (kept_and (outputs_of visit)) (O.kept outputs.old))
        × (S.said report.new ≡ option_map (said_with visit.line) (S.said report.old))
        × (refused ≡ visit.refused)) }
    ensures closed { OnOk result (O.is_open outputs.new ≡ false) }
    ensures err { OnErr result
        (VisitBrokeOff (RightFor order.now suffix.now name.now (Ok (picture_of frame.now)))
        (O.kept outputs.old) (O.kept outputs.new) (S.said report.old) (S.said report.new)) }
    ensures no_source { is_source_stop result ≡ false }
    ensures outputs_failed { O.has_failed outputs.new ≡ is_outputs_stop result }
    ensures report_failed { S.has_failed report.new ≡ is_report_stop result }
{
    match encode_and_certify(alloc, order, name, frame) {
        Ok((bytes, says)) => {
            write_frame(
                alloc,
                suffix,
                name,
                bytes.as_slice(),
                &says,
                outputs,
                report,
            )?;
            Ok(false)
        }
        Err(refusal) => match refusal {
            EncodeRefusal::LimitTooSmall(budget, needed) => {
                refuse(alloc, name, Refusal::Limit(budget, needed), report)?;
                Ok(true)
            }
            EncodeRefusal::Memory => Err(Stop::Memory),
        },
    }
}

/// Reports the line of a frame that is refused.
pub fn refuse<S: Report>(
    alloc: Global,
    name: &str,
    refusal: Refusal,
    report: &mut S,
) -> Result<(), Stop>
    requires { S.has_failed report.old ≡ false }
    ensures ok { OnOk result (S.said report.new
        ≡ option_map (said_with (refused name.now refusal).line) (S.said report.old)) }
    ensures err { (kept : Option Kept) → OnErr result
        (VisitBrokeOff (λ visit. visit ≡ refused name.now refusal)
        (option_map (kept_and []) kept) (option_map (kept_and []) kept) (S.said report.old)
        (S.said report.new)) }
    ensures no_source { is_source_stop result ≡ false }
    ensures no_outputs { is_outputs_stop result ≡ false }
    ensures report_failed { S.has_failed report.new ≡ is_report_stop result }
{
    let line = refused_line(alloc, name, refusal)?;
    match say(report, line.as_bytes()) {
        Ok(()) => Ok(()),
        Err(fault) => Err(Stop::of_report(fault)),
    }
}
