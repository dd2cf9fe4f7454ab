// A frame that is made from a number, encoded and read back.
ghost use Rattle.std.specs.Prelude.{Option, ◌≡◌, ◌≤◌, [], IfOk, OnOk, OnErr, option_map, false};
ghost use Rattle.std.specs.Prelude.{length, if◌then◌else◌};
ghost use Rattle.std.specs.Option.{ForSome};
ghost use Rattle.cine_nums.specs.Limits.{frame_limit};
ghost use Rattle.cine_ports.specs.Outputs.{Kept, kept_nothing};
ghost use Rattle.cine_ports.specs.WholePieces.{said_with};
ghost use Rattle.demo_frames.specs.Demo.{demo_picture};
ghost use Rattle.cinema_run.specs.Output.{kept_and};
ghost use Rattle.cinema_run.specs.Progress.{VisitBrokeOff};
ghost use Rattle.cinema_run.specs.RightCheck.{IsReadable};
ghost use Rattle.cinema_run.specs.RightDemo.{demo_name, DemoBrokeOff, LeavesDemo};
ghost use Rattle.cinema_run.specs.Stop.{is_outputs_stop, is_report_stop, is_source_stop};
ghost use Rattle.cinema_run.specs.Visit.{Visit};
ghost use Rattle.frame_encoder.specs.Orders.{AreLimitsFor};
ghost use Rattle.frame_reader.specs.Decoded.{IsMeaning};
ghost use Rattle.profile_reader.specs.Reads.{Decoding};

use crate::frame::{encode_and_certify, refuse, write_frame};
use crate::refusal::Refusal;
use crate::stop::Stop;
use crate::verdict::judged;
use cine_ports::{Outputs, Report, say};
use demo_frames::demo_frame;
use frame_encoder::{EncodeOrder, EncodeRefusal};
use std::alloc::Global;

/// Reads a codestream back that means something, and reports what it holds. It is never refused.
fn read_back<S: Report>(alloc: Global, bytes: &[u8], report: &mut S) -> Result<(), Stop>
    requires few { length bytes.now ≤ frame_limit }
    requires readable { (d : Decoding) × IsMeaning bytes.now d }
    requires working { S.has_failed report.old ≡ false }
    ensures ok { OnOk result ((visit : Visit) × IsReadable demo_name bytes.now visit
        × (S.said report.new ≡ option_map (said_with visit.line) (S.said report.old))) }
    ensures err { (kept : Option Kept) → OnErr result
        (VisitBrokeOff (IsReadable demo_name bytes.now)
        (option_map (kept_and []) kept) (option_map (kept_and []) kept) (S.said report.old)
        (S.said report.new)) }
    ensures no_source { is_source_stop result ≡ false }
    ensures no_outputs { is_outputs_stop result ≡ false }
    ensures report_failed { S.has_failed report.new ≡ is_report_stop result }
{
    let found = judged(alloc, "demo", bytes)?;
    match say(report, found.line.as_bytes()) {
        Ok(()) => Ok(()),
        Err(fault) => Err(Stop::of_report(fault)),
    }
}

/// Makes the frame of a number, encodes it as the order asks for it, writes its codestream under
/// the name `demo.j2c` and reports its certificate line, and then reads the codestream back and
/// reports what it holds. Where a limit is too small for the frame, reports that alone. Returns
/// whether it is refused.
pub fn demonstrate<O: Outputs, S: Report>(
    alloc: Global,
    number: u32,
    order: &EncodeOrder,
    outputs: &mut O,
    report: &mut S,
) -> Result<bool, Stop>
    requires limits { AreLimitsFor order.now.profile order.now.limits }
    requires outputs_working { O.has_failed outputs.old ≡ false }
    requires report_working { S.has_failed report.old ≡ false }
    requires closed { O.is_open outputs.old ≡ false }
    requires kept { ForSome (O.kept outputs.old) (λ kept. kept ≡ kept_nothing) }
    requires said { ForSome (S.said report.old) (λ said. said ≡ []) }
    ensures ok { IfOk result (λ refused. LeavesDemo order.now
        (demo_picture number order.now.profile) (O.kept outputs.new) (S.said report.new)
        (if refused then 1 else 0)) }
    ensures err { OnErr result (DemoBrokeOff order.now
        (demo_picture number order.now.profile) (O.kept outputs.new) (S.said report.new)) }
    ensures no_source { is_source_stop result ≡ false }
    ensures outputs_failed { O.has_failed outputs.new ≡ is_outputs_stop result }
    ensures report_failed { S.has_failed report.new ≡ is_report_stop result }
{
    let frame = demo_frame(alloc, number, order.profile)?;
    match encode_and_certify(alloc, order, "demo", &frame) {
        Ok((codestream, says)) => {
            let bytes = codestream.as_slice();
            write_frame(alloc, ".j2c", "demo", bytes, &says, outputs, report)?;
            read_back(alloc, bytes, report)?;
            Ok(false)
        }
        Err(refusal) => match refusal {
            EncodeRefusal::LimitTooSmall(budget, needed) => {
                refuse(alloc, "demo", Refusal::Limit(budget, needed), report)?;
                Ok(true)
            }
            EncodeRefusal::Memory => Err(Stop::Memory),
        },
    }
}
