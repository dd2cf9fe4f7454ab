// The whole run.
ghost use Rattle.std.specs.Prelude.{ℕ, ◌≡◌, ◌≤◌, ◌⊎◌, ◌==◌, if◌then◌else◌, [], false, IfSome};
ghost use Rattle.std.specs.Option.{ForSome};
ghost use Rattle.cine_ports.specs.Outputs.{kept_nothing};
ghost use Rattle.demo_frames.specs.Demo.{demo_picture};
ghost use Rattle.frame_encoder.specs.declared.order.EncodeOrder.{EncodeOrder};
ghost use Rattle.command_words.specs.Check.{AreCheck};
ghost use Rattle.command_words.specs.Demo.{AreDemo, IsDemo};
ghost use Rattle.command_words.specs.Encode.{AreEncode};
ghost use Rattle.command_words.specs.Taken.{texts};
ghost use Rattle.cinema_run.specs.Arguments.{codestream_suffix, AreCommand, IsEncode};
ghost use Rattle.cinema_run.specs.Right.{Right, RightByName};
ghost use Rattle.cinema_run.specs.RightCheck.{RightCheck, RightCheckByName};
ghost use Rattle.cinema_run.specs.RightDemo.{DemoBrokeOff, LeavesDemo};
ghost use Rattle.cinema_run.specs.Run.{Leaves, AreShort, RunBrokeOff};

use crate::arguments::{Order, order_of};
use crate::check::check_files;
use crate::demo::demonstrate;
use crate::frames::visit_frames;
use cine_ports::{Frames, Outputs, Report};
use std::alloc::{AllocError, Global};

/// The status of a run that visited all frames.
fn visited_status(some_refused: bool) -> u8
    ensures { result ≡ (if some_refused then 1 else 0) }
{
    if some_refused { 1 } else { 0 }
}

/// Encodes each frame of a source, checks each codestream, or encodes a made frame and reads it
/// back.
///
/// In the mode `encode` a frame's codestream goes to the outputs under the frame's name and `.j2c`,
/// and then its certificate line to the report. A frame that is refused has a line alone: its file
/// is no frame, or a limit of the words is too small for its codestream without any coding pass.
///
/// For every accepted frame, unless source, outputs, report or memory fail, `visited` promises (each
/// sentence is the field in brackets, of `Encodes` in frame_encoder/specs/Encoded.antt):
///
/// - The output is a codestream of the named profile, that of the chosen coding passes (`bytes`),
/// - within all byte limits, headers included (`held`, `limits`),
/// - whose decoding gives every coefficient's sign and bits for exactly the chosen passes (`reads`,
///   `decodes`).
/// - No choice of passes whose body bytes fit beside the written headers has a distortion below the
///   chosen one's less the gap (`choice`, `distortion`, `rivals`).
/// - The gap is at most the prices of the refused steps together and 1 (`refused_steps`), and 0
///   where no budget has a multiplier (`no_multiplier`). Each of these steps is the next one of a
///   block of a budget that it would break (`chosen`).
/// - The line prints what is held and its limits, the number of chosen passes, the distortions, the
///   multipliers, the gap and the refused steps of that same encoding (`certifies` of `IsAccepted`
///   in specs/Right.antt, with `IsCertOf` in specs/ReportLine.antt).
///
/// The byte limits are those of the profile, or lower ones where the words have options for them.
///
/// In the mode `check` a file is a codestream of any writer, of which one byte more is read than a
/// codestream may have. `checked` promises: where these bytes mean something, within all byte limits
/// of their profile (`means` of `IsReadable` in specs/RightCheck.antt), the line has what is decoded
/// of them and what they hold; else it has their first fault in reading order, with its place
/// (`fault` of `IsUnreadable`). No call of the outputs is made.
///
/// In the mode `demo` there is one frame, made from the number of the words alone. `demonstrated`
/// promises for it what `visited` does for an accepted or refused frame, with the name `demo`; and
/// where it is written, what `checked` does for a file that can be read, of the output's own bytes
/// (`AreShown` in specs/RightDemo.antt). Reading back is never refused. No call of the source is
/// made.
///
/// Returns the status: 0 where all files were visited and none was refused, 1 where all were and
/// some was, 2 where the words are no command, 3, 4 and 5 where a call of the source, the
/// outputs and the report failed, and 6 where memory ran out. A failed call ends the run at once,
/// and so does out of memory; an object of which a call has failed isn't called again.
#[tactic(auto, using(crate::proofs::Progress::all_visited, crate::proofs::Progress::run_broken, crate::proofs::Limits::visited_short, crate::proofs::Limits::broken_short, crate::proofs::Limits::none_short, crate::proofs::Demonstrated::demonstrated, crate::proofs::Demonstrated::demo_broke_off, crate::proofs::Words::is_command, crate::proofs::Words::demo_is_command, crate::proofs::Words::allowed, crate::proofs::Stops::source_status, crate::proofs::Stops::outputs_status, crate::proofs::Stops::report_status))]
pub fn run<F: Frames, O: Outputs, S: Report>(
    alloc: Global,
    words: &[String],
    frames: &mut F,
    outputs: &mut O,
    report: &mut S,
) -> u8
    requires unlisted { (F.source frames.old).is_listed ≡ false }
    requires source_working { F.has_failed frames.old ≡ false }
    requires outputs_working { O.has_failed outputs.old ≡ false }
    requires report_working { S.has_failed report.old ≡ false }
    requires closed { O.is_open outputs.old ≡ false }
    requires nothing_kept { ForSome (O.kept outputs.old) (λ kept. kept ≡ kept_nothing) }
    requires nothing_said { ForSome (S.said report.old) (λ said. said ≡ []) }
    ensures range { result ≤ 6 }

    // Words that are no command end with 2, unless memory runs out while they are read, and
    // nothing was called then. Words that are one never end with 2.
    ensures command { AreCommand (texts words.now) → result ≡ 2 → ⊥ }
    ensures no_command { (AreCommand (texts words.now) → ⊥) → (result ≡ 2) ⊎ (result ≡ 6) }
    ensures ordered { (result ≡ 2 → ⊥) → (result ≡ 6 → ⊥) → AreCommand (texts words.now) }
    ensures untouched { (AreCommand (texts words.now) → ⊥) →
        (frames.new ≡ frames.old) × (outputs.new ≡ outputs.old) × (report.new ≡ report.old) }

    // Status 0 or 1 of `encode`: every frame has a right visit, with its output and its line, in
    // order, and nothing is unfinished. A visit of an accepted frame is right only if it is that of
    // an encoding with all that is promised above. What is said by the listed names holds of a real
    // folder too, and what is said by the files where they are known.
    ensures visited { AreEncode (texts words.now) → result ≤ 1 →
        (order : EncodeOrder) × IsEncode (texts words.now) order
        × Leaves (RightByName order codestream_suffix) (Right order codestream_suffix)
        (F.source frames.new) (O.kept outputs.new) (S.said report.new) result }

    // Status 3 to 6: the run broke off at the frame that was asked for last.
    ensures stopped { AreEncode (texts words.now) → 3 ≤ result →
        (order : EncodeOrder) × IsEncode (texts words.now) order
        × RunBrokeOff (RightByName order codestream_suffix) (Right order codestream_suffix)
        (F.source frames.new) (F.reading frames.new).asked (O.kept outputs.new)
        (S.said report.new) }

    // The same of `check`, which leaves the outputs alone.
    ensures checked { AreCheck (texts words.now) → result ≤ 1 →
        Leaves RightCheckByName RightCheck (F.source frames.new) (O.kept outputs.new)
        (S.said report.new) result }
    ensures check_stopped { AreCheck (texts words.now) → 3 ≤ result →
        RunBrokeOff RightCheckByName RightCheck (F.source frames.new)
        (F.reading frames.new).asked (O.kept outputs.new) (S.said report.new) }
    ensures check_writes_nothing { AreCheck (texts words.now) → outputs.new ≡ outputs.old }

    // The same of `demo`, which leaves the source alone. Its output is finished before a byte of a
    // line is reported.
    ensures demonstrated { AreDemo (texts words.now) → result ≤ 1 →
        (number : ℕ) × (order : EncodeOrder)
        × IsDemo (texts words.now) number order.profile order.limits
        × LeavesDemo order (demo_picture number order.profile) (O.kept outputs.new)
        (S.said report.new) result }
    ensures demo_stopped { AreDemo (texts words.now) → 3 ≤ result →
        (number : ℕ) × (order : EncodeOrder)
        × IsDemo (texts words.now) number order.profile order.limits
        × DemoBrokeOff order (demo_picture number order.profile) (O.kept outputs.new)
        (S.said report.new) }
    ensures demo_reads_nothing { AreDemo (texts words.now) → frames.new ≡ frames.old }

    // No run changes the source's files.
    ensures files { (F.source frames.new).files ≡ (F.source frames.old).files }

    // Whatever the status, no output is longer than a codestream may be.
    ensures limits { IfSome (O.kept outputs.new) AreShort }

    // An object failed exactly if the status says so. Its failed call was the last one: no trait
    // lets an object be called of which a call has failed.
    ensures source_failed { F.has_failed frames.new ≡ (result == 3) }
    ensures outputs_failed { O.has_failed outputs.new ≡ (result == 4) }
    ensures report_failed { S.has_failed report.new ≡ (result == 5) }
{
    let found = match order_of(alloc, words) {
        Ok(found) => found,
        Err(AllocError) => return 6,
    };
    let Some(order) = found else {
        return 2;
    };
    match order {
        Order::Encode(order) => {
            match visit_frames(alloc, &order, ".j2c", frames, outputs, report) {
                Ok(some_refused) => visited_status(some_refused),
                Err(stop) => stop.status(),
            }
        }
        Order::Check => match check_files(alloc, frames, report) {
            Ok(some_refused) => visited_status(some_refused),
            Err(stop) => stop.status(),
        },
        Order::Demo(number, order) => {
            match demonstrate(alloc, number, &order, outputs, report) {
                Ok(is_refused) => visited_status(is_refused),
                Err(stop) => stop.status(),
            }
        }
    }
}
