// Whole pieces through ports that move a part at a time.
ghost use Rattle.std.specs.Prelude.{[], false, is_err, ◌≡◌, ◌<◌, ◌≤◌, ◌++◌, ℕ, length, take};
ghost use Rattle.std.specs.Prelude.{option_map, IsTrue, IsSome, IfOk, OnOk, OnErr};
ghost use Rattle.cine_ports.specs.Failure.{is_failed};
ghost use Rattle.cine_ports.specs.Outputs.{with_more};
ghost use Rattle.cine_ports.specs.WholePieces.{IsSuffixOf, WroteProperPrefix, SaidProperPrefix};
ghost use Rattle.cine_ports.specs.WholePieces.{said_with};

use crate::{Failed, Frames, Outputs, PortFault, Report};

/// Reads the begun frame until the buffer is full or the frame ends, and returns how many bytes.
///
/// The count is below the buffer's length only if the frame has ended. The call fails exactly if a
/// read failed; the buffer may hold anything then, and what is left is a suffix of what was left.
pub fn read_fully<F: Frames>(frames: &mut F, buf: &mut [u8]) -> Result<usize, Failed>
    requires working { F.has_failed frames.old ≡ false }
    requires begun { IsTrue (F.reading frames.old).is_begun }
    ensures count { IfOk result (λ n. n ≤ length buf.new) }
    ensures moved { IfOk result (λ n. IsSome (F.source frames.old).files →
        (F.reading frames.old).left ≡ take n buf.new ++ (F.reading frames.new).left) }
    ensures end { IfOk result (λ n. IsSome (F.source frames.old).files →
        n < length buf.new → (F.reading frames.new).left ≡ []) }
    ensures err { OnErr result (IsSome (F.source frames.old).files →
        IsSuffixOf (F.reading frames.new).left (F.reading frames.old).left) }
    ensures begun { IsTrue (F.reading frames.new).is_begun }
    ensures asked { (F.reading frames.new).asked ≡ (F.reading frames.old).asked }
    ensures source { F.source frames.new ≡ F.source frames.old }
    ensures failed { F.has_failed frames.new ≡ is_err result }
{
    let mut done = 0;
    while done < buf.len() {
        let n = frames.read(&mut buf[done..])?;
        if n == 0 {
            return Ok(done);
        }
        done += n;
    }
    Ok(done)
}

/// Appends a whole piece to the unfinished file.
///
/// The call fails exactly if a write failed. After an error a proper prefix of the piece is
/// appended.
pub fn write_all<O: Outputs>(outputs: &mut O, piece: &[u8]) -> Result<(), PortFault>
    requires working { O.has_failed outputs.old ≡ false }
    requires open { IsTrue (O.is_open outputs.old) }
    ensures ok { OnOk result
        (O.kept outputs.new ≡ option_map (with_more piece.now) (O.kept outputs.old)) }
    ensures err { OnErr result (WroteProperPrefix piece.now (O.kept outputs.old)
        (O.kept outputs.new)) }
    ensures open { IsTrue (O.is_open outputs.new) }
    ensures failed { O.has_failed outputs.new ≡ is_failed result }
{
    let mut done = 0;
    while done < piece.len() {
        done += outputs.write(&piece[done..])?;
    }
    Ok(())
}

/// Appends a whole piece to a report.
///
/// The call fails exactly if a write failed. After an error a proper prefix of the piece is
/// appended.
pub fn say<S: Report>(report: &mut S, piece: &[u8]) -> Result<(), PortFault>
    requires { S.has_failed report.old ≡ false }
    ensures ok { OnOk result
        (S.said report.new ≡ option_map (said_with piece.now) (S.said report.old)) }
    ensures err { OnErr result (SaidProperPrefix piece.now (S.said report.old)
        (S.said report.new)) }
    ensures failed { S.has_failed report.new ≡ is_failed result }
{
    let mut done = 0;
    while done < piece.len() {
        done += report.write(&piece[done..])?;
    }
    Ok(())
}
