// The lines of the report.
ghost use Rattle.std.specs.Prelude.{◌≡◌, ◌<◌, ◌^◌, length, sum, is_some, IfOk, string_bytes};
ghost use Rattle.cine_nums.specs.Limits.{has_inner};
ghost use Rattle.pnm_frames.specs.View.{picture_of};
ghost use Rattle.frame_encoder.specs.Encoded.{encoding_of};
ghost use Rattle.frame_encoder.specs.Orders.{AreLimitsFor};
ghost use Rattle.cinema_run.specs.Refused.{refused_line};
ghost use Rattle.cinema_run.specs.ReportLine.{IsCertOf};

use crate::refusal::Refusal;
use crate::widths::widths;
use cert_text::{CertLine, RefusedLine, write_refused};
use frame_encoder::{EncodeOrder, Encoded};
use pnm_frames::Frame;
use std::alloc::{AllocError, Global};

/// The sum of a choice: how many coding passes there are of all code-blocks together.
fn pass_count(choice: &[u8]) -> u64
    requires { length choice.now < 2 ^ 32 }
    ensures { result ≡ sum choice.now }
{
    let mut count = 0;
    for passes in choice {
        count += u64::from(*passes);
    }
    count
}

/// The codestream of a frame that was encoded as the order asks for it, and what its certificate
/// line says.
pub fn certified(
    alloc: Global,
    order: &EncodeOrder,
    name: &str,
    frame: &Frame,
    made: Encoded,
) -> Result<(Vec<u8>, CertLine), AllocError>
    requires few { length made.choice.items < 2 ^ 32 }
    requires limits { AreLimitsFor order.now.profile order.now.limits }
    ensures bytes { IfOk result (λ found. found.0.items ≡ made.bytes.items) }
    ensures says { IfOk result (λ found.
        IsCertOf order.now name.now (picture_of frame.now) (encoding_of made) found.1) }
    ensures budgets { IfOk result (λ found.
        is_some found.1.limits.inner ≡ has_inner found.1.profile) }
{
    let Encoded {
        bytes,
        choice,
        held,
        empty,
        certificate,
    } = made;
    let says = CertLine {
        name: String::from_str(alloc, name)?,
        profile: order.profile,
        width: frame.width,
        height: frame.height,
        held,
        limits: order.limits,
        passes: pass_count(choice.as_slice()),
        empty,
        certificate,
    };
    widths(&says);
    Ok((bytes, says))
}

/// The line of a frame that is refused.
pub fn refused_line(alloc: Global, name: &str, refusal: Refusal) -> Result<String, AllocError>
    ensures { IfOk result (λ line. string_bytes line ≡ refused_line name.now refusal) }
{
    let line = RefusedLine {
        code: refusal.code(),
        budget: refusal.budget(),
        numbers: refusal.numbers(),
    };
    write_refused(alloc, name, &line)
}
