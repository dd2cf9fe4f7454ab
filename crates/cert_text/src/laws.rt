// What the contracts of the writer and the reader give together.
ghost use Rattle.std.specs.Prelude.{◌≡◌, ◌<◌, ◌^◌, length, IfOk, IfErr};
ghost use Rattle.cert_text.specs.Lines.{cert_line};
ghost use Rattle.cert_text.specs.Reading.{IsSaid};
ghost use Rattle.cert_text.specs.LineForms.{values_of};
ghost use Rattle.cert_text.specs.declared.cert_refusal.CertRefusal.TheVariants.{Memory};

use crate::cert_line::{CertLine, write_cert};
use crate::cert_reading::read_cert;
use crate::cert_refusal::CertRefusal;
use std::alloc::Global;

/// Writes a certificate line and reads what was written: the same text, and the same values.
///
/// Memory if out of memory; never BadLine.
pub fn read_back(alloc: Global, line: &CertLine) -> Result<CertLine, CertRefusal>
    requires said { IsSaid line.now }
    requires short { length (cert_line line.now) < 2 ^ 32 }
    ensures said { IfOk result (λ read. IsSaid read) }
    ensures text { IfOk result (λ read. cert_line read ≡ cert_line line.now) }
    ensures same { IfOk result (λ read. values_of read ≡ values_of line.now) }
    ensures memory { IfErr result (λ e. e ≡ Memory) }
{
    let text = write_cert(alloc, line)?;
    read_cert(alloc, text.as_bytes())
}
