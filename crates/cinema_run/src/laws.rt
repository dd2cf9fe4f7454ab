// What the promises of a run give together with those of the reader of certificate lines, and those
// of `encode` with those of `check`. A call of a law does nothing and gives the caller its clause.
ghost use Rattle.std.specs.Prelude.{ℕ, ◌≡◌, ◌≢◌, List, []};
ghost use Rattle.cert_text.specs.Lines.{cert_line};
ghost use Rattle.cert_text.specs.Reading.{IsSaid};
ghost use Rattle.cert_text.specs.declared.cert_line.CertLine.{CertLine};
ghost use Rattle.pnm_frames.specs.Picture.{Picture};
ghost use Rattle.frame_encoder.specs.Encoded.{Encoding, Encodes};
ghost use Rattle.frame_encoder.specs.Orders.{AreLimitsFor};
ghost use Rattle.frame_encoder.specs.declared.order.EncodeOrder.{EncodeOrder};
ghost use Rattle.cinema_run.specs.Arguments.{IsEncode};
ghost use Rattle.cinema_run.specs.ReportLine.{IsCertOf};
ghost use Rattle.cinema_run.specs.Right.{IsAccepted};
ghost use Rattle.cinema_run.specs.RightCheck.{IsReadable, RightCheck};
ghost use Rattle.cinema_run.specs.Visit.{Visit};

/// The line of an encoding under a name that isn't empty says no more than a certificate line may
/// (`line`), and so does that of a frame that a command's run accepted, whose text the visit has
/// (`visit`). So `read_cert` of cert_text reads this text, of fewer than 2^32 bytes, and with its
/// values.
pub fn said_lines()
    ensures line { (order : EncodeOrder) (name : List ℕ) (p : Picture) (e : Encoding)
        (says : CertLine) → AreLimitsFor order.profile order.limits → Encodes order p e →
        IsCertOf order name p e says → name ≢ [] → IsSaid says }
    ensures visit { (words : List (List ℕ)) (order : EncodeOrder) (suffix name : List ℕ)
        (p : Picture) (visit : Visit) → IsEncode words order →
        (accepted : IsAccepted order suffix name p visit) → name ≢ [] →
        IsSaid accepted.says × (visit.line ≡ cert_line accepted.says) }
{}

/// What a run of the mode `encode` writes is read by one of the mode `check`, under whatever name
/// the file has there: a visit of this file is right only if it is that of a codestream.
pub fn written_is_read()
    ensures { (words : List (List ℕ)) (order : EncodeOrder) (suffix name : List ℕ)
        (p : Picture) (visit : Visit) → IsEncode words order →
        (accepted : IsAccepted order suffix name p visit) → (file : List ℕ) (checked : Visit) →
        RightCheck (record { name = file; bytes = accepted.encoding.bytes }) checked →
        IsReadable file accepted.encoding.bytes checked }
{}
