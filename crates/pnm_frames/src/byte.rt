// One byte of the begun frame.
ghost use Rattle.std.specs.Prelude.{◌≡◌, false, is_err, ◌∷◌, [], IsTrue, IsSome, IfOk, MatchOption};
ghost use Rattle.pnm_frames.specs.Keeps.{ReadsOn};

use cine_ports::{Failed, Frames};

/// The next byte of the begun frame, and None where it has ended.
pub fn read_byte<F: Frames>(f: &mut F) -> Result<Option<u8>, Failed>
    requires working { F.has_failed f.old ≡ false }
    requires begun { IsTrue (F.reading f.old).is_begun }
    ensures next { IfOk result (λ byte. IsSome (F.source f.old).files →
        MatchOption byte ((F.reading f.old).left ≡ [])
        (λ b. (F.reading f.old).left ≡ b ∷ (F.reading f.new).left)) }
    ensures keeps { ReadsOn (F.source f.old) (F.source f.new) (F.reading f.old) (F.reading f.new) }
    ensures failed { F.has_failed f.new ≡ is_err result }
{
    let mut buf = [0u8; 1];
    if f.read(&mut buf)? == 0 {
        return Ok(None);
    }
    Ok(Some(buf[0]))
}
