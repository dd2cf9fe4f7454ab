// How the line of a frame begins.
ghost use Rattle.std.specs.Prelude.{◌≡◌, IfOk, string_bytes};
ghost use Rattle.cert_text.specs.Lines.{head};

use crate::escaping::escaped;
use crate::words::profile_word;
use cine_nums::Profile;
use std::alloc::{AllocError, Global};

/// How the line of a frame begins: a word, the frame's name, its profile, and its width and height
/// in samples.
pub fn head(
    alloc: Global,
    word: &str,
    name: &str,
    profile: Profile,
    width: u32,
    height: u32,
) -> Result<String, AllocError>
    ensures { IfOk result (λ text. string_bytes text
        ≡ head word.now name.now profile width height) }
{
    let name = escaped(alloc, name)?;
    let profile = profile_word(profile);
    format!(in alloc; "{word} {name} {profile} {width}x{height}")
}
