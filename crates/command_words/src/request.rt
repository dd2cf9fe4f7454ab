// Words that ask about the program.
ghost use Rattle.std.specs.Prelude.{◌≡◌};
ghost use Rattle.command_words.specs.Requests.{has_either, is_either, request_of};
ghost use Rattle.command_words.specs.Taken.{texts};

/// What words can ask for.
#[derive(Clone, Copy, Debug, PartialEq, Eq)]
pub enum Request {
    /// How the program is used.
    Help,
    /// Which version it is.
    Version,
}

/// Whether a word is this one or that one.
fn is_either(word: &str, one: &str, other: &str) -> bool
    ensures { result ≡ is_either one.now other.now word.now }
{
    word == one || word == other
}

/// Whether one of the words is this one or that one.
#[tactic(auto, using(crate::proofs::Requests::one_more))]
fn has_either(words: &[String], one: &str, other: &str) -> bool
    ensures { result ≡ has_either one.now other.now (texts words.now) }
{
    let mut found = false;
    for word in words {
        found = found | is_either(word.as_str(), one, other);
    }
    found
}

/// What the words ask for: help where there are none or one is `--help` or `-h`, else the version
/// where one is `--version` or `-V`.
pub fn request_of(words: &[String]) -> Option<Request>
    ensures { result ≡ request_of (texts words.now) }
{
    if words.is_empty() || has_either(words, "--help", "-h") {
        Some(Request::Help)
    } else if has_either(words, "--version", "-V") {
        Some(Request::Version)
    } else {
        None
    }
}
