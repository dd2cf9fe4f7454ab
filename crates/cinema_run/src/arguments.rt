// What the words after the program's name order.
ghost use Rattle.std.specs.Prelude.{IfNone, IfOk, IfSome};
ghost use Rattle.command_words.specs.Taken.{texts};
ghost use Rattle.cinema_run.specs.Arguments.{AreCommand, AreFoldersOf, IsOrder};

use command_words::{check_words, demo_words, encode_words};
use frame_encoder::EncodeOrder;
use std::alloc::{AllocError, Global};

/// What the words order.
#[derive(Clone, Copy, Debug)]
pub enum Order {
    /// To encode frames: with which profile, within which limits.
    Encode(EncodeOrder),
    /// To check codestreams.
    Check,
    /// To encode the frame of a number, and to read it back: with which profile, within which
    /// limits.
    Demo(u32, EncodeOrder),
}

/// The folders that the words name, and the suffix of the files that are read.
#[derive(Debug, Drop)]
pub struct FolderWords {
    /// The folder of the files that are read, if the command reads any.
    pub source: Option<String>,
    /// The folder of the codestreams, if the command writes one.
    pub target: Option<String>,
    /// The suffix of the files in the source folder.
    pub suffix: String,
}

/// What the words order: None exactly if they are no command.
pub fn order_of(alloc: Global, words: &[String]) -> Result<Option<Order>, AllocError>
    ensures no_command { IfOk result (λ found. IfNone found (AreCommand (texts words.now) → ⊥)) }
    ensures command { IfOk result (λ found. IfSome found
        (λ order. IsOrder (texts words.now) order)) }
{
    if let Some(named) = encode_words(alloc, words)? {
        return Ok(Some(Order::Encode(EncodeOrder {
            profile: named.profile,
            limits: named.limits,
        })));
    }
    if let Some(_) = check_words(alloc, words)? {
        return Ok(Some(Order::Check));
    }
    match demo_words(alloc, words)? {
        Some(demo) => {
            let order = EncodeOrder {
                profile: demo.profile,
                limits: demo.limits,
            };
            Ok(Some(Order::Demo(demo.number, order)))
        }
        None => Ok(None),
    }
}

/// The folders that the words name: None exactly if the words are no command.
pub fn places(alloc: Global, words: &[String]) -> Result<Option<FolderWords>, AllocError>
    ensures no_command { IfOk result (λ found. IfNone found (AreCommand (texts words.now) → ⊥)) }
    ensures command { IfOk result (λ found. IfSome found
        (λ folders. AreFoldersOf (texts words.now) folders)) }
{
    if let Some(named) = encode_words(alloc, words)? {
        return Ok(Some(FolderWords {
            source: Some(String::from_str(alloc, named.source)?),
            target: Some(String::from_str(alloc, named.target)?),
            suffix: String::from_str(alloc, ".ppm")?,
        }));
    }
    if let Some(named) = check_words(alloc, words)? {
        return Ok(Some(FolderWords {
            source: Some(String::from_str(alloc, named.source)?),
            target: None,
            suffix: String::from_str(alloc, ".j2c")?,
        }));
    }
    match demo_words(alloc, words)? {
        Some(_) => Ok(Some(FolderWords {
            source: None,
            target: None,
            suffix: String::from_str(alloc, "")?,
        })),
        None => Ok(None),
    }
}
