// What is reported of one file that is checked.
ghost use Rattle.std.specs.Prelude.{◌+◌, ◌≡◌, ◌<◌, ◌≤◌, ◌^◌, count_by, length, ltb, sum_by};
ghost use Rattle.std.specs.Prelude.{IfOk, string_bytes};
ghost use Rattle.cine_nums.specs.Limits.{frame_limit};
ghost use Rattle.frame_reader.specs.Decoded.{decoding_of};
ghost use Rattle.cinema_run.specs.RightCheck.{read_of, reported, RightCheckFor};

use crate::stream_refused::stream_refused_line;
use cert_text::{ReadLine, write_read};
use codestream_reader::ReadRefusal;
use frame_reader::{BlockRead, Decoded, read};
use std::alloc::{AllocError, Global};

/// The line of a file, and whether the file is refused.
#[derive(Debug, Drop)]
pub struct Verdict {
    pub line: String,
    pub refused: bool,
}

/// How many code-blocks are included.
fn included(blocks: &[BlockRead]) -> u32
    requires { length blocks.now < 2 ^ 32 }
    ensures { result ≡ count_by (λ block. ltb 0 block.passes) blocks.now }
{
    let mut count = 0;
    for block in blocks {
        if block.passes > 0 {
            count += 1;
        }
    }
    count
}

/// How many coding passes there are of all code-blocks together.
fn pass_count(blocks: &[BlockRead]) -> u64
    requires { length blocks.now < 2 ^ 32 }
    ensures { result ≡ sum_by (λ block. block.passes) blocks.now }
{
    let mut count = 0;
    for block in blocks {
        count += u64::from(block.passes);
    }
    count
}

/// What the line of a codestream says that is decoded so.
fn says(decoded: &Decoded) -> ReadLine
    requires { length decoded.now.blocks.items < 2 ^ 32 }
    ensures { result ≡ read_of (decoding_of decoded.now) decoded.now.held }
{
    let blocks = decoded.blocks.as_slice();
    ReadLine {
        profile: decoded.main.profile,
        width: decoded.main.width,
        height: decoded.main.height,
        levels: decoded.main.levels,
        held: decoded.held,
        blocks: included(blocks),
        passes: pass_count(blocks),
    }
}

/// What is reported of a file with this name and these first bytes: what they hold if they are a
/// codestream within all byte limits of its profile, else their first fault.
pub fn judged(alloc: Global, name: &str, bytes: &[u8]) -> Result<Verdict, AllocError>
    requires { length bytes.now ≤ frame_limit + 1 }
    ensures { IfOk result (λ found.
        RightCheckFor name.now bytes.now (reported (string_bytes found.line) found.refused)) }
{
    match read(alloc, bytes) {
        Ok(decoded) => Ok(Verdict {
            line: write_read(alloc, name, &says(&decoded))?,
            refused: false,
        }),
        Err(refusal) => match refusal {
            ReadRefusal::Memory => Err(AllocError),
            _ => Ok(Verdict {
                line: stream_refused_line(alloc, name, refusal)?,
                refused: true,
            }),
        },
    }
}
