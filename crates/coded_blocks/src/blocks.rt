// The code-blocks of a frame, joined.
ghost use Rattle.std.specs.Prelude.{◌≡◌, ◌≤◌, ℕ, IfOk, length, []};
ghost use Rattle.std.specs.List.{All};
ghost use Rattle.coded_blocks.specs.Rows.{IsRowIn, KeepAtMost, Grow};

use crate::row::CodedBlock;
use ebcot_passes::{BlockCode, CodedPass};
use std::alloc::{AllocError, Global};

/// The code-blocks of a frame with all their coding passes coded, by block number.
#[derive(Debug, Drop)]
pub struct CodedBlocks {
    pub(crate) rows: Vec<CodedBlock>,
    pub(crate) passes: Vec<CodedPass>,
    pub(crate) bytes: Vec<u8>,
    ghost rows_in: { All (IsRowIn passes.items bytes.items) rows.items },
}

impl CodedBlocks {
    ghost use Rattle.coded_blocks.specs.Coded.{IsJoined};

    /// No block.
    pub(crate) fn new(alloc: Global) -> CodedBlocks
        ensures rows { result.rows.items ≡ [] }
    {
        CodedBlocks {
            rows: Vec::new(alloc),
            passes: Vec::new(alloc),
            bytes: Vec::new(alloc),
        }
    }

    /// Joins a block in a band that has so many bit-planes more: its passes, and the bytes of the
    /// buffer that their code keeps.
    pub(crate) fn join(
        &mut self,
        code: &BlockCode,
        zero_planes: u8,
        buffer: &[u8],
    ) -> Result<(), AllocError>
        requires grow { Grow code.now.passes.items }
        requires inside { KeepAtMost code.now.passes.items (length buffer.now) }
        ensures { IfOk result (λ _. IsJoined code.now zero_planes buffer.now self.old self.new) }
    {
        let row = CodedBlock {
            zero_planes,
            passes: code.passes.len() as u8,
            first: self.passes.len(),
            at: self.bytes.len(),
            start: code.start,
        };
        let kept = kept_bytes(code.passes.as_slice());
        self.passes.extend_from_slice(code.passes.as_slice())?;
        self.bytes.extend_from_slice(&buffer[..kept])?;
        self.rows.push(row)?;
        Ok(())
    }
}

/// How many bytes the code of some of these passes keeps at the most: those that the code of all
/// keeps.
fn kept_bytes(passes: &[CodedPass]) -> usize
    requires { Grow passes.now }
    ensures enough { KeepAtMost passes.now result }
    ensures least { (most : ℕ) → KeepAtMost passes.now most → result ≤ most }
{
    match passes.last() {
        Some(pass) => pass.mark.count.saturating_sub(1) as usize,
        None => 0,
    }
}
