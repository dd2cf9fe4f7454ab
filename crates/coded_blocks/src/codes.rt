// The bytes of the chosen coding passes of a frame's code-blocks.
ghost use Rattle.std.specs.Prelude.{ℕ, ◌≡◌, ◌<◌, ◌≤◌, length};
ghost use Rattle.coded_blocks.specs.Ends.{end_of, start_of};

use std::alloc::{AllocError, Global};

/// The bytes of the chosen coding passes of a frame's code-blocks, by block number, one block after
/// the other. Those of a block end where `ends` says, and those of the next block begin there.
#[derive(Debug, Drop)]
pub struct ChosenCodes {
    bytes: Vec<u8>,
    ends: Vec<usize>,
    ghost order: { (n : ℕ) → n < length ends.items →
        start_of ends.items n ≤ end_of ends.items n },
    ghost inside: { (n : ℕ) → n < length ends.items →
        end_of ends.items n ≤ length bytes.items },
    ghost whole: { start_of ends.items (length ends.items) ≡ length bytes.items },
}

impl ChosenCodes {
    ghost use Rattle.std.specs.Prelude.{◌+◌, ◌++◌, IfOk, OnOk};
    ghost use Rattle.coded_blocks.specs.Codes.{code_at, code_count};

    /// No block.
    pub fn new(alloc: Global) -> ChosenCodes
        ensures { code_count result ≡ 0 }
    {
        ChosenCodes {
            bytes: Vec::new(alloc),
            ends: Vec::new(alloc),
        }
    }

    /// How many blocks there are.
    pub fn count(&self) -> usize
        ensures { result ≡ code_count self.now }
    {
        self.ends.len()
    }

    /// Takes these bytes for those of the next block. The only refusal is out of memory.
    pub fn push(&mut self, code: &[u8]) -> Result<(), AllocError>
        ensures count { IfOk result (λ _. code_count self.new ≡ code_count self.old + 1) }
        ensures next { IfOk result (λ _. code_at self.new (code_count self.old) ≡ code.now) }
        ensures before { IfOk result (λ _. (n : ℕ) → n < code_count self.old →
            code_at self.new n ≡ code_at self.old n) }
    {
        let kept = self.bytes.len();
        self.bytes.extend_from_slice(code)?;
        let end = self.bytes.len();
        match self.ends.push(end) {
            Ok(()) => Ok(()),
            Err(_) => {
                self.bytes.truncate(kept);
                Err(AllocError)
            }
        }
    }

    /// Appends the bytes of block `n`. The only refusal is out of memory.
    pub fn push_code(&self, n: u32, out: &mut Vec<u8>) -> Result<(), AllocError>
        requires { n < code_count self.now }
        ensures { OnOk result (out.new.items ≡ out.old.items ++ code_at self.now n) }
    {
        let start = self.start(n as usize);
        let end = self.ends[n as usize];
        out.extend_from_slice(&self.bytes.as_slice()[start..end])?;
        Ok(())
    }

    /// Where the bytes of block `n` begin.
    fn start(&self, n: usize) -> usize
        requires { n < code_count self.now }
        ensures { result ≡ start_of self.now.ends.items n }
    {
        if n == 0 {
            return 0;
        }
        self.ends[n - 1]
    }
}
