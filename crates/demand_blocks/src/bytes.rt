// The bytes that are kept of a block, and the buffer to which passes are coded.
ghost use Rattle.std.specs.Prelude.{ℕ, ◌≡◌, ◌≤◌, ◌++◌, Bool, List, IsTrue, IfOk, length, drop};
ghost use Rattle.mq_coder.specs.Code.{code};
ghost use Rattle.mq_coder.specs.Mark.{IsMarkOf, kept_at};

use mq_coder::{Mark, ending};
use std::alloc::AllocError;

// Copies bytes to the beginning of a buffer.
pub(crate) fn copy_to(bytes: &[u8], buffer: &mut [u8])
    requires { length bytes.now ≤ length buffer.old }
    ensures { buffer.new ≡ bytes.now ++ drop (length bytes.now) buffer.old }
{
    buffer[..bytes.len()].copy_from_slice(bytes);
}

// Keeps other bytes. Where memory for them is missing it returns false, and none are kept.
pub(crate) fn keep(bytes: &mut Vec<u8>, other: &[u8]) -> bool
    ensures kept { IsTrue result → bytes.new.items ≡ other.now }
    ensures short { length bytes.new.items ≤ length other.now }
{
    bytes.clear();
    bytes.extend_from_slice(other).is_ok()
}

// Appends the ended code at a mark beside its bytes. The only refusal is out of memory.
pub(crate) fn push_ended(mark: &Mark, bytes: &[u8], out: &mut Vec<u8>) -> Result<(), AllocError>
    requires { kept_at mark.now ≤ length bytes.now }
    ensures { IfOk result (λ _. (symbols : List (ℕ × Bool)) →
        IsMarkOf mark.now bytes.now symbols → out.new.items ≡ out.old.items ++ code symbols) }
{
    let end = ending(mark);
    out.extend_from_slice(&bytes[..end.kept as usize])?;
    out.extend_from_slice(end.tail.as_slice())?;
    Ok(())
}
