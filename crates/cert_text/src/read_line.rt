// The line of a codestream that was read.
ghost use Rattle.std.specs.Prelude.{◌≡◌, IfOk, string_bytes};
ghost use Rattle.cert_text.specs.Lines.{read_field, inner_field, read_fields, read_start, read_line};

use crate::head::head;
use crate::words::budget_word;
use budget_duals::Held;
use cine_nums::{Budget, Profile};
use std::alloc::{AllocError, Global};

/// What a codestream that was read holds: its profile, its width and height in samples, its levels
/// of the wavelet transform, its bytes in each budget, how many blocks have at least one coding
/// pass, and how many passes there are.
#[derive(Clone, Copy, Debug, PartialEq, Eq)]
pub struct ReadLine {
    pub profile: Profile,
    pub width: u32,
    pub height: u32,
    pub levels: u8,
    pub held: Held,
    pub blocks: u32,
    pub passes: u64,
}

/// A budget: the bytes held of it.
fn read_field(alloc: Global, budget: Budget, held: u32) -> Result<String, AllocError>
    ensures { IfOk result (λ text. string_bytes text ≡ read_field budget held) }
{
    let word = budget_word(budget);
    format!(in alloc; " {word}={held}")
}

/// The inner budget, which 4K alone has.
fn inner_field(alloc: Global, profile: Profile, held: u32) -> Result<String, AllocError>
    ensures { IfOk result (λ text. string_bytes text ≡ inner_field profile held) }
{
    match profile {
        Profile::TwoK => Ok(String::new(alloc)),
        Profile::FourK => read_field(alloc, Budget::Inner, held),
    }
}

/// The budgets, the outermost first.
fn read_fields(alloc: Global, profile: Profile, held: &Held) -> Result<String, AllocError>
    ensures { IfOk result (λ text. string_bytes text ≡ read_fields profile held.now) }
{
    let frame = read_field(alloc, Budget::Frame, held.bytes(Budget::Frame))?;
    let inner = inner_field(alloc, profile, held.bytes(Budget::Inner))?;
    let c0 = read_field(alloc, Budget::C0, held.bytes(Budget::C0))?;
    let c1 = read_field(alloc, Budget::C1, held.bytes(Budget::C1))?;
    let c2 = read_field(alloc, Budget::C2, held.bytes(Budget::C2))?;
    format!(in alloc; "{frame}{inner}{c0}{c1}{c2}")
}

/// How the line begins: name, profile, size, levels, and the bytes held.
fn read_start(alloc: Global, name: &str, line: &ReadLine) -> Result<String, AllocError>
    ensures { IfOk result (λ text. string_bytes text ≡ read_start name.now line.now) }
{
    let head = head(alloc, "read", name, line.profile, line.width, line.height)?;
    let levels = line.levels;
    let held = read_fields(alloc, line.profile, &line.held)?;
    format!(in alloc; "{head} levels={levels}{held}")
}

/// The line of a codestream of this name that was read, with its LF.
pub fn write_read(alloc: Global, name: &str, line: &ReadLine) -> Result<String, AllocError>
    ensures { IfOk result (λ text. string_bytes text ≡ read_line name.now line.now) }
{
    let start = read_start(alloc, name, line)?;
    let (blocks, passes) = (line.blocks, line.passes);
    format!(in alloc; "{start} blocks={blocks} passes={passes}\n")
}
