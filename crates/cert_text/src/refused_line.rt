// The line of a file that was refused.
ghost use Rattle.std.specs.Prelude.{◌≡◌, ◌++◌, IfOk, IsSome, string_bytes};
ghost use Rattle.std.specs.List.{flat_map};
ghost use Rattle.cert_text.specs.Refusals.{word_of};
ghost use Rattle.cert_text.specs.Lines.{refused_budget, number_field, refused_start, refused_line};

use crate::escaping::escaped;
use crate::refusals::refusal_word;
use crate::words::budget_word;
use arrayvec::ArrayVec;
use cine_nums::Budget;
use std::alloc::{AllocError, Global};

/// Why a file was refused: the code of the refusal, the budget that it names, if it names one, and
/// its numbers in order.
#[derive(Clone, Debug, Drop)]
pub struct RefusedLine {
    pub code: u8,
    pub budget: Option<Budget>,
    pub numbers: ArrayVec<u64, 2>,
}

/// The budget of a line, if it has one.
fn refused_budget(alloc: Global, budget: Option<Budget>) -> Result<String, AllocError>
    ensures { IfOk result (λ text. string_bytes text ≡ refused_budget budget) }
{
    match budget {
        Some(budget) => {
            let word = budget_word(budget);
            format!(in alloc; " {word}")
        }
        None => Ok(String::new(alloc)),
    }
}

/// The numbers of a line.
fn number_fields(alloc: Global, numbers: &[u64]) -> Result<String, AllocError>
    ensures { IfOk result (λ text. string_bytes text ≡ flat_map number_field numbers.now) }
{
    let mut out = String::new(alloc);
    for n in numbers {
        let field = format!(in alloc; " {n}")?;
        out.push_str(field.as_str())?;
    }
    Ok(out)
}

/// How the line begins: the name, the code and its word.
fn refused_start(alloc: Global, name: &str, code: u8) -> Result<String, AllocError>
    requires { IsSome (word_of code) }
    ensures { IfOk result (λ text. string_bytes text ≡ refused_start name.now code) }
{
    let name = escaped(alloc, name)?;
    let Some(word) = refusal_word(code) else {
        unreachable!()
    };
    format!(in alloc; "refused {name} {code} {word}")
}

/// The line of a file of this name that was refused, with its LF.
///
/// The code is one that lines name: 1 to 10, 20 to 24, 30 to 32, 40 to 52 or 60 to 64.
pub fn write_refused(alloc: Global, name: &str, line: &RefusedLine) -> Result<String, AllocError>
    requires { IsSome (word_of line.now.code) }
    ensures { IfOk result (λ text. string_bytes text ≡ refused_line name.now line.now) }
{
    let start = refused_start(alloc, name, line.code)?;
    let budget = refused_budget(alloc, line.budget)?;
    let numbers = number_fields(alloc, line.numbers.as_slice())?;
    format!(in alloc; "{start}{budget}{numbers}\n")
}
