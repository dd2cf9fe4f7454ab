// Steps that budgets refused, read from a certificate line.
ghost use Rattle.std.specs.Prelude.{◌≡◌, ◌<◌, ◌≤◌, ◌^◌, length, map, IfOk, IfErr, true};
ghost use Rattle.cine_nums.specs.Limits.{has_inner};
ghost use Rattle.cine_nums.specs.declared.budget.Budget.TheVariants.{Inner};
ghost use Rattle.budget_duals.specs.Held.{place_of};
ghost use Rattle.cert_text.specs.Words.{budget_word};
ghost use Rattle.cert_text.specs.Stands.{Stands};
ghost use Rattle.cert_text.specs.Forms.{Reads, Refuses};
ghost use Rattle.cert_text.specs.LineForms as forms;
ghost use Rattle.cert_text.specs.LineForms.{Misses, step_values};

use crate::cert_line::place_of;
use crate::cert_refusal::CertRefusal;
use crate::parts::{bad_line, labelled, number, word};
use crate::words::budget_word;
use arrayvec::ArrayVec;
use budget_duals::RefusedStep;
use cine_nums::{Budget, Profile};
use rd_hulls::Step;

/// The budget of a place, the outermost at 0.
fn budget_at(place: usize) -> Budget
    requires { place < 5 }
    ensures { place_of result ≡ place }
{
    match place {
        0 => Budget::Frame,
        1 => Budget::Inner,
        2 => Budget::C0,
        3 => Budget::C1,
        _ => Budget::C2,
    }
}

/// Reads the word of this budget, if the profile has it, and returns the place after it.
fn budget_of(text: &[u8], at: usize, profile: Profile, budget: Budget) -> Result<usize, CertRefusal>
    requires short { length text.now < 2 ^ 32 }
    requires within { at ≤ length text.now }
    ensures stands { IfOk result (λ end. Stands text.now at (budget_word budget) end) }
    ensures inner { IfOk result (λ _. budget ≡ Inner → has_inner profile ≡ true) }
    ensures refused { IfErr result (λ e. Misses profile budget text.now at e) }
{
    if budget == Budget::Inner && !profile.has_inner() {
        return Err(bad_line(at));
    }
    let end = word(text, at, budget_word(budget).as_bytes())?;
    Ok(end)
}

/// Reads the word of a budget whose place is `least` or a later one, and returns the place after it
/// too.
fn budget(
    text: &[u8],
    at: usize,
    profile: Profile,
    least: usize,
) -> Result<(Budget, usize), CertRefusal>
    requires short { length text.now < 2 ^ 32 }
    requires within { at ≤ length text.now }
    ensures reads { IfOk result (λ read.
        Reads (forms.step_budget profile least) text.now at read.0 read.1) }
    ensures refused { IfErr result (λ e. least ≤ 4
        → Refuses (forms.step_budget profile least) text.now at e) }
{
    let mut furthest = at as u32;
    for place in least..5 {
        let budget = budget_at(place);
        match budget_of(text, at, profile, budget) {
            Ok(end) => return Ok((budget, end)),
            Err(CertRefusal::BadLine(found)) => furthest = furthest.max(found),
            Err(CertRefusal::Memory) => return Err(CertRefusal::Memory),
        }
    }
    Err(CertRefusal::BadLine(furthest))
}

/// Reads the pass counts of a step, which differ, and returns the place after them too.
fn counts(text: &[u8], at: usize) -> Result<(u8, u8, usize), CertRefusal>
    requires short { length text.now < 2 ^ 32 }
    requires within { at ≤ length text.now }
    ensures reads { IfOk result (λ read. Reads forms.counts text.now at (read.0, read.1) read.2) }
    ensures refused { IfErr result (λ e. Refuses forms.counts text.now at e) }
{
    let (from, at) = labelled(text, at, b":", 0, 255)?;
    let at = word(text, at, b":")?;
    let (to, end) = number(text, at, 0, 255)?;
    if from == to {
        return Err(bad_line(at));
    }
    Ok((from as u8, to as u8, end))
}

/// Reads what follows the budget of a step.
fn step(text: &[u8], at: usize, budget: Budget) -> Result<(RefusedStep, usize), CertRefusal>
    requires short { length text.now < 2 ^ 32 }
    requires within { at ≤ length text.now }
    ensures reads { IfOk result (λ read.
        Reads forms.numbers text.now at (step_values read.0).1 read.1) }
    ensures budget { IfOk result (λ read. read.0.budget ≡ budget) }
    ensures refused { IfErr result (λ e. Refuses forms.numbers text.now at e) }
{
    let (block, at) = labelled(text, at, b":", 0, u128::from(u32::MAX))?;
    let (from, to, at) = counts(text, at)?;
    let (len, at) = labelled(text, at, b":", 1, 131072)?;
    let (grow, at) = labelled(text, at, b":", 0, u128::from(u32::MAX))?;
    let (gain, at) = labelled(text, at, b":", 1, u128::from(u64::MAX))?;
    let (price, end) = labelled(text, at, b":", 0, u128::MAX)?;
    let step = Step {
        block: block as u32,
        from,
        to,
        len: len as u32,
        gain,
    };
    let refused = RefusedStep {
        budget,
        step,
        grow: grow as u32,
        price,
    };
    Ok((refused, end))
}

/// Reads a step of a budget whose place is `least` or a later one.
fn refused_step(
    text: &[u8],
    at: usize,
    profile: Profile,
    least: usize,
) -> Result<(RefusedStep, usize), CertRefusal>
    requires short { length text.now < 2 ^ 32 }
    requires within { at ≤ length text.now }
    ensures reads { IfOk result (λ read.
        Reads (forms.step profile least) text.now at (step_values read.0) read.1) }
    ensures refused { IfErr result (λ e. least ≤ 4
        → Refuses (forms.step profile least) text.now at e) }
{
    let at = word(text, at, b" step=")?;
    let (budget, at) = budget(text, at, profile, least)?;
    let (refused, end) = step(text, at, budget)?;
    Ok((refused, end))
}

/// Reads the steps that budgets refused and the LF after them, and returns the place after it too.
pub fn refused_steps(
    text: &[u8],
    at: usize,
    profile: Profile,
) -> Result<(ArrayVec<RefusedStep, 5>, usize), CertRefusal>
    requires short { length text.now < 2 ^ 32 }
    requires within { at ≤ length text.now }
    ensures reads { IfOk result (λ read.
        Reads (forms.steps profile 0) text.now at (map step_values read.0.items) read.1) }
    ensures refused { IfErr result (λ e. Refuses (forms.steps profile 0) text.now at e) }
{
    let mut refused = ArrayVec::new();
    let mut least = 0;
    let mut end = at;
    while least < 5 {
        if end < text.len() && text[end] == b'\n' {
            return Ok((refused, end + 1));
        }
        let (step, next) = refused_step(text, end, profile, least)?;
        least = place_of(step.budget) + 1;
        refused.push(step);
        end = next;
    }
    let end = word(text, end, b"\n")?;
    Ok((refused, end))
}
