// The certificate line of a frame that was written.
ghost use Rattle.std.specs.Prelude.{◌≡◌, ◌++◌, ◌↔◌, List, is_some, slice_index_or, IfOk, OnOk};
ghost use Rattle.std.specs.Prelude.{string_bytes};
ghost use Rattle.std.specs.List.{flat_map};
ghost use Rattle.cine_nums.specs.Limits.{has_inner};
ghost use Rattle.budget_duals.specs.Held.{place_of};
ghost use Rattle.cert_text.specs.Lines.{held_field, budget_field, budget_fields};
ghost use Rattle.cert_text.specs.Lines.{sums, step_start, step_field, cert_line};

use crate::head::head;
use crate::words::budget_word;
use budget_duals::{Certificate, Held, Limits, RefusedStep};
use cine_nums::{Budget, Profile};
use std::alloc::{AllocError, Global};

/// What the certificate line of a frame says: its name, its profile, its width and height in
/// samples; the bytes that its codestream holds in each budget and their limits; how many coding
/// passes were chosen; the distortion with nothing decoded; and the certificate of the choice.
#[derive(Debug, Drop)]
pub struct CertLine {
    pub name: String,
    pub profile: Profile,
    pub width: u32,
    pub height: u32,
    pub held: Held,
    pub limits: Limits,
    pub passes: u64,
    pub empty: u128,
    pub certificate: Certificate,
}

/// A budget: the bytes held of it, its limit, and its multiplier.
fn held_field(
    alloc: Global,
    budget: Budget,
    held: u32,
    limit: u32,
    multiplier: u128,
) -> Result<String, AllocError>
    ensures { IfOk result (λ text. string_bytes text ≡ held_field budget held limit multiplier) }
{
    let word = budget_word(budget);
    format!(in alloc; " {word}={held}/{limit}/{multiplier}")
}

/// A budget's place among the multipliers, the outermost at 0.
pub fn place_of(budget: Budget) -> usize
    ensures { result ≡ place_of budget }
{
    match budget {
        Budget::Frame => 0,
        Budget::Inner => 1,
        Budget::C0 => 2,
        Budget::C1 => 3,
        Budget::C2 => 4,
    }
}

/// A budget of a line; nothing where it has no limit, since the profile has no such budget then.
fn budget_field(
    alloc: Global,
    held: &Held,
    limits: &Limits,
    multipliers: &[u128; 5],
    budget: Budget,
) -> Result<String, AllocError>
    ensures { IfOk result (λ text. string_bytes text
        ≡ budget_field held.now limits.now multipliers.now budget) }
{
    match limits.bytes(budget) {
        Some(limit) => held_field(
            alloc,
            budget,
            held.bytes(budget),
            limit,
            multipliers[place_of(budget)],
        ),
        None => Ok(String::new(alloc)),
    }
}

/// The budgets of a line, the outermost first.
fn budget_fields(
    alloc: Global,
    held: &Held,
    limits: &Limits,
    multipliers: &[u128; 5],
) -> Result<String, AllocError>
    ensures { IfOk result (λ text. string_bytes text
        ≡ budget_fields held.now limits.now multipliers.now) }
{
    let frame = budget_field(alloc, held, limits, multipliers, Budget::Frame)?;
    let inner = budget_field(alloc, held, limits, multipliers, Budget::Inner)?;
    let c0 = budget_field(alloc, held, limits, multipliers, Budget::C0)?;
    let c1 = budget_field(alloc, held, limits, multipliers, Budget::C1)?;
    let c2 = budget_field(alloc, held, limits, multipliers, Budget::C2)?;
    format!(in alloc; "{frame}{inner}{c0}{c1}{c2}")
}

/// The number of passes, the distortion with nothing decoded and with the passes that are chosen,
/// and the gap.
fn sums(
    alloc: Global,
    passes: u64,
    undecoded: u128,
    distortion: u128,
    gap: u128,
) -> Result<String, AllocError>
    ensures { IfOk result (λ text. string_bytes text ≡ sums passes undecoded distortion gap) }
{
    format!(in alloc; " passes={passes} empty={undecoded} distortion={distortion} gap={gap}")
}

/// How the field of a refused step begins: the budget, and the step without its gain.
fn step_start(alloc: Global, refused: &RefusedStep) -> Result<String, AllocError>
    ensures { IfOk result (λ text. string_bytes text ≡ step_start refused.now) }
{
    let word = budget_word(refused.budget);
    let step = refused.step;
    let (block, from, to, len) = (step.block, step.from, step.to, step.len);
    format!(in alloc; " step={word}:{block}:{from}:{to}:{len}")
}

/// A step that a budget refused.
fn step_field(alloc: Global, refused: &RefusedStep) -> Result<String, AllocError>
    ensures { IfOk result (λ text. string_bytes text ≡ step_field refused.now) }
{
    let start = step_start(alloc, refused)?;
    let (grow, gain, price) = (refused.grow, refused.step.gain, refused.price);
    format!(in alloc; "{start}:{grow}:{gain}:{price}")
}

/// The steps that budgets refused.
fn step_fields(alloc: Global, refused: &[RefusedStep]) -> Result<String, AllocError>
    ensures { IfOk result (λ text. string_bytes text ≡ flat_map step_field refused.now) }
{
    let mut out = String::new(alloc);
    for step in refused {
        let field = step_field(alloc, step)?;
        out.push_str(field.as_str())?;
    }
    Ok(out)
}

/// The certificate line of a frame, with its LF.
pub fn write_cert(alloc: Global, line: &CertLine) -> Result<String, AllocError>
    requires { is_some line.now.limits.inner ≡ has_inner line.now.profile }
    ensures { IfOk result (λ text. string_bytes text ≡ cert_line line.now) }
{
    let certificate = &line.certificate;
    let head = head(
        alloc,
        "ok",
        line.name.as_str(),
        line.profile,
        line.width,
        line.height,
    )?;
    let budgets = budget_fields(alloc, &line.held, &line.limits, &certificate.multipliers)?;
    let (distortion, gap) = (certificate.distortion, certificate.gap);
    let sums = sums(alloc, line.passes, line.empty, distortion, gap)?;
    let steps = step_fields(alloc, certificate.refused.as_slice())?;
    format!(in alloc; "{head}{budgets}{sums}{steps}\n")
}
