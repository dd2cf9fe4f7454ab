// A certificate line, read.
ghost use Rattle.std.specs.Prelude.{ℕ, ◌≡◌, ◌<◌, ◌≤◌, ◌^◌, [], ◌∷◌, length, IfOk, IfErr};
ghost use Rattle.cert_text.specs.Reading.{IsSaid};
ghost use Rattle.cert_text.specs.Lines.{cert_line};
ghost use Rattle.cert_text.specs.Forms.{Reads, Refuses};
ghost use Rattle.cert_text.specs.LineForms as forms;
ghost use Rattle.cert_text.specs.LineForms.{inner_limit, values_of, fields_read, IsBadAt};
ghost use Rattle.cert_text.specs.declared.cert_line.CertLine.{CertLine};
ghost use Rattle.cert_text.specs.declared.cert_refusal.CertRefusal.TheVariants.{BadLine};

use crate::cert_line::CertLine;
use crate::cert_refusal::CertRefusal;
use crate::parts::{bad_line, labelled, word};
use crate::read_name::name;
use crate::step_reading::refused_steps;
use crate::words::{budget_word, profile_word};
use budget_duals::{Certificate, Held, Limits};
use cine_nums::{Budget, Profile};
use std::alloc::Global;

/// A budget of a line: the bytes held of it, its limit, and its multiplier.
#[derive(Clone, Copy, Debug)]
struct BudgetField {
    held: u32,
    limit: u32,
    multiplier: u128,
}

/// The budgets of a line.
#[derive(Clone, Copy, Debug)]
struct BudgetFields {
    frame: BudgetField,
    inner: BudgetField,
    c0: BudgetField,
    c1: BudgetField,
    c2: BudgetField,
}

/// The sums of a line.
#[derive(Clone, Copy, Debug)]
struct Totals {
    passes: u64,
    undecoded: u128,
    distortion: u128,
    gap: u128,
}

/// Reads a profile's word, and returns the place after it too.
fn profile(text: &[u8], at: usize) -> Result<(Profile, usize), CertRefusal>
    requires short { length text.now < 2 ^ 32 }
    requires within { at ≤ length text.now }
    ensures reads { IfOk result (λ read. Reads forms.profile text.now at read.0 read.1) }
    ensures refused { IfErr result (λ e. Refuses forms.profile text.now at e) }
{
    if at < text.len() && text[at] == b'4' {
        let end = word(text, at, b"4k")?;
        return Ok((Profile::FourK, end));
    }
    let end = word(text, at, b"2k")?;
    Ok((Profile::TwoK, end))
}

/// Reads a frame's size in samples, and returns the place after it too.
fn size(text: &[u8], at: usize, profile: Profile) -> Result<(u32, u32, usize), CertRefusal>
    requires short { length text.now < 2 ^ 32 }
    requires within { at ≤ length text.now }
    ensures reads { IfOk result (λ read.
        Reads (forms.size profile) text.now at (read.0, read.1) read.2) }
    ensures refused { IfErr result (λ e. Refuses (forms.size profile) text.now at e) }
{
    let (width, at) = labelled(text, at, b" ", 1, u128::from(profile.max_width()))?;
    let (height, end) = labelled(text, at, b"x", 1, u128::from(profile.max_height()))?;
    Ok((width as u32, height as u32, end))
}

/// Reads a budget, and returns the place after it too.
fn budget(
    text: &[u8],
    at: usize,
    profile: Profile,
    budget: Budget,
) -> Result<(BudgetField, usize), CertRefusal>
    requires short { length text.now < 2 ^ 32 }
    requires within { at ≤ length text.now }
    ensures reads { IfOk result (λ read. Reads (forms.budget profile budget) text.now at
        (read.0.held, (read.0.limit, read.0.multiplier)) read.1) }
    ensures refused { IfErr result (λ e. Refuses (forms.budget profile budget) text.now at e) }
{
    let at = word(text, at, b" ")?;
    let at = word(text, at, budget_word(budget).as_bytes())?;
    let (held, at) = labelled(text, at, b"=", 0, u128::from(u32::MAX))?;
    let (limit, at) = labelled(text, at, b"/", 0, u128::from(profile.limit(budget)))?;
    let (multiplier, end) = labelled(text, at, b"/", 0, (1 << 96) - 1)?;
    let field = BudgetField {
        held: held as u32,
        limit: limit as u32,
        multiplier,
    };
    Ok((field, end))
}

/// Reads the inner budget, and returns the place after it too. A line of 2K, which has no such
/// budget, says nothing of it, and each of its numbers is read as 0.
fn inner_budget(
    text: &[u8],
    at: usize,
    profile: Profile,
) -> Result<(BudgetField, usize), CertRefusal>
    requires short { length text.now < 2 ^ 32 }
    requires within { at ≤ length text.now }
    ensures reads { IfOk result (λ read. Reads (forms.inner_budget profile) text.now at
        (read.0.held, (read.0.limit, read.0.multiplier)) read.1) }
    ensures refused { IfErr result (λ e. Refuses (forms.inner_budget profile) text.now at e) }
{
    match profile {
        Profile::TwoK => {
            let none = BudgetField {
                held: 0,
                limit: 0,
                multiplier: 0,
            };
            Ok((none, at))
        }
        Profile::FourK => {
            let (field, end) = budget(text, at, profile, Budget::Inner)?;
            Ok((field, end))
        }
    }
}

/// Reads the budgets, the outermost first, and returns the place after them too.
fn budgets(text: &[u8], at: usize, profile: Profile) -> Result<(BudgetFields, usize), CertRefusal>
    requires short { length text.now < 2 ^ 32 }
    requires within { at ≤ length text.now }
    ensures reads { IfOk result (λ read.
        Reads (forms.budgets profile) text.now at (fields_read read.0) read.1) }
    ensures refused { IfErr result (λ e. Refuses (forms.budgets profile) text.now at e) }
{
    let (frame, at) = budget(text, at, profile, Budget::Frame)?;
    let (inner, at) = inner_budget(text, at, profile)?;
    let (c0, at) = budget(text, at, profile, Budget::C0)?;
    let (c1, at) = budget(text, at, profile, Budget::C1)?;
    let (c2, end) = budget(text, at, profile, Budget::C2)?;
    let fields = BudgetFields {
        frame,
        inner,
        c0,
        c1,
        c2,
    };
    Ok((fields, end))
}

/// Reads the number of passes and the sums, and returns the place after them too.
fn sums(text: &[u8], at: usize) -> Result<(Totals, usize), CertRefusal>
    requires short { length text.now < 2 ^ 32 }
    requires within { at ≤ length text.now }
    ensures reads { IfOk result (λ read. Reads forms.sums text.now at
        (read.0.passes, (read.0.undecoded, (read.0.distortion, read.0.gap))) read.1) }
    ensures refused { IfErr result (λ e. Refuses forms.sums text.now at e) }
{
    let (passes, at) = labelled(text, at, b" passes=", 0, u128::from(u64::MAX))?;
    let (undecoded, at) = labelled(text, at, b" empty=", 0, u128::MAX)?;
    let (distortion, at) = labelled(text, at, b" distortion=", 0, u128::MAX)?;
    let (gap, end) = labelled(text, at, b" gap=", 0, u128::MAX)?;
    let read = Totals {
        passes: passes as u64,
        undecoded,
        distortion,
        gap,
    };
    Ok((read, end))
}

/// The bytes held of each budget.
fn held_of(fields: BudgetFields) -> Held
    ensures { result ≡ record {
      frame = fields.frame.held;
      inner = fields.inner.held;
      component = fields.c0.held ∷ fields.c1.held ∷ fields.c2.held ∷ [];
    } }
{
    Held {
        frame: fields.frame.held,
        inner: fields.inner.held,
        component: [fields.c0.held, fields.c1.held, fields.c2.held],
    }
}

/// The limit of each budget; none for the inner one of 2K.
fn limits_of(fields: BudgetFields, profile: Profile) -> Limits
    ensures { result ≡ record {
      frame = fields.frame.limit;
      inner = inner_limit profile fields.inner.limit;
      component = fields.c0.limit ∷ fields.c1.limit ∷ fields.c2.limit ∷ [];
    } }
{
    let inner = match profile {
        Profile::TwoK => None,
        Profile::FourK => Some(fields.inner.limit),
    };
    Limits {
        frame: fields.frame.limit,
        inner,
        component: [fields.c0.limit, fields.c1.limit, fields.c2.limit],
    }
}

/// The multiplier of each budget.
fn multipliers_of(fields: BudgetFields) -> [u128; 5]
    ensures { result ≡ fields.frame.multiplier ∷ fields.inner.multiplier ∷ fields.c0.multiplier
        ∷ fields.c1.multiplier ∷ fields.c2.multiplier ∷ [] }
{
    [
        fields.frame.multiplier,
        fields.inner.multiplier,
        fields.c0.multiplier,
        fields.c1.multiplier,
        fields.c2.multiplier,
    ]
}

/// Reads a certificate line with its LF from bytes, fewer than 2^32, that are exactly one.
///
/// BadLine exactly if they aren't, unless out of memory: the least place, counted from 0, at which
/// no certificate line goes on as the bytes do; a number, its digits taken together, is judged at
/// its first digit. A line of 2K says nothing of the inner budget, and 0 is read for its bytes and
/// its multiplier.
pub fn read_cert(alloc: Global, text: &[u8]) -> Result<CertLine, CertRefusal>
    requires short { length text.now < 2 ^ 32 }
    ensures found { IfOk result (λ line. text.now ≡ cert_line line) }
    ensures said { IfOk result (λ line. IsSaid line) }
    ensures only { IfOk result (λ line. (other : CertLine) → IsSaid other
        → text.now ≡ cert_line other → values_of line ≡ values_of other) }
    ensures bad { IfErr result (λ e. (place : ℕ) → e ≡ BadLine place → IsBadAt text.now place) }
{
    let at = word(text, 0, b"ok ")?;
    let (name, at) = name(alloc, text, at)?;
    let (profile, at) = profile(text, at)?;
    let (width, height, at) = size(text, at, profile)?;
    let (fields, at) = budgets(text, at, profile)?;
    let (sums, at) = sums(text, at)?;
    let (refused, end) = refused_steps(text, at, profile)?;
    if end < text.len() {
        return Err(bad_line(end));
    }
    let certificate = Certificate {
        multipliers: multipliers_of(fields),
        gap: sums.gap,
        distortion: sums.distortion,
        refused,
    };
    Ok(CertLine {
        name,
        profile,
        width,
        height,
        held: held_of(fields),
        limits: limits_of(fields, profile),
        passes: sums.passes,
        empty: sums.undecoded,
        certificate,
    })
}
