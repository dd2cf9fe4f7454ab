// The two subintervals of a symbol.
ghost use Rattle.std.specs.Prelude.{◌≡◌, ℕ, ◌+◌, ◌-◌, ◌*◌, ◌<◌, ◌≤◌, ◌^◌, Bool, false, IsTrue, ◌↔◌};
ghost use Rattle.std.specs.Prelude.{List, not, nat_lt, if◌then◌else◌};
ghost use Rattle.mq_coder.specs.Code.{take_lower, take_upper};
ghost use Rattle.mq_coder.specs.States.{same};
ghost use Rattle.mq_coder.specs.Registers.{coding_of};

use crate::registers::Registers;
use crate::renormalise::THREE_QUARTERS;

/// Whether a symbol leaves an upper subinterval of the width `a` that needs no renormalising: the
/// more probable symbol, at three quarters or more. One test serves for both.
#[inline(always)]
pub fn stays(a: u32, is_lps: bool) -> bool
    requires { a < 2 ^ 16 }
    ensures { IsTrue result ↔ ((is_lps ≡ false) × (2 ^ 15 ≤ a)) }
{
    let mask = if is_lps { 0 } else { THREE_QUARTERS };
    a & mask != 0
}

/// The upper subinterval, of the width A less Qe.
#[inline(always)]
#[tactic(auto, using(crate::proofs::Widths::smaller_reach))]
pub fn upper_subinterval(r: Registers, qe: u32) -> Registers
    requires inside { qe < r.a }
    ensures exact { (bytes : List ℕ) (contexts : List (ℕ × Bool)) →
        coding_of result bytes contexts ≡ take_upper (coding_of r bytes contexts) qe }
    ensures width { result.a ≡ r.a - qe }
    ensures count { result.count ≡ r.count }
{
    Registers {
        a: r.a - qe,
        c: r.c + qe,
        ct: r.ct,
        count: r.count,
    }
}

/// The lower subinterval, of the width Qe.
#[inline(always)]
#[tactic(auto, using(crate::proofs::Widths::smaller_reach))]
fn lower_subinterval(r: Registers, qe: u32) -> Registers
    requires some { 1 ≤ qe }
    requires inside { qe < r.a }
    ensures exact { (bytes : List ℕ) (contexts : List (ℕ × Bool)) →
        coding_of result bytes contexts ≡ take_lower (coding_of r bytes contexts) qe }
    ensures count { result.count ≡ r.count }
{
    Registers {
        a: qe,
        c: r.c,
        ct: r.ct,
        count: r.count,
    }
}

/// The subinterval of a symbol that renormalises: the less probable symbol has the lower one,
/// unless the upper one is smaller (the conditional exchange of ISO/IEC 15444-1, Annex C.2.4).
#[inline(always)]
pub fn subinterval(r: Registers, qe: u32, is_lps: bool) -> Registers
    requires some { 1 ≤ qe }
    requires inside { qe < r.a }
    ensures exact { (bytes : List ℕ) (contexts : List (ℕ × Bool)) →
        coding_of result bytes contexts ≡
        if same is_lps (nat_lt (r.a - qe) qe) then take_upper (coding_of r bytes contexts) qe
        else take_lower (coding_of r bytes contexts) qe }
    ensures count { result.count ≡ r.count }
{
    if is_lps == (r.a - qe < qe) {
        upper_subinterval(r, qe)
    } else {
        lower_subinterval(r, qe)
    }
}
