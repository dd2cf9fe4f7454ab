// The contexts of Annex D.3 by its tables.
ghost use Rattle.std.specs.Prelude.{◌≡◌, ◌≤◌, ◌≤ℤ◌, negsuc, pos, ℕ, Bool};
ghost use Rattle.ebcot_contexts.specs.Contexts.{lh_context, hh_context, significance_context};
ghost use Rattle.ebcot_contexts.specs.Contexts.{refinement_context, sign_context, contribution};

use cine_nums::Orient;

/// The context, 0 to 8, of the bit of an insignificant place (ISO/IEC 15444-1, Table D.1), by how
/// many neighbours are significant: `h` of those to the left and right, `v` of those above and
/// below, both at most 2, and `d` of the diagonal ones, at most 4.
#[tactic(auto, unfolding(crate::specs::Contexts::lh_context, crate::specs::Contexts::hh_context))]
pub fn significance(orient: Orient, h: u8, v: u8, d: u8) -> u8
    requires horizontal { h ≤ 2 }
    requires vertical { v ≤ 2 }
    requires diagonal { d ≤ 4 }
    ensures { result ≡ significance_context orient h v d }
{
    match orient {
        Orient::LL | Orient::LH => upright(h, v, d),
        Orient::HL => upright(v, h, d),
        Orient::HH => oblique(h + v, d),
    }
}

/// The columns of Table D.1 for the bands LL and LH; for HL with `h` and `v` exchanged.
#[tactic(auto, unfolding(crate::specs::Contexts::lh_context))]
fn upright(h: u8, v: u8, d: u8) -> u8
    ensures { result ≡ lh_context h v d }
{
    match (h, v, d) {
        (2, _, _) => 8,
        (1, 1.., _) => 7,
        (1, _, 1..) => 6,
        (1, _, _) => 5,
        (_, 2, _) => 4,
        (_, 1, _) => 3,
        (_, _, 2..) => 2,
        (_, _, _) => d,
    }
}

/// The columns of Table D.1 for the band HH, by the sum of both counts of upright neighbours.
#[tactic(auto, unfolding(crate::specs::Contexts::hh_context))]
fn oblique(hv: u8, d: u8) -> u8
    ensures { result ≡ hh_context hv d }
{
    match (d, hv) {
        (3.., _) => 8,
        (2, 1..) => 7,
        (2, _) => 6,
        (1, 2..) => 5,
        (1, _) => 3 + hv,
        (_, 2..) => 2,
        (_, _) => hv,
    }
}

/// The context of a sign, 9 to 13, and whether the coded bit is the flipped sign bit (Table D.3),
/// by the contributions, -1 to 1, of the neighbours to the left and right and of those above and
/// below.
pub fn sign(h: i8, v: i8) -> (u8, bool)
    requires h_low { negsuc 0 ≤ℤ h }
    requires h_high { h ≤ℤ pos 1 }
    requires v_low { negsuc 0 ≤ℤ v }
    requires v_high { v ≤ℤ pos 1 }
    ensures { result ≡ sign_context (contribution h) (contribution v) }
{
    match (h, v) {
        (1, 1) => (13, false),
        (1, 0) => (12, false),
        (1, _) => (11, false),
        (0, 1) => (10, false),
        (0, 0) => (9, false),
        (0, _) => (10, true),
        (_, 1) => (11, true),
        (_, 0) => (12, true),
        (_, _) => (13, true),
    }
}

/// The context of a refinement, 14 to 16 (Table D.4): whether it is the place's `first` one, and
/// whether a neighbour `around` the place is significant.
pub fn refinement(first: bool, around: bool) -> u8
    ensures { result ≡ refinement_context first around }
{
    match (first, around) {
        (false, _) => 16,
        (true, true) => 15,
        (true, false) => 14,
    }
}
