// A block's distortion after one place more.
ghost use Rattle.std.specs.Prelude.{◌≡◌, ◌*◌, ◌/◌, ◌<◌, ◌≤◌, ◌^◌, ℕ, suc, Bool, true, List, set};
ghost use Rattle.dz_quantiser.specs.Error.{squared_error};
ghost use Rattle.ebcot_contexts.specs.Cells.{Cell, cell_at, coef_at, bit_of, become_significant};
ghost use Rattle.ebcot_contexts.specs.Passes.{learned};
ghost use Rattle.distortion_sums.specs.Places.{IsNext, IsHeld, offset};

/// A number of units of a bit-plane.
#[inline(always)]
fn units(count: u64, plane: u32) -> u64
    requires count { count ≤ 3 }
    requires plane { plane < 20 }
    ensures value { result ≡ count * 2 ^ plane }
    ensures small { result ≤ 3 * 2 ^ 19 }
{
    count << plane
}

/// The bits of a magnitude below a bit-plane where its bit of the plane is 1, and these bits
/// flipped where it is 0.
#[inline(always)]
fn offset_of(magnitude: u32, plane: u32) -> u32
    requires plane { plane < 20 }
    ensures value { result ≡ offset plane magnitude }
    ensures small { result < 2 ^ 20 }
{
    let unit = 1 << plane;
    let low = magnitude & (unit - 1);
    if magnitude >> plane & 1 == 1 {
        low
    } else {
        unit - 1 - low
    }
}

/// The squared error of an index of this magnitude of which no bit is known, in units of half a
/// step.
#[inline]
pub fn undecoded_error(magnitude: u32) -> u64
    requires magnitude { magnitude < 2 ^ 20 }
    ensures value { (planes : ℕ) → magnitude < 2 ^ planes →
        result ≡ squared_error magnitude planes }
    ensures small { result < 2 ^ 42 }
{
    if magnitude == 0 {
        return 0;
    }
    let size = u64::from(2 * magnitude + 1);
    size * size
}

/// The distortion, in 64 bits, after a place of this magnitude became significant in bit-plane
/// `plane`, below 20; it was `before`.
#[inline(always)]
pub fn with_new(before: u64, magnitude: u32, plane: u32) -> u64
    requires plane { plane < 20 }
    requires magnitude { magnitude < 2 ^ 31 }
    ensures { (coefs : List (ℕ × Bool)) (cells : List Cell) (i : ℕ) (negative : Bool) →
        IsNext coefs cells plane i → (coef_at coefs i).0 ≡ magnitude →
        (coef_at coefs i).0 / 2 ^ suc plane ≡ 0 → bit_of (coef_at coefs i).0 plane ≡ true →
        IsHeld before coefs cells →
        IsHeld result coefs (set cells i (become_significant plane negative (cell_at cells i))) }
{
    let known = units(3, plane);
    let taken = known * (4 * u64::from(magnitude) + 2);
    before.wrapping_add(known * known).wrapping_sub(taken)
}

/// The distortion, in 64 bits, after a place of this magnitude was refined in bit-plane `plane`,
/// below 20; it was `before`.
#[inline(always)]
pub fn with_refined(before: u64, magnitude: u32, plane: u32) -> u64
    requires plane { plane < 20 }
    ensures { (coefs : List (ℕ × Bool)) (cells : List Cell) (i : ℕ) →
        IsNext coefs cells plane i → (coef_at coefs i).0 ≡ magnitude →
        0 < (coef_at coefs i).0 / 2 ^ suc plane → IsHeld before coefs cells →
        IsHeld result coefs (learned plane (bit_of (coef_at coefs i).0 plane) i cells) }
{
    let half = units(1, plane);
    let taken = 2 * half * (2 * u64::from(offset_of(magnitude, plane)) + 1);
    before.wrapping_add(half * half).wrapping_sub(taken)
}
