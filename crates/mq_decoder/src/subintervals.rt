// The two subintervals of an interval.
ghost use Rattle.std.specs.Prelude.{◌≡◌, ℕ, ◌+◌, ◌-◌, ◌*◌, ◌/◌, ◌<◌, ◌≤◌, ◌^◌, nat_lt, List};
ghost use Rattle.mq_coder.specs.Decisions.{Interval, estimate, part};
ghost use Rattle.mq_decoder.specs.Registers.{HoldsAt};

use crate::registers::Registers;

/// The subinterval in which the string's value lies: the lower one, of the width Qe, where
/// the high bits of C are below Qe, else the upper one.
#[inline(always)]
pub fn subinterval(r: Registers, qe: u32) -> Registers
    requires some { 1 ≤ qe }
    requires inside { qe < r.a }
    requires wide { 2 ^ 15 ≤ r.a }
    ensures holds { (bytes : List ℕ) (it : Interval) (cx : ℕ) → qe ≡ estimate it.contexts cx →
        HoldsAt bytes r it → HoldsAt bytes result (part it cx (nat_lt (r.c / 2 ^ 16) qe)) }
    ensures place { result.place ≡ r.place }
    ensures lower { r.c / 2 ^ 16 < qe → result.a ≡ qe }
    ensures upper { qe ≤ r.c / 2 ^ 16 → result.a ≡ r.a - qe }
{
    if r.c >> 16 < qe {
        return Registers {
            a: qe,
            c: r.c,
            ct: r.ct,
            place: r.place,
        };
    }
    Registers {
        a: r.a - qe,
        c: r.c - (qe << 16),
        ct: r.ct,
        place: r.place,
    }
}
