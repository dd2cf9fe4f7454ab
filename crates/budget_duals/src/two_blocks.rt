// Two blocks with so many bytes at each count of passes, for tests.
ghost use Rattle.std.specs.Prelude.{◌≡◌, ◌≤◌, ◌<◌, ◌+◌, ◌∷◌, [], length};
ghost use Rattle.budget_duals.specs.TwoBlocks.{low, part, size_at, two_held};

use crate::{Held, Members, Price};
use cine_nums::Budget;
use rd_hulls::Step;

/// Two blocks of at most 3 passes: what is held beside them, the budgets of each, its bytes at each
/// count, headers included, and its count. Numbers of bytes are read below 2^20.
#[derive(Clone, Copy, Debug)]
pub(crate) struct TwoBlocks {
    pub base: Held,
    pub first_inside: Members,
    pub second_inside: Members,
    pub first_bytes: [u32; 4],
    pub second_bytes: [u32; 4],
    pub first: u8,
    pub second: u8,
    pub ghost first_few: { first ≤ 3 },
    pub ghost second_few: { second ≤ 3 },
}

fn low(number: u32) -> u32
    ensures value { result ≡ low number }
    ensures small { result < 1048576 }
{
    number % 0x10_0000
}

fn bytes_at(bytes: &[u32], count: u8) -> u32
    requires { count < length bytes.now }
    ensures value { result ≡ size_at bytes.now count }
    ensures small { result < 1048576 }
{
    low(bytes[count as usize])
}

// What is held where the blocks have such bytes.
fn sum_of(base: u32, in_first: bool, in_second: bool, first: u32, second: u32) -> u32
    requires first { first < 1048576 }
    requires second { second < 1048576 }
    ensures { result ≡ low base + (part in_first first + part in_second second) }
{
    let one = if in_first { first } else { 0 };
    let two = if in_second { second } else { 0 };
    low(base) + (one + two)
}

impl TwoBlocks {
    // What the budgets hold at such counts.
    fn held_at(&self, first: u8, second: u8) -> Held
        requires first { first ≤ 3 }
        requires second { second ≤ 3 }
        ensures { result ≡ two_held self.now.base self.now.first_inside self.now.second_inside
            self.now.first_bytes self.now.second_bytes (first ∷ second ∷ []) }
    {
        let a = bytes_at(&self.first_bytes, first);
        let b = bytes_at(&self.second_bytes, second);
        let (m, n) = (self.first_inside, self.second_inside);
        let base = self.base;
        Held {
            frame: sum_of(base.frame, true, true, a, b),
            inner: sum_of(base.inner, m.inner, n.inner, a, b),
            component: [
                sum_of(
                    base.component[0],
                    m.has(Budget::C0),
                    n.has(Budget::C0),
                    a,
                    b,
                ),
                sum_of(
                    base.component[1],
                    m.has(Budget::C1),
                    n.has(Budget::C1),
                    a,
                    b,
                ),
                sum_of(
                    base.component[2],
                    m.has(Budget::C2),
                    n.has(Budget::C2),
                    a,
                    b,
                ),
            ],
        }
    }
}

impl Price for TwoBlocks {
    ghost use Rattle.std.specs.Prelude.{◌≡◌, ◌∷◌, [], refl};
    ghost use Rattle.std.proofs.Common.{◌∙◌};
    ghost use Rattle.budget_duals.specs.TwoBlocks.{two_held, two_inside};
    ghost use Rattle.budget_duals.specs.TwoBlocksLaws.{two_counts, two_law};

    ghost highest = { λ s. 3 ∷ 3 ∷ [] };

    ghost counts = { λ s. s.first ∷ s.second ∷ [] };

    ghost held_for = { λ s c. two_held s.base s.first_inside s.second_inside s.first_bytes
        s.second_bytes c };

    ghost inside_of = { λ s b. two_inside s.first_inside s.second_inside b };

    ghost knows = { λ s step. Unit {0} };

    ghost keeps = { λ s t.
        (two_held t.base t.first_inside t.second_inside t.first_bytes t.second_bytes
        ≡ two_held s.base s.first_inside s.second_inside s.first_bytes s.second_bytes)
        × (two_inside t.first_inside t.second_inside ≡ two_inside s.first_inside s.second_inside) };

    ghost are_counts = { λ s. two_counts s.first s.second s.first_few s.second_few };

    ghost has_law = { λ s. two_law s.base s.first_inside s.second_inside s.first_bytes
        s.second_bytes };

    ghost keeps_itself = { λ s. (refl, refl) };

    ghost keeps_on = { λ s t u a b. (b.0 ∙ a.0, b.1 ∙ a.1) };

    ghost same_highest = { λ s t same. refl };

    ghost same_held = { λ s t same. same.0 };

    ghost same_inside = { λ s t same. same.1 };

    ghost same_knows = { λ s t step same known. known };

    fn count(&self) -> u32 {
        2
    }

    fn held(&self) -> Held {
        self.held_at(self.first, self.second)
    }

    fn after(&self, step: &Step) -> Held {
        if step.block == 0 {
            self.held_at(step.to, self.second)
        } else {
            self.held_at(self.first, step.to)
        }
    }

    fn take(&mut self, step: &Step) {
        if step.block == 0 {
            self.first = step.to;
        } else {
            self.second = step.to;
        }
    }

    fn inside(&self, block: u32) -> Members {
        if block == 0 {
            self.first_inside
        } else {
            self.second_inside
        }
    }
}
