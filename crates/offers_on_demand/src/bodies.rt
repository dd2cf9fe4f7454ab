// One budget around two blocks, for tests.
ghost use Rattle.std.specs.Prelude.{◌≡◌, ◌<◌, ◌+◌, ◌∷◌, [], set};
ghost use Rattle.offers_on_demand.specs.Bodies.{both_at, size_at};

use budget_duals::{Holdings, Tree};
use rd_hulls::Step;

/// Two blocks of at most 58 passes: the bytes of each at each count, and its count. Numbers of
/// bytes are read below 2^20.
#[derive(Clone, Copy, Debug)]
pub(crate) struct Bodies {
    pub first_bytes: [u32; 4],
    pub second_bytes: [u32; 4],
    pub first: u8,
    pub second: u8,
}

fn size_of(bytes: &[u32], count: u8) -> u32
    ensures value { result ≡ size_at bytes.now count }
    ensures small { result < 1048576 }
{
    if usize::from(count) < bytes.len() {
        bytes[usize::from(count)] % 0x10_0000
    } else {
        0
    }
}

impl Bodies {
    // The bytes of both at such counts.
    fn bytes_at(&self, first: u8, second: u8) -> u32
        ensures { result ≡ both_at self.now.first_bytes self.now.second_bytes
            (first ∷ second ∷ []) }
    {
        size_of(&self.first_bytes, first) + size_of(&self.second_bytes, second)
    }

    // The bytes of both with a step taken.
    fn bytes_with(&self, step: &Step) -> u32
        ensures { step.now.block < 2 → result ≡ both_at self.now.first_bytes self.now.second_bytes
            (set (self.now.first ∷ self.now.second ∷ []) step.now.block step.now.to) }
    {
        if step.block == 0 {
            self.bytes_at(step.to, self.second)
        } else {
            self.bytes_at(self.first, step.to)
        }
    }
}

impl Holdings for Bodies {
    ghost use Rattle.std.specs.Prelude.{◌≡◌, ◌∷◌, [], refl};
    ghost use Rattle.std.proofs.Common.{◌∙◌};
    ghost use Rattle.offers_on_demand.specs.Bodies.{held_at};

    ghost most = { λ s. 58 ∷ 58 ∷ [] };

    ghost chosen = { λ s. s.first ∷ s.second ∷ [] };

    ghost node_of = { λ s b. 0 };

    ghost held_by = { λ s counts j. held_at s.first_bytes s.second_bytes counts j };

    ghost knows = { λ s step. Unit {0} };

    ghost stays = { λ s t. held_at t.first_bytes t.second_bytes
        ≡ held_at s.first_bytes s.second_bytes };

    ghost stays_itself = { λ s. refl };

    ghost stays_on = { λ s t u first second. second ∙ first };

    fn node(&self, block: u32) -> u32 {
        0
    }

    fn held_now(&self, budget: u32) -> u32 {
        if budget == 0 {
            self.bytes_at(self.first, self.second)
        } else {
            0
        }
    }

    fn held_with(&self, step: &Step, budget: u32) -> u32 {
        if budget == 0 {
            self.bytes_with(step)
        } else {
            0
        }
    }

    fn breaks(&self, tree: &Tree, step: &Step) -> Option<u32> {
        tree.outermost_broken(0, &[self.bytes_with(step)])
    }

    fn choose(&mut self, step: &Step) {
        if step.block == 0 {
            self.first = step.to;
        } else {
            self.second = step.to;
        }
    }
}
