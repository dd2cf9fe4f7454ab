// The budgets of a frame by number: frame 0, inner 1, components 2 to 4.
ghost use Rattle.std.specs.Prelude.{◌≡◌, ◌<◌, IfSome};
ghost use Rattle.budget_duals.specs.Numbered.{node_in, bytes_in};

use crate::{Held, Holdings, Members, Price, Tree};
use rd_hulls::Step;

// The innermost budget of a block.
fn node_number(members: Members) -> u32
    ensures { result ≡ node_in members }
{
    match members.component {
        Some(component) => 2 + u32::from(component),
        None => { if members.inner { 1 } else { 0 } }
    }
}

// What a budget holds.
fn bytes_of(held: Held, budget: u32) -> u32
    ensures { result ≡ bytes_in held budget }
{
    match budget {
        0 => held.frame,
        1 => held.inner,
        2 => held.component[0],
        3 => held.component[1],
        4 => held.component[2],
        _ => 0,
    }
}

impl<P: Price> Holdings for P {
    ghost use Rattle.budget_duals.specs.Numbered.{node_in, bytes_in};

    ghost most = { λ s. P.highest s };

    ghost chosen = { λ s. P.counts s };

    ghost node_of = { λ s b. node_in (P.inside_of s b) };

    ghost held_by = { λ s c j. bytes_in (P.held_for s c) j };

    ghost knows = { λ s step. P.knows s step };

    ghost stays = { λ s t. P.keeps s t };

    ghost stays_itself = { λ s. P.keeps_itself s };

    ghost stays_on = { λ s t u. P.keeps_on s t u };

    fn node(&self, block: u32) -> u32 {
        node_number(self.inside(block))
    }

    fn held_now(&self, budget: u32) -> u32 {
        bytes_of(self.held(), budget)
    }

    fn held_with(&self, step: &Step, budget: u32) -> u32 {
        bytes_of(self.after(step), budget)
    }

    fn breaks(&self, tree: &Tree, step: &Step) -> Option<u32> {
        let node = node_number(self.inside(step.block));
        let held = self.after(step);
        let component = held.component;
        let numbers = [
            held.frame,
            held.inner,
            component[0],
            component[1],
            component[2],
        ];
        tree.outermost_broken(node, &numbers)
    }

    fn choose(&mut self, step: &Step) {
        self.take(step);
    }
}
