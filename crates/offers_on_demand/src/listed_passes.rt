// Blocks whose points stand in memory, as blocks that are coded on demand.
ghost use Rattle.std.specs.Prelude.{ℕ, ◌≡◌, ◌<◌, ◌^◌, length};

use crate::{ListedPoints, Passes};
use arrayvec::ArrayVec;
use rd_hulls::Point;

/// Code-blocks whose points stand in memory. Each time that more passes of a block are asked for,
/// the point of one pass more becomes known.
#[derive(Debug, Drop)]
pub struct ListedPasses {
    blocks: Vec<ListedPoints>,
    ghost few: { length blocks.items < 2 ^ 32 },
}

impl ListedPasses {
    /// So many blocks, in their order.
    pub fn new(blocks: Vec<ListedPoints>) -> ListedPasses
        requires few { length blocks.items < 2 ^ 32 }
        ensures { result.blocks.items ≡ blocks.items }
    {
        ListedPasses { blocks }
    }
}

impl Passes for ListedPasses {
    ghost use Rattle.std.specs.Prelude.{length, slice_get};
    ghost use Rattle.offers_on_demand.specs.ListedBlocks.{all_in, known_in, least_in, whole_in};
    ghost use Rattle.offers_on_demand.specs.ListedLaws.{completes_in, begun_in, few_in};
    ghost use Rattle.offers_on_demand.specs.ListedLaws.{least_some_in, least_short_in};

    ghost blocks = { λ s. length s.blocks.items };

    ghost all = { λ s b. all_in (slice_get s.blocks.items b) };

    ghost known = { λ s b. known_in (slice_get s.blocks.items b) };

    ghost least = { λ s b. least_in (slice_get s.blocks.items b) };

    ghost whole = { λ s b. whole_in (slice_get s.blocks.items b) };

    ghost stays = { λ s t. Unit {0} };

    ghost completes = { λ s b below. completes_in (slice_get s.blocks.items b) };

    ghost begun = { λ s b below. begun_in (slice_get s.blocks.items b) };

    ghost few = { λ s b below. few_in (slice_get s.blocks.items b) };

    ghost least_some = { λ s b below. least_some_in (slice_get s.blocks.items b) };

    ghost least_short = { λ s b below. least_short_in (slice_get s.blocks.items b) };

    ghost stays_itself = { λ s. tt };

    ghost stays_on = { λ s t u first second. tt };

    fn count(&self) -> u32 {
        self.blocks.len() as u32
    }

    fn points(&self, block: u32) -> ArrayVec<Point, 59> {
        self.blocks[block as usize].known()
    }

    fn least_bytes(&self, block: u32) -> u32 {
        self.blocks[block as usize].least_bytes()
    }

    fn is_whole(&self, block: u32) -> bool {
        self.blocks[block as usize].is_whole()
    }

    fn code_more(&mut self, block: u32) {
        self.blocks[block as usize].know_more();
    }
}
