// The rows of blocks, and their offers.
ghost use Rattle.std.specs.Prelude.{ℕ, ◌≡◌, ◌≢◌, ◌<◌, ◌≤◌, IfOk, length, take};
ghost use Rattle.offers_on_demand.specs.Hulls.{hull_steps};
ghost use Rattle.offers_on_demand.specs.Rows.{AreRows, IsRow, row_at};
ghost use Rattle.rd_hulls.specs.Hull.{end_of};

use crate::known::offer_now;
use crate::{DemandRow, Passes};
use std::alloc::{AllocError, Global};

// The rows of blocks of which no step is taken.
pub(crate) fn first_rows<P: Passes>(alloc: Global, passes: &P) -> Result<Vec<DemandRow>, AllocError>
    ensures rows { IfOk result (λ rows. AreRows (P.blocks passes.now) (P.known passes.now)
        (P.whole passes.now) (λ b. hull_steps b (P.all passes.now b)) rows.items) }
    ensures none { IfOk result (λ rows. (b : ℕ) → b < P.blocks passes.now →
        (row_at rows.items b).taken ≡ 0) }
{
    let mut rows = Vec::new(alloc);
    for block in 0..passes.count() {
        let offer = offer_now(passes, block, 0);
        rows.push(DemandRow {
            present: 0,
            taken: 0,
            offer,
        })?;
    }
    Ok(rows)
}

// Puts the passes and the number of steps that are taken of a block, and renews its offer.
pub(crate) fn renew<P: Passes>(
    passes: &P,
    rows: &mut Vec<DemandRow>,
    block: u32,
    present: u8,
    taken: u8,
)
    requires block { block < P.blocks passes.now }
    requires many { length rows.old.items ≡ P.blocks passes.now }
    requires others { (b : ℕ) → b < P.blocks passes.now → b ≢ block →
        IsRow (P.known passes.now b) (P.whole passes.now b) (hull_steps b (P.all passes.now b))
        (row_at rows.old.items b) }
    requires present { present < length (P.known passes.now block) }
    requires within { taken ≤ length (hull_steps block (P.all passes.now block)) }
    requires ended { end_of 0 (take taken (hull_steps block (P.all passes.now block)))
        ≡ present }
    ensures rows { AreRows (P.blocks passes.now) (P.known passes.now) (P.whole passes.now)
        (λ b. hull_steps b (P.all passes.now b)) rows.new.items }
    ensures taken { (row_at rows.new.items block).taken ≡ taken }
    ensures others { (b : ℕ) → b ≢ block → row_at rows.new.items b ≡ row_at rows.old.items b }
{
    let offer = offer_now(passes, block, present);
    rows[block as usize] = DemandRow {
        present,
        taken,
        offer,
    };
}
