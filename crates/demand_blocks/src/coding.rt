// Coding passes of a block one after the other.
ghost use Rattle.std.specs.Prelude.{ℕ, ◌≡◌, ◌+◌, ◌*◌, ◌<◌, ◌≤◌, ◌^◌, Bool, List, length, IsTrue};
ghost use Rattle.std.specs.Prelude.{MatchOption, IfSome, vec_capacity};
ghost use Rattle.codeblock_views.specs.Magnitudes.{block_planes};
ghost use Rattle.codeblock_views.specs.Views.{view_cells};
ghost use Rattle.ebcot_contexts.specs.Contexts.{Shape};
ghost use Rattle.ebcot_passes.specs.Block.{IsAfter};
ghost use Rattle.ebcot_passes.specs.Code.{passes_of};
ghost use Rattle.ebcot_passes.specs.Left.{IsLeftAfter};
ghost use Rattle.demand_blocks.specs.Begun.{CanGoOn, GoesOnFrom, IsKept};
ghost use Rattle.demand_blocks.specs.Views.{coefs_in, shape_in};

use crate::bytes::copy_to;
use crate::goal::{cost, is_reached, least_cost};
use cine_nums::Orient;
use codeblock_views::BlockView;
use ebcot_passes::{BlockCoder, CodedPass, LeftBlock};
use std::alloc::Global;

// A block as it was left, or with no pass coded.
fn resume(
    view: &BlockView<'_>,
    orient: Orient,
    planes: u8,
    left: &Option<Box<LeftBlock>>,
) -> BlockCoder
    requires planes { planes ≡ block_planes (view_cells view.now) }
    requires some_planes { 1 ≤ planes }
    requires few { IfSome left.now (λ l. l.value.passes + 2 ≤ 3 * planes) }
    ensures after { (k : ℕ) (buffer : List ℕ) →
        MatchOption left.now (k ≡ 0) (λ l. IsLeftAfter (coefs_in view.now)
        (shape_in view.now orient planes) k l.value buffer) →
        IsAfter (coefs_in view.now) (shape_in view.now orient planes) k result buffer }
    ensures planes { result.planes ≡ planes }
{
    match left {
        Some(left) => BlockCoder::go_on(left, view, orient, planes),
        None => BlockCoder::load(view, orient, planes),
    }
}

// Makes ready to go on with a block: copies the bytes that are kept to the buffer. Where none are
// kept its passes are coded from the first one again.
pub(crate) fn prepare(
    left: &Option<Box<LeftBlock>>,
    bytes: &[u8],
    passes: &mut Vec<CodedPass>,
    buffer: &mut [u8],
)
    requires { length bytes.now ≤ length buffer.old }
    ensures from { (coefs : List (ℕ × Bool)) (s : Shape) →
        IsKept coefs s passes.old.items left.now bytes.now →
        GoesOnFrom coefs s passes.new.items left.now buffer.new }
    ensures few { length passes.new.items ≤ length passes.old.items }
    ensures capacity { vec_capacity passes.new ≡ vec_capacity passes.old }
    ensures length { length buffer.new ≡ length buffer.old }
{
    match left {
        Some(_) => copy_to(bytes, buffer),
        None => passes.clear(),
    }
}

/// How far a block is coded.
#[derive(Clone, Copy)]
pub(crate) struct Reach {
    /// The least number of passes in all, and the most.
    pub(crate) least: u8,
    pub(crate) most: u8,
    /// The price of a byte at which further passes are to be worth nothing.
    pub(crate) price: u64,
    /// The distortion of the block without a pass.
    pub(crate) start: u64,
}

impl Reach {
    // Whether so many passes are enough, of which this one is the last and these are the least
    // costs.
    fn is_met(&self, passes: u8, least: u128, last: &CodedPass) -> bool
        ensures { IsTrue result → self.now.least ≤ passes }
    {
        passes >= self.least && is_reached(least, last, self.price)
    }
}

// Codes passes of a block, as far as is asked, to a buffer that has the bytes of those before.
pub(crate) fn code_up_to(
    view: &BlockView<'_>,
    orient: Orient,
    planes: u8,
    left: &Option<Box<LeftBlock>>,
    passes: &mut Vec<CodedPass>,
    reach: Reach,
    buffer: &mut [u8],
) -> LeftBlock
    requires planes { planes ≡ block_planes (view_cells view.now) }
    requires some { 1 ≤ reach.least }
    requires most { reach.least ≤ reach.most }
    requires within { reach.most ≤ passes_of planes }
    requires more { length passes.old.items ≤ reach.least }
    requires capacity { reach.most ≤ vec_capacity passes.old }
    requires room { 77312 ≤ length buffer.old }
    requires few { length buffer.old < 2 ^ 31 }
    requires from { GoesOnFrom (coefs_in view.now) (shape_in view.now orient planes)
        passes.old.items left.now buffer.old }
    ensures can { CanGoOn (coefs_in view.now) (shape_in view.now orient planes)
        passes.new.items result buffer.new }
    ensures least { reach.least ≤ length passes.new.items }
    ensures most { length passes.new.items ≤ reach.most }
    ensures capacity { vec_capacity passes.new ≡ vec_capacity passes.old }
    ensures few { result.mark.count ≤ 68023 }
    ensures length { length buffer.new ≡ length buffer.old }
{
    let begun = passes.len() as u8;
    let mut coder = resume(view, orient, planes, left);
    let mut least = least_cost(reach.start, passes.as_slice(), reach.price);
    let mut done = false;
    for k in begun..reach.most {
        if done {
            break;
        }
        let pass = coder.code_pass(buffer);
        least = least.min(cost(&pass, reach.price));
        passes.push_reserved(pass);
        done = reach.is_met(k + 1, least, &pass);
    }
    coder.leave()
}

// What is kept of a block to go on with: nothing where its bytes aren't kept, or where memory is
// missing.
pub(crate) fn left_where(alloc: Global, kept: bool, left: LeftBlock) -> Option<Box<LeftBlock>>
    ensures { IfSome result (λ l. (l.value ≡ left) × IsTrue kept) }
{
    if kept {
        Box::new(alloc, left).ok()
    } else {
        None
    }
}
