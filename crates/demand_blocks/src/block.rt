// A code-block whose coding passes are coded on demand.
ghost use Rattle.std.specs.Prelude.{ℕ, ◌≡◌, ◌+◌, ◌<◌, ◌≤◌, ◌==◌, ◌^◌, List, [], length, IfOk};
ghost use Rattle.std.specs.Prelude.{vec_capacity};
ghost use Rattle.codeblock_views.specs.Magnitudes.{block_planes};
ghost use Rattle.codeblock_views.specs.Views.{view_cells};
ghost use Rattle.ebcot_passes.specs.Code.{passes_of};
ghost use Rattle.demand_blocks.specs.Begun.{AreFirst, IsKept};
ghost use Rattle.demand_blocks.specs.BegunLaws.{first_prop, kept_prop};
ghost use Rattle.demand_blocks.specs.Views.{coefs_in, shape_in};

use crate::bytes::keep;
use crate::coding::{Reach, code_up_to, left_where, prepare};
use crate::goal::{is_reached, least_cost};
use cine_nums::Orient;
use codeblock_views::{BlockView, Coefs};
use ebcot_passes::{CodedPass, LeftBlock, undecoded_distortion};
use std::alloc::{AllocError, Global};

/// A code-block of a plane, of which the first coding passes are coded.
///
/// It takes some 110 bytes, 24 for each pass that it can have, and, once a pass is coded and as
/// long as nothing is forgotten, 1.4 kB and the bytes of its code.
#[derive(Drop)]
pub struct DemandBlock<'a> {
    pub(crate) alloc: Global,
    pub(crate) view: BlockView<'a>,
    pub(crate) orient: Orient,
    pub(crate) planes: u8,
    pub(crate) start: u64,
    pub(crate) passes: Vec<CodedPass>,
    pub(crate) left: Option<Box<LeftBlock>>,
    pub(crate) bytes: Vec<u8>,
    ghost planes_are: { planes ≡ block_planes (view_cells view) },
    ghost few_planes: { planes ≤ 20 },
    ghost within: { length passes.items ≤ passes_of planes },
    ghost room: { passes_of planes ≤ vec_capacity passes },
    ghost first: { AreFirst (coefs_in view) (shape_in view orient planes) start
        passes.items } by { first_prop (coefs_in view) (shape_in view orient planes) start
            passes.items },
    ghost short: { length bytes.items ≤ 68023 },
    ghost kept: { IsKept (coefs_in view) (shape_in view orient planes) passes.items left
        bytes.items } by { kept_prop (coefs_in view) (shape_in view orient planes) passes.items left
            bytes.items },
}

// How many passes a block of so many bit-planes has.
fn most_passes(planes: u8) -> usize
    ensures { result ≡ passes_of planes }
{
    (3 * usize::from(planes)).saturating_sub(2)
}

impl<'a> DemandBlock<'a> {
    /// A block of a plane in a band of this orientation, of which no pass is coded. The only
    /// refusal is out of memory.
    pub fn new(
        alloc: Global,
        view: BlockView<'a>,
        orient: Orient,
    ) -> Result<DemandBlock<'a>, AllocError>
        ensures view { IfOk result (λ b. b.view ≡ view.entry) }
        ensures orient { IfOk result (λ b. b.orient ≡ orient) }
        ensures none { IfOk result (λ b. b.passes.items ≡ []) }
    {
        let planes = view.planes();
        let start = undecoded_distortion(&view);
        let passes = Vec::with_capacity(alloc, most_passes(planes))?;
        Ok(DemandBlock {
            alloc,
            view,
            orient,
            planes,
            start,
            passes,
            left: None,
            bytes: Vec::new(alloc),
        })
    }

    /// The magnitude bit-planes of the block's largest magnitude, at most 20.
    pub fn planes(&self) -> u8
        ensures { result ≡ self.now.planes }
    {
        self.planes
    }

    /// How many passes are coded.
    pub fn coded(&self) -> u8
        ensures { result ≡ length self.now.passes.items }
    {
        self.passes.len() as u8
    }

    /// Whether all passes are coded: three for each bit-plane, less two, and none where all
    /// coefficients are 0.
    pub fn is_whole(&self) -> bool
        ensures { result ≡ (length self.now.passes.items == passes_of self.now.planes) }
    {
        self.passes.len() == most_passes(self.planes)
    }

    // Whether no further pass can lower the distortion by as much as its bytes cost at this price.
    pub(crate) fn is_coded_to(&self, price: u64) -> bool {
        match self.passes.last() {
            Some(last) => {
                is_reached(
                    least_cost(self.start, self.passes.as_slice(), price),
                    last,
                    price,
                )
            }
            None => false,
        }
    }

    /// Codes more passes, one at least, and on until no further one can lower the distortion by as
    /// much as its bytes cost at this price, by way of a buffer of 77,312 bytes at least. It refuses
    /// nothing: where memory is missing, nothing is kept to go on with.
    pub fn code_more(&mut self, price: u64, buffer: &mut [u8])
        requires more { length self.old.passes.items < passes_of self.old.planes }
        requires room { 77312 ≤ length buffer.old }
        requires few { length buffer.old < 2 ^ 31 }
        ensures view { self.new.view ≡ self.old.view }
        ensures orient { self.new.orient ≡ self.old.orient }
        ensures planes { self.new.planes ≡ self.old.planes }
        ensures more { length self.old.passes.items < length self.new.passes.items }
        ensures length { length buffer.new ≡ length buffer.old }
    {
        let reach = Reach {
            least: self.coded() + 1,
            most: most_passes(self.planes) as u8,
            price,
            start: self.start,
        };
        prepare(&self.left, self.bytes.as_slice(), &mut self.passes, buffer);
        let left = code_up_to(
            &self.view,
            self.orient,
            self.planes,
            &self.left,
            &mut self.passes,
            reach,
            buffer,
        );
        let kept = keep(&mut self.bytes, &buffer[..left.kept() as usize]);
        self.left = left_where(self.alloc, kept, left);
    }

    /// Keeps nothing to go on with, and gives its memory back: the next pass is coded from the
    /// first one on, and what is said of the block stays.
    pub fn forget(&mut self)
        ensures view { self.new.view ≡ self.old.view }
        ensures orient { self.new.orient ≡ self.old.orient }
        ensures planes { self.new.planes ≡ self.old.planes }
        ensures passes { self.new.passes.items ≡ self.old.passes.items }
    {
        self.left = None;
        self.bytes = Vec::new(self.alloc);
    }
}
