// What is written of the passes of a block that are coded.
ghost use Rattle.std.specs.Prelude.{◌≡◌, ◌<◌, ◌≤◌, ◌^◌, ◌++◌, IfOk, length};
ghost use Rattle.demand_blocks.specs.Points.{code_of};
ghost use Rattle.demand_blocks.specs.Views.{coefs_in, shape_in};

use crate::DemandBlock;
use crate::bytes::push_ended;
use crate::coding::{Reach, code_up_to};
use std::alloc::AllocError;

impl DemandBlock<'_> {
    /// Appends the bytes of the first `k` passes, which are coded: the ended code of their symbols,
    /// and none where `k` is 0 (Annex C.2.9). Where nothing is kept of the block these passes are
    /// coded again, to a buffer of 77,312 bytes at least. The only refusal is out of memory.
    pub fn push_code(&self, k: u8, buffer: &mut [u8], out: &mut Vec<u8>) -> Result<(), AllocError>
        requires passes { k ≤ length self.now.passes.items }
        requires room { 77312 ≤ length buffer.old }
        requires few { length buffer.old < 2 ^ 31 }
        ensures code { IfOk result (λ _. out.new.items ≡ out.old.items ++ code_of
            (coefs_in self.now.view) (shape_in self.now.view self.now.orient self.now.planes) k) }
        ensures length { length buffer.new ≡ length buffer.old }
    {
        if k == 0 {
            return Ok(());
        }
        match &self.left {
            Some(_) => push_ended(&self.last_of(k).mark, self.bytes.as_slice(), out),
            None => {
                let mut passes = Vec::with_capacity(self.alloc, usize::from(k))?;
                let left = code_up_to(
                    &self.view,
                    self.orient,
                    self.planes,
                    &None,
                    &mut passes,
                    Reach {
                        least: k,
                        most: k,
                        price: 0,
                        start: self.start,
                    },
                    buffer,
                );
                push_ended(left.mark(), buffer, out)
            }
        }
    }
}
