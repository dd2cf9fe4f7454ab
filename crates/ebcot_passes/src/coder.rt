// All coding passes of a code-block.
ghost use Rattle.std.specs.Prelude.{◌≡◌, ◌<◌, ◌≤◌, ◌^◌, length};
ghost use Rattle.ebcot_contexts.specs.Contexts.{Shape};
ghost use Rattle.codeblock_views.specs.Magnitudes.{block_planes};
ghost use Rattle.distortion_sums.specs.Coefs.{coefs_of};
ghost use Rattle.distortion_sums.specs.Distortion.{distortion};
ghost use Rattle.ebcot_passes.specs.Code.{IsBlockCode};

use crate::block::BlockCoder;
use crate::coded::BlockCode;
use arrayvec::ArrayVec;
use cine_nums::Orient;
use codeblock_views::Coefs;

/// Codes all passes of a block in a band of orientation `orient`, into the first bytes of `bytes`,
/// of which it needs 77,312 at least (ISO/IEC 15444-1, Annex D). A block whose coefficients are all
/// 0 has no pass. Nothing is refused, and nothing takes memory.
pub fn code<C: Coefs>(block: &C, orient: Orient, bytes: &mut [u8]) -> BlockCode
    requires room { 77312 ≤ length bytes.old }
    requires few { length bytes.old < 2 ^ 31 }
    ensures planes { result.planes ≡ block_planes (C.cells block.now) }
    ensures start { (s : Shape) → s.orient ≡ orient → s.width ≡ C.columns block.now →
        s.height ≡ C.rows block.now → s.planes ≡ result.planes →
        result.start ≡ distortion (coefs_of (C.cells block.now)) s 0 }
    ensures codes { (s : Shape) → s.orient ≡ orient → s.width ≡ C.columns block.now →
        s.height ≡ C.rows block.now → s.planes ≡ result.planes →
        IsBlockCode (coefs_of (C.cells block.now)) s result.passes.items bytes.new }
    ensures length { length bytes.new ≡ length bytes.old }
{
    let planes = block.planes();
    let mut passes = ArrayVec::new();
    if planes == 0 {
        return BlockCode {
            planes,
            start: 0,
            passes,
        };
    }
    let mut coder = BlockCoder::load(block, orient, planes);
    let start = coder.distortion();
    for _k in 0..3 * u32::from(planes) - 2 {
        passes.push(coder.code_pass(bytes));
    }
    BlockCode {
        planes,
        start,
        passes,
    }
}
