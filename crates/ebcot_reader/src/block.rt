// A whole code-block.
ghost use Rattle.std.specs.Prelude.{◌≡◌, ◌+◌, ◌-◌, ◌*◌, ◌/◌, ◌<◌, ◌≤◌, ◌^◌, ℕ, Bool, List, length};
ghost use Rattle.std.specs.Prelude.{get_or};
ghost use Rattle.mq_coder.specs.Code.{code};
ghost use Rattle.codeblock_views.specs.Rectangles.{IsOutside};
ghost use Rattle.codeblock_views.specs.declared.known.Known.{Known};
ghost use Rattle.ebcot_contexts.specs.Cells.{Cell, view};
ghost use Rattle.ebcot_contexts.specs.Contexts.{Shape};
ghost use Rattle.ebcot_contexts.specs.Meaning.{IsBlock, Means, DecidedBy, symbols_of};
ghost use Rattle.ebcot_contexts.specs.Meaning.{unknown_after, read_block};
ghost use Rattle.ebcot_reader.specs.Results.{cells_of, shape_of, AreTops};
ghost use Rattle.ebcot_reader.specs.Reading.{AreKnown};

use crate::passes::read_next;
use crate::show::show;
use cine_nums::Orient;
use codeblock_views::BlockViewMut;
use flag_words::{blank, significance_contexts};
use mq_decoder::Decoder;

/// Reads the first `passes` passes of a block of `width` by `height` places, 1 to 32 each, from
/// `bytes`, into words and a grid.
fn read_passes(
    bytes: &[u8],
    words: &mut [u32; 340],
    grid: &mut [u32; 1024],
    orient: Orient,
    width: usize,
    height: usize,
    planes: u32,
    passes: u32,
)
    requires width { width ≤ 32 }
    requires height { height ≤ 32 }
    requires planes { planes ≤ 31 }
    requires passes { passes ≤ 3 * planes - 2 }
    ensures known { (s : Shape) → s.orient ≡ orient → s.width ≡ width → s.height ≡ height →
        s.planes ≡ planes →
        AreKnown s.width (read_block bytes.now s passes) grid.new }
    ensures tops { (s : Shape) → s.orient ≡ orient → s.width ≡ width → s.height ≡ height →
        s.planes ≡ planes →
        AreTops s.width (planes - (passes + 1) / 3) (read_block bytes.now s passes) words.new }
{
    let flags = blank(width, height);
    let contexts = significance_contexts(orient);
    *words = flags;
    *grid = [0; 1024];
    let mut decoder = Decoder::new(bytes);
    for k in 0..passes {
        read_next(
            &mut decoder,
            words,
            &flags,
            grid,
            contexts,
            width,
            height,
            planes,
            k,
        );
    }
}

/// Sets every cell of `out` to what the first `passes` coding passes of a code-block give over
/// `bytes` (ISO/IEC 15444-1, Annex D): the block has `planes` bit-planes, at most 31, and is in a
/// band of orientation `orient`. There are at most three passes for each bit-plane, less two; with
/// 0 passes every cell is magnitude 0, plus, with `planes` unknown. Cells outside of the view's
/// rectangle stay. Ones follow the bytes without end.
pub fn read(bytes: &[u8], passes: u8, planes: u8, orient: Orient, out: &mut BlockViewMut<'_>)
    requires planes { planes ≤ 31 }
    requires passes { passes ≤ 3 * planes - 2 }
    ensures means { Means (DecidedBy bytes.now) (shape_of orient planes out.old) passes
        (cells_of out.new) }
    // it is the only meaning
    ensures only { (cells : List Cell) →
        Means (DecidedBy bytes.now) (shape_of orient planes out.old) passes cells →
        cells ≡ cells_of out.new }
    // over the code of a block's first passes it is that block, without the unknown planes
    ensures read_back { (coefs : List (ℕ × Bool)) → IsBlock coefs (shape_of orient planes out.old) →
        bytes.now ≡ code (symbols_of coefs (shape_of orient planes out.old) passes) →
        cells_of out.new ≡ view coefs
        (unknown_after coefs (shape_of orient planes out.old) passes) }
    ensures outside { (k : ℕ) (d : Known) → IsOutside out.old.plane.now.width out.old.rect k →
        get_or out.new.plane.now.cells.items k d ≡ get_or out.old.plane.now.cells.items k d }
    ensures size { (out.new.plane.now.width ≡ out.old.plane.now.width)
        × (out.new.plane.now.height ≡ out.old.plane.now.height) }
    ensures rect { out.new.rect ≡ out.old.rect }
    ensures same_reference { out.new.plane.ghost_name ≡ out.old.plane.ghost_name }
{
    let planes = planes as u32;
    let passes = passes as u32;
    let width = out.width() as usize;
    let height = out.height() as usize;
    let mut words = [0; 340];
    let mut grid = [0; 1024];
    read_passes(
        bytes, &mut words, &mut grid, orient, width, height, planes, passes,
    );
    show(out, &words, &grid, planes - (passes + 1) / 3);
}
