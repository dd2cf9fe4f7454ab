// Laws of the definitions, for the crates above: a call of the function, which does nothing, gives
// the caller its clauses.
ghost use Rattle.std.specs.Prelude.{◌≡◌, ◌*◌, ℕ, List, length};
ghost use Rattle.band_geometry.specs.Bands.{IsBlock, block_of};
ghost use Rattle.band_geometry.specs.declared.geometry.Geometry.{Geometry};
ghost use Rattle.band_geometry.specs.declared.places.BlockId.{BlockId};
ghost use Rattle.codeblock_views.specs.Blocks.{plane_of};
ghost use Rattle.codeblock_views.specs.Rectangles.{IsBlockIn, cells_in};
ghost use Rattle.codeblock_views.specs.declared.known.Known.{Known};

/// Each code block of a frame is a rectangle that a view takes (`fits`), and in a plane that is put
/// together from the cells of its blocks each block has its cells (`cells`).
pub fn assembled()
    ensures fits { (g : Geometry) (id : BlockId) → IsBlock g id →
        IsBlockIn g.width g.height (block_of g id) }
    ensures cells { (g : Geometry) (d : Known) (cells : BlockId → List Known) (id : BlockId) →
        IsBlock g id →
        length (cells id) ≡ (block_of g id).height * (block_of g id).width →
        cells_in d g.width (block_of g id) (plane_of d g id.component cells) ≡ cells id }
{}
