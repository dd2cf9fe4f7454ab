// Laws of the definitions, for the crates above: a call of one of these functions, which do
// nothing, gives the caller its clauses.
ghost use Rattle.std.specs.Prelude.{◌≡◌, ◌<◌, ℕ};
ghost use Rattle.cine_nums.specs.declared.orient.Orient.{Orient};
ghost use Rattle.band_geometry.specs.Bands.{HasBand, band_of, IsPlaceIn, IsInBand};
ghost use Rattle.band_geometry.specs.Places.{block_at_place, IsBandAt, IsBlockAt};
ghost use Rattle.band_geometry.specs.declared.geometry.Geometry.{Geometry};
ghost use Rattle.band_geometry.specs.declared.places.BlockId.{BlockId};

/// Each place of the transformed plane is in exactly one band (`band`, `one_band`), and in exactly
/// one code block of each component (`somewhere`, `once`), which `block_at_place` computes
/// (ISO/IEC 15444-1, B.5 and B.7).
pub fn plane()
    ensures band { (g : Geometry) (x y : ℕ) → x < g.width → y < g.height → IsInBand g x y }
    ensures one_band { (g : Geometry) (r : ℕ) (o : Orient) (x y : ℕ) → HasBand g r o →
        IsPlaceIn (band_of g r o) x y → IsBandAt g x y r o }
    ensures somewhere { (g : Geometry) (c x y : ℕ) → c < 3 → x < g.width → y < g.height →
        IsBlockAt g c x y (block_at_place g c x y) }
    ensures once { (g : Geometry) (c x y : ℕ) (id : BlockId) → IsBlockAt g c x y id →
        id ≡ block_at_place g c x y }
{}
