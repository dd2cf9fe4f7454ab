// The bands of a frame, their code blocks and the blocks of a precinct.
ghost use Rattle.std.specs.Prelude.{◌-◌, ◌*◌, ◌≡◌, ◌≤◌, ◌<◌, ◌/◌, ◌↔◌, ℕ};

use crate::geometry::Geometry;
use crate::places::{BlockId, BlockRange, Rect};
use cine_nums::{BAND_PRECINCT_SIDE, BLOCK_SIDE, Orient};

/// The code blocks along one side of a precinct in a band.
const BLOCKS_ALONG_PRECINCT: u32 = BAND_PRECINCT_SIDE / BLOCK_SIDE;

impl Geometry {
    ghost use Rattle.band_geometry.specs.Bands.{HasBand, band_of, IsBlock, block_of, IsPlaceIn};
    ghost use Rattle.band_geometry.specs.Bands.{HoldsPlace};
    ghost use Rattle.band_geometry.specs.Bands.{precinct_blocks_of, IsInRange, block_columns};
    ghost use Rattle.band_geometry.specs.Bands.{block_rows};
    ghost use Rattle.band_geometry.specs.Bands.{offset_across, offset_down};
    ghost use Rattle.cine_nums.specs.Coding.{block_side, band_precinct_side};
    ghost use Rattle.cine_nums.specs.Levels.{band_level};
    ghost use Rattle.band_geometry.specs.Sizes.{precinct_count, band_side};
    ghost use Rattle.band_geometry.specs.declared.places.BlockId.{BlockId};

    /// Where a band stands in the transformed plane (ISO/IEC 15444-1, B.5): the bands HL, LH and HH
    /// of a resolution stand to the right of the resolution below, under it, and across from it.
    pub fn band(&self, res: u8, orient: Orient) -> Rect
        requires { HasBand self.now res orient }
        ensures value { result ≡ band_of self.now res orient }
        // `band_of` takes the resolution below away; equation B-15 gives the same size in one
        // division.
        ensures standard_width { result.width ≡
            band_side (band_level self.now.levels res) self.now.width (offset_across orient) }
        ensures standard_height { result.height ≡
            band_side (band_level self.now.levels res) self.now.height (offset_down orient) }
        // Each place of the band lies in a block, and by `block` in one alone.
        ensures covered { (c x y : ℕ) → c < 3 → IsPlaceIn result x y →
            (id : BlockId) × HoldsPlace self.now c res orient x y id }
    {
        match orient {
            Orient::LL => {
                let (width, height) = self.res_size(0);
                Rect {
                    x: 0,
                    y: 0,
                    width,
                    height,
                }
            }
            _ => self.detail_band(res, orient),
        }
    }

    /// A band of high frequencies.
    #[tactic(auto, using(crate::proofs::SideLemmas::res_side_below_le))]
    fn detail_band(&self, res: u8, orient: Orient) -> Rect
        requires band { HasBand self.now res orient }
        requires detail { 1 ≤ res }
        ensures { result ≡ band_of self.now res orient }
    {
        let (width, height) = self.res_size(res);
        let (x, y) = self.res_size(res - 1);
        match orient {
            Orient::LL => unreachable!(),
            Orient::HL => Rect {
                x,
                y: 0,
                width: width - x,
                height: y,
            },
            Orient::LH => Rect {
                x: 0,
                y,
                width: x,
                height: height - y,
            },
            Orient::HH => Rect {
                x,
                y,
                width: width - x,
                height: height - y,
            },
        }
    }

    /// The places of a code block in the transformed plane. Blocks are 32 by 32, counted from the
    /// band's own corner; those at the right and the lower edge are cut (ISO/IEC 15444-1, B.7).
    pub fn block(&self, id: BlockId) -> Rect
        requires { IsBlock self.now id }
        ensures value { result ≡ block_of self.now id }
        ensures inside { (x y : ℕ) → IsPlaceIn result x y →
            IsPlaceIn (band_of self.now id.res id.orient) x y }
        ensures apart { (x y : ℕ) → IsPlaceIn result x y → (other : BlockId) →
            HoldsPlace self.now id.component id.res id.orient x y other → other ≡ id }
    {
        let band = self.band(id.res, id.orient);
        Rect {
            x: band.x + BLOCK_SIDE * id.x,
            y: band.y + BLOCK_SIDE * id.y,
            width: (band.width - BLOCK_SIDE * id.x).min(BLOCK_SIDE),
            height: (band.height - BLOCK_SIDE * id.y).min(BLOCK_SIDE),
        }
    }

    /// The code blocks of a band that precinct `(px, py)` of its resolution holds: at most 4 by 4,
    /// maybe none (ISO/IEC 15444-1, B.7).
    pub fn precinct_blocks(&self, res: u8, orient: Orient, px: u32, py: u32) -> BlockRange
        requires band { HasBand self.now res orient }
        requires column { px < precinct_count self.now.levels self.now.width res }
        requires row { py < precinct_count self.now.levels self.now.height res }
        ensures value { result ≡ precinct_blocks_of self.now res orient px py }
        // They are those blocks of the band whose upper left place lies in the precinct.
        ensures members { (x y : ℕ) →
            x < block_columns self.now res orient → y < block_rows self.now res orient →
            (IsInRange result x y ↔ (block_side * x / band_precinct_side ≡ px) ×
            (block_side * y / band_precinct_side ≡ py)) }
        ensures few { (result.x1 - result.x0 ≤ 4) × (result.y1 - result.y0 ≤ 4) }
    {
        let (columns, rows) = self.block_grid(res, orient);
        BlockRange {
            x0: columns.min(BLOCKS_ALONG_PRECINCT * px),
            y0: rows.min(BLOCKS_ALONG_PRECINCT * py),
            x1: columns.min(BLOCKS_ALONG_PRECINCT * px + BLOCKS_ALONG_PRECINCT),
            y1: rows.min(BLOCKS_ALONG_PRECINCT * py + BLOCKS_ALONG_PRECINCT),
        }
    }
}
