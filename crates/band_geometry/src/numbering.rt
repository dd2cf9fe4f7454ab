// The numbers of the code blocks.
ghost use Rattle.std.specs.Prelude.{◌≡◌, ◌≤◌, ◌<◌, ◌+◌, ◌*◌, ℕ, Some, length, slice_get};

use crate::geometry::Geometry;
use crate::places::BlockId;
use crate::sides::blocks_along;
use cine_nums::Orient;

impl Geometry {
    ghost use Rattle.band_geometry.specs.Bands.{HasBand, IsBlock, block_columns, block_rows};
    ghost use Rattle.band_geometry.specs.Counts.{band_count, res_count, count_below};
    ghost use Rattle.band_geometry.specs.Counts.{component_count};
    ghost use Rattle.band_geometry.specs.Counts.{count_before_band, place_in_res, number_of};
    ghost use Rattle.band_geometry.specs.Numbering.{all_blocks};

    /// How many code blocks the frame has, over its three components.
    #[tactic(auto, using(crate::proofs::NumberLemmas::length_all_blocks))]
    pub fn blocks(&self) -> u32
        ensures { result ≡ length (all_blocks self.now) }
    {
        3 * self.blocks_below(self.levels + 1)
    }

    /// The code block with the number `n`. Numbers run from 0 on over the component, then the
    /// resolution, then the band (LL, or HL, LH, HH), then the row and at last the column of
    /// blocks.
    pub fn block_id(&self, n: u32) -> BlockId
        requires { n < length (all_blocks self.now) }
        ensures value { slice_get (all_blocks self.now) n ≡ Some result }
        ensures exists { IsBlock self.now result }
    {
        let each = self.blocks_below(self.levels + 1);
        self.block_in_component((n / each) as u8, n % each)
    }

    /// The number of a code block, in the order of `block_id`.
    pub fn number(&self, id: BlockId) -> u32
        requires { IsBlock self.now id }
        ensures value { slice_get (all_blocks self.now) result ≡ Some id }
        ensures counted { result ≡ number_of self.now id }
        // The block stands in the list once, so that `number` and `block_id` are inverse.
        ensures inverse { (n : ℕ) → slice_get (all_blocks self.now) n ≡ Some id → n ≡ result }
    {
        let (columns, _rows) = self.block_grid(id.res, id.orient);
        let before = id.component as u32 * self.blocks_below(self.levels + 1);
        let place = self.blocks_before_band(id.res, id.orient) + id.y * columns + id.x;
        before + self.blocks_below(id.res) + place
    }

    /// How many blocks a band has across and down.
    #[tactic(auto, using(crate::proofs::BandLemmas::band_fits))]
    pub(crate) fn block_grid(&self, res: u8, orient: Orient) -> (u32, u32)
        requires { HasBand self.now res orient }
        ensures columns { result.0 ≡ block_columns self.now res orient }
        ensures rows { result.1 ≡ block_rows self.now res orient }
        ensures few_columns { result.0 ≤ 128 }
        ensures few_rows { result.1 ≤ 128 }
    {
        let band = self.band(res, orient);
        (blocks_along(band.width), blocks_along(band.height))
    }

    /// How many blocks a band has.
    #[tactic(auto, unfolding(crate::specs::Counts::band_count))]
    fn band_blocks(&self, res: u8, orient: Orient) -> u32
        requires { HasBand self.now res orient }
        ensures count { result ≡ band_count self.now res orient }
        ensures few { result ≤ 16384 }
    {
        let (columns, rows) = self.block_grid(res, orient);
        rows * columns
    }

    /// How many blocks a resolution has.
    fn res_blocks(&self, res: u8) -> u32
        requires { res ≤ self.now.levels }
        ensures count { result ≡ res_count self.now res }
        ensures few { result ≤ 49152 }
    {
        if res == 0 {
            return self.band_blocks(0, Orient::LL);
        }
        let high_across = self.band_blocks(res, Orient::HL);
        let high_down = self.band_blocks(res, Orient::LH);
        high_across + high_down + self.band_blocks(res, Orient::HH)
    }

    /// How many blocks a component has at the resolutions below `res`.
    #[tactic(auto, using(crate::proofs::NumberLemmas::count_below_more), unfolding(crate::specs::Counts::count_below))]
    fn blocks_below(&self, res: u8) -> u32
        requires { res ≤ self.now.levels + 1 }
        ensures count { result ≡ count_below self.now res }
        ensures few { result ≤ 49152 * res }
    {
        let mut count = 0;
        for below in 0..res {
            count += self.res_blocks(below);
        }
        count
    }

    /// How many blocks the bands before this one have at its resolution.
    fn blocks_before_band(&self, res: u8, orient: Orient) -> u32
        requires { HasBand self.now res orient }
        ensures count { result ≡ count_before_band self.now res orient }
        ensures few { result ≤ 32768 }
    {
        match orient {
            Orient::LL | Orient::HL => 0,
            Orient::LH => self.band_blocks(res, Orient::HL),
            Orient::HH => { self.band_blocks(res, Orient::HL) + self.band_blocks(res, Orient::LH) }
        }
    }

    /// The block at the place `n` among those of a component.
    #[tactic(auto, using(crate::proofs::NumberLemmas::count_below_more), unfolding(crate::specs::Counts::count_below))]
    fn block_in_component(&self, component: u8, n: u32) -> BlockId
        requires component { component < 3 }
        requires place { n < component_count self.now }
        ensures exists { IsBlock self.now result }
        ensures component { result.component ≡ component }
        ensures place { count_below self.now result.res + place_in_res self.now result ≡ n }
    {
        let mut left = n;
        for res in 0..self.levels + 1 {
            let count = self.res_blocks(res);
            if left < count {
                return self.block_in_res(component, res, left);
            }
            left -= count;
        }
        unreachable!()
    }

    /// The block at the place `n` among those of a resolution.
    fn block_in_res(&self, component: u8, res: u8, n: u32) -> BlockId
        requires component { component < 3 }
        requires res { res ≤ self.now.levels }
        requires place { n < res_count self.now res }
        ensures exists { IsBlock self.now result }
        ensures component { result.component ≡ component }
        ensures res { result.res ≡ res }
        ensures place { place_in_res self.now result ≡ n }
    {
        if res == 0 {
            return self.block_in_band(component, 0, Orient::LL, n);
        }
        let high_across = self.band_blocks(res, Orient::HL);
        let high_down = self.band_blocks(res, Orient::LH);
        if n < high_across {
            self.block_in_band(component, res, Orient::HL, n)
        } else if n < high_across + high_down {
            self.block_in_band(component, res, Orient::LH, n - high_across)
        } else {
            self.block_in_band(component, res, Orient::HH, n - high_across - high_down)
        }
    }

    /// The block at the place `n` among those of a band.
    #[tactic(auto, using(crate::proofs::BandLemmas::in_grid), unfolding(crate::specs::Counts::band_count))]
    fn block_in_band(&self, component: u8, res: u8, orient: Orient, n: u32) -> BlockId
        requires component { component < 3 }
        requires band { HasBand self.now res orient }
        requires place { n < band_count self.now res orient }
        ensures exists { IsBlock self.now result }
        ensures component { result.component ≡ component }
        ensures res { result.res ≡ res }
        ensures orient { result.orient ≡ orient }
        ensures place { result.y * block_columns self.now res orient + result.x ≡ n }
    {
        let (columns, _rows) = self.block_grid(res, orient);
        BlockId {
            component,
            res,
            orient,
            x: n % columns,
            y: n / columns,
        }
    }
}

#[cfg(test)]
mod tests {
    use super::*;
    use cine_nums::Profile;

    #[test]
    fn blocks_of_whole_frames(rt: HostRuntime) {
        assert_eq!(rt; Geometry::new(Profile::TwoK, 5, 2048, 1080).blocks(), 6708);
        assert_eq!(rt; Geometry::new(Profile::TwoK, 5, 1998, 1080).blocks(), 6708);
        assert_eq!(rt;
            Geometry::new(Profile::FourK, 6, 4096, 2160).blocks(),
            26292
        );
    }
}
