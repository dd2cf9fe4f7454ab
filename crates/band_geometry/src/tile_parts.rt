// Which tile-part holds a resolution of a component, and thus a block.
ghost use Rattle.std.specs.Prelude.{◌≡◌, ◌<◌};
ghost use Rattle.cine_nums.specs.Profile.{parts_of};

use crate::geometry::Geometry;
use crate::places::BlockId;
use cine_nums::Profile;

impl Geometry {
    ghost use Rattle.band_geometry.specs.Bands.{IsBlock};
    ghost use Rattle.band_geometry.specs.TileParts.{part_of_res};

    /// The tile-part, counted from 0, that holds resolution `res` of a component. In 2K it is that
    /// of the component. In 4K the tile-parts 0 to 2 hold the components without their largest
    /// resolution, which the tile-parts 3 to 5 hold.
    pub fn part_at(&self, component: u8, res: u8) -> u8
        requires { component < 3 }
        ensures value { result ≡ part_of_res self.now.profile self.now.levels component res }
        ensures exists { result < parts_of self.now.profile }
    {
        match self.profile {
            Profile::TwoK => component,
            Profile::FourK => {
                if res < self.levels {
                    component
                } else {
                    3 + component
                }
            }
        }
    }

    /// The tile-part, counted from 0, that holds a code block: the one with its resolution of its
    /// component, by `part_at`.
    pub fn part_of(&self, id: BlockId) -> u8
        requires { IsBlock self.now id }
        ensures value { result ≡ part_of_res self.now.profile self.now.levels id.component id.res }
        ensures exists { result < parts_of self.now.profile }
    {
        self.part_at(id.component, id.res)
    }
}
