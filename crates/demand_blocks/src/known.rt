// What is known of a block by the passes that are coded.
ghost use Rattle.std.specs.Prelude.{◌≡◌, ◌-◌, ◌≤◌, get_or, length};
ghost use Rattle.distortion_sums.specs.Distortion.{distortion};
ghost use Rattle.ebcot_passes.specs.declared.coded.CodedPass.{CodedPass};
ghost use Rattle.demand_blocks.specs.Points.{code_of, point_of, points_upto, least_after};
ghost use Rattle.demand_blocks.specs.Views.{coefs_in, shape_in};

use crate::DemandBlock;
use arrayvec::ArrayVec;
use ebcot_passes::CodedPass;
use mq_coder::ended_len;
use rd_hulls::Point;

impl DemandBlock<'_> {
    // The last of the first `k` passes, one or more.
    pub(crate) fn last_of(&self, k: u8) -> CodedPass
        requires some { 1 ≤ k }
        requires coded { k ≤ length self.now.passes.items }
        ensures { (other : CodedPass) → result ≡ get_or self.now.passes.items (k - 1) other }
    {
        self.passes[usize::from(k) - 1]
    }

    /// How many bytes the first `k` passes have, which are coded: those of their ended code, and
    /// none where `k` is 0.
    pub fn code_len(&self, k: u8) -> u32
        requires { k ≤ length self.now.passes.items }
        ensures { result ≡ length (code_of (coefs_in self.now.view)
            (shape_in self.now.view self.now.orient self.now.planes) k) }
    {
        if k == 0 {
            return 0;
        }
        ended_len(&self.last_of(k).mark)
    }

    /// The distortion that the first `k` passes leave, which are coded, in units of half a step
    /// squared.
    pub fn distortion(&self, k: u8) -> u64
        requires { k ≤ length self.now.passes.items }
        ensures { result ≡ distortion (coefs_in self.now.view)
            (shape_in self.now.view self.now.orient self.now.planes) k }
    {
        if k == 0 {
            return self.start;
        }
        self.last_of(k).distortion
    }

    // The point of the first `k` passes, which are coded.
    fn point(&self, k: u8) -> Point
        requires { k ≤ length self.now.passes.items }
        ensures { result ≡ point_of (coefs_in self.now.view)
            (shape_in self.now.view self.now.orient self.now.planes) k }
    {
        Point {
            len: self.code_len(k),
            dist: u128::from(self.distortion(k)),
            passes: k,
        }
    }

    /// The points of no passes up to those that are coded, one for each number of passes: the bytes
    /// of their ended code, and the distortion that they leave.
    pub fn points(&self) -> ArrayVec<Point, 59>
        ensures { result.items ≡ points_upto (coefs_in self.now.view)
            (shape_in self.now.view self.now.orient self.now.planes)
            (length self.now.passes.items) }
    {
        let mut points = ArrayVec::new();
        for k in 0..self.coded() + 1 {
            points.push(self.point(k));
        }
        points
    }

    /// A lower bound on the bytes of every ended code of more passes: one byte more than those put
    /// out.
    pub fn least_bytes(&self) -> u32
        ensures { result ≡ least_after (coefs_in self.now.view)
            (shape_in self.now.view self.now.orient self.now.planes)
            (length self.now.passes.items) }
    {
        let coded = self.coded();
        if coded == 0 {
            return 1;
        }
        self.last_of(coded).mark.count + 1
    }
}
