// The frame of a number.
ghost use Rattle.std.specs.Prelude.{◌≡◌, ◌+◌, ◌*◌, ◌<◌, ◌≤◌, All, IfOk, OnOk, length};
ghost use Rattle.demo_frames.specs.Demo.{demo_height, demo_picture, demo_samples, demo_width};
ghost use Rattle.demo_frames.specs.Demo.{state_after};
ghost use Rattle.pnm_frames.specs.Picture.{IsSample};
ghost use Rattle.pnm_frames.specs.View.{picture_of};

use crate::samples::pixel_at;
use cine_nums::Profile;
use pnm_frames::Frame;
use std::alloc::{AllocError, Global};

/// The width and height of the flat container of a profile, in samples.
fn size_of(profile: Profile) -> (u32, u32)
    ensures width { result.0 ≡ demo_width profile }
    ensures height { result.1 ≡ demo_height profile }
    ensures some { 1 ≤ result.0 }
    ensures columns { result.0 ≤ 4096 }
    ensures rows { result.1 ≤ 4096 }
{
    match profile {
        Profile::TwoK => (1998, 1080),
        Profile::FourK => (3996, 2160),
    }
}

/// The three planes of a frame while it is made, pixel by pixel, and the generator's state.
#[derive(Drop)]
struct Planes {
    x: Vec<u16>,
    y: Vec<u16>,
    z: Vec<u16>,
    state: u32,
}

impl Planes {
    ghost use Rattle.std.specs.Prelude.{ℕ};
    ghost use Rattle.demo_frames.specs.Made.{AreMade};

    /// Appends the pixel of a place in raster order.
    #[tactic(auto, using(crate::proofs::Pixels::samples_more, crate::proofs::Pixels::state_more))]
    fn push(&mut self, number: u32, width: u32, place: u32) -> Result<(), AllocError>
        requires width { 1 ≤ width }
        requires columns { width ≤ 4096 }
        requires rows { place < width * 4096 }
        requires made { AreMade number width place self.old }
        ensures { OnOk result (AreMade number width (place + 1) self.new) }
    {
        let made = pixel_at(place % width, place / width, self.state);
        self.x.push(made.samples[0])?;
        self.y.push(made.samples[1])?;
        self.z.push(made.samples[2])?;
        self.state = made.state;
        Ok(())
    }
}

/// The frame of a number: 1,998 by 1,080 samples for 2K, and 3,996 by 2,160 for 4K.
pub fn demo_frame(alloc: Global, number: u32, profile: Profile) -> Result<Frame, AllocError>
    ensures { IfOk result (λ frame. picture_of frame ≡ demo_picture number profile) }
{
    let (width, height) = size_of(profile);
    let mut planes = Planes {
        x: Vec::new(alloc),
        y: Vec::new(alloc),
        z: Vec::new(alloc),
        state: number,
    };
    for place in 0..width * height {
        planes.push(number, width, place)?;
    }
    let Planes { x, y, z, .. } = planes;
    Ok(Frame {
        width,
        height,
        x,
        y,
        z,
    })
}
