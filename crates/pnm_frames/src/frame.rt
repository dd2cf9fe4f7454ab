// What is read: a frame of three planes.
ghost use Rattle.std.specs.Prelude.{◌≡◌, ◌*◌, All, length};
ghost use Rattle.pnm_frames.specs.Picture.{IsSample};

/// A frame of `height` rows of `width` pixels. Each of the planes `x`, `y` and `z` has the samples
/// row by row, from 0 to 4095.
#[derive(Debug, Drop)]
pub struct Frame {
    pub width: u32,
    pub height: u32,
    pub x: Vec<u16>,
    pub y: Vec<u16>,
    pub z: Vec<u16>,
    ghost x_size: { length x.items ≡ width * height },
    ghost y_size: { length y.items ≡ width * height },
    ghost z_size: { length z.items ≡ width * height },
    ghost x_range: { All IsSample x.items },
    ghost y_range: { All IsSample y.items },
    ghost z_range: { All IsSample z.items },
}
