// How large a frame may be.

/// The largest width and height that are read, in pixels.
#[derive(Clone, Copy, Debug, PartialEq, Eq)]
pub struct SizeLimits {
    pub width: u32,
    pub height: u32,
}
