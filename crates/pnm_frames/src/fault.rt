// What is wrong with the bytes of a file.
ghost use Rattle.std.specs.Prelude.{◌≡◌};
ghost use Rattle.pnm_frames.specs.Fault.{number_of};

use thiserror::Error;

/// The first fault of a file that is no frame, in reading order. Places count the bytes of the file
/// from 0.
#[derive(Clone, Copy, Debug, PartialEq, Eq, Error)]
pub enum FrameFault {
    /// Byte 0 is there and isn't `P`, or byte 1 is there and isn't `6`.
    #[error("no binary PPM file")]
    NotPpm,
    /// The header byte at this place isn't allowed there.
    #[error("byte {0} is not allowed in the header")]
    BadHeader(u32),
    /// The first 4,096 bytes are allowed and don't end the header.
    #[error("the header is longer than 4096 bytes")]
    HeaderTooLong,
    /// The maxval isn't 4095.
    #[error("the maxval is not 4095")]
    WrongMaxval,
    /// The width is 0 or above the limit.
    #[error("the width is out of range")]
    WidthOutOfRange,
    /// The height is 0 or above the limit.
    #[error("the height is out of range")]
    HeightOutOfRange,
    /// The sample whose first byte is at this place is above 4095.
    #[error("the sample at byte {0} is above 4095")]
    SampleTooLarge(u32),
    /// The file has so many bytes, and a further one is needed.
    #[error("the file ends after {0} bytes")]
    Truncated(u32),
    /// A byte follows the raster.
    #[error("a byte follows the raster")]
    TrailingBytes,
}

impl FrameFault {
    /// The number by which a report names the fault: 1 to 9, in the order of the variants.
    pub fn number(self) -> u8
        ensures { result ≡ number_of self }
    {
        match self {
            FrameFault::NotPpm => 1,
            FrameFault::BadHeader(_) => 2,
            FrameFault::HeaderTooLong => 3,
            FrameFault::WrongMaxval => 4,
            FrameFault::WidthOutOfRange => 5,
            FrameFault::HeightOutOfRange => 6,
            FrameFault::SampleTooLarge(_) => 7,
            FrameFault::Truncated(_) => 8,
            FrameFault::TrailingBytes => 9,
        }
    }
}
