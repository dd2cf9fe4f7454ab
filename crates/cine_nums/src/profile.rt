// The two digital cinema profiles.
ghost use Rattle.std.specs.Prelude.{◌≡◌};
ghost use Rattle.cine_nums.specs.Profile.{levels_of, least_levels_of, guard_of, parts_of};
ghost use Rattle.cine_nums.specs.Profile.{max_width_of, max_height_of};

/// A digital cinema profile of ISO/IEC 15444-1, Table A.10 (the values 3 and 4 of Rsiz).
#[derive(Clone, Copy, Debug, PartialEq, Eq)]
pub enum Profile {
    /// Frames of at most 2,048 by 1,080 samples.
    TwoK,
    /// Frames of at most 4,096 by 2,160 samples.
    FourK,
}

impl Profile {
    /// How many levels of the wavelet transform the encoder uses, the most of the profile: 5 or 6.
    pub fn levels(self) -> u8
        ensures { result ≡ levels_of self }
    {
        match self {
            Profile::TwoK => 5,
            Profile::FourK => 6,
        }
    }

    /// The fewest levels of the wavelet transform that a codestream of the profile may have: 0, or
    /// 1 for 4K, whose frames have the 2K resolution below their own.
    pub fn least_levels(self) -> u8
        ensures { result ≡ least_levels_of self }
    {
        match self {
            Profile::TwoK => 0,
            Profile::FourK => 1,
        }
    }

    /// The guard bits of the quantiser: 1 or 2.
    pub fn guard(self) -> u8
        ensures { result ≡ guard_of self }
    {
        match self {
            Profile::TwoK => 1,
            Profile::FourK => 2,
        }
    }

    /// How many tile-parts a codestream has: 3, one a component, or 6.
    pub fn parts(self) -> u8
        ensures { result ≡ parts_of self }
    {
        match self {
            Profile::TwoK => 3,
            Profile::FourK => 6,
        }
    }

    /// The largest width of a frame, in samples.
    pub fn max_width(self) -> u32
        ensures { result ≡ max_width_of self }
    {
        match self {
            Profile::TwoK => 2048,
            Profile::FourK => 4096,
        }
    }

    /// The largest height of a frame, in samples.
    pub fn max_height(self) -> u32
        ensures { result ≡ max_height_of self }
    {
        match self {
            Profile::TwoK => 1080,
            Profile::FourK => 2160,
        }
    }
}
