// What a main header says.

use arrayvec::ArrayVec;
use cine_nums::Profile;
use dz_quantiser::StepSizes;

/// What the main header of a codestream with three components says (ISO/IEC 15444-1, Annex A.5 to
/// A.7).
#[derive(Drop)]
pub struct MainHeader {
    /// The profile, by Rsiz (Table A.10): 3 is the 2K profile, 4 the 4K profile.
    pub profile: Profile,
    /// Xsiz, the width of the frame in samples. The one tile is as wide.
    pub width: u32,
    /// Ysiz, the height of the frame in samples. The one tile is as high.
    pub height: u32,
    /// How many levels of the wavelet transform there are. A header that is written has the
    /// profile's, 5 for 2K and 6 for 4K.
    pub levels: u8,
    /// The field of COD for the component transform (Table A.17): 0 where there is none, 1 where
    /// components 0, 1 and 2 are transformed, by the irreversible transform with the 9-7 wavelet.
    pub flag: u8,
    /// The guard bits, and the step of each band in the order of QCD.
    pub steps: StepSizes,
    /// The lengths of TLM, in the order of the tile-parts: the bytes of each from its marker SOT
    /// on. There are 3 tile-parts in the 2K profile, and 6 in the 4K profile.
    pub parts: ArrayVec<u32, 6>,
}

/// A main header that was read, and where it stands in its bytes.
#[derive(Drop)]
pub struct MainRead {
    /// What it says.
    pub main: MainHeader,
    /// The places of the lengths of TLM, counted in bytes from SOC, in the order of the tile-parts.
    pub parts_at: ArrayVec<u32, 6>,
    /// How many bytes the header has: the place of the first marker SOT.
    pub bytes: u32,
}
