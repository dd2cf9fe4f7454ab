// A plane of coefficients.
ghost use Rattle.std.specs.Prelude.{◌≡◌, ◌*◌, ◌≤◌, length, replicate, IfOk};
ghost use Rattle.dz_quantiser.specs.Coefficient.{zero_coefficient};

use dz_quantiser::Coef;
use std::alloc::{AllocError, Global};

/// The coefficients of one component in raster order: `height` rows of `width` cells, each side
/// from 1 to 4,096. The bands stand where the wavelet transform leaves them (ISO/IEC 15444-1,
/// Annex B.5).
#[derive(Debug, Drop)]
pub struct CoefPlane {
    /// The width in cells.
    pub width: u32,
    /// The height in cells.
    pub height: u32,
    /// The cells, row by row.
    pub cells: Vec<Coef>,
    pub ghost wide: { 1 ≤ width × width ≤ 4096 },
    pub ghost high: { 1 ≤ height × height ≤ 4096 },
    pub ghost whole: { length cells.items ≡ height * width },
}

impl CoefPlane {
    /// A plane whose coefficients are all 0. The only refusal is out of memory.
    pub fn new(alloc: Global, width: u32, height: u32) -> Result<CoefPlane, AllocError>
        requires wide { 1 ≤ width × width ≤ 4096 }
        requires high { 1 ≤ height × height ≤ 4096 }
        ensures width { IfOk result (λ plane. plane.width ≡ width) }
        ensures height { IfOk result (λ plane. plane.height ≡ height) }
        ensures cells { IfOk result (λ plane.
            plane.cells.items ≡ replicate (height * width) zero_coefficient) }
    {
        let cells = vec![in alloc; Coef::zero(); height as usize * width as usize]?;
        Ok(CoefPlane {
            width,
            height,
            cells,
        })
    }
}
