// A plane of indexes as far as a reader knows them.
ghost use Rattle.std.specs.Prelude.{◌≡◌, ◌*◌, ◌≤◌, false, length, replicate, IfOk};

use std::alloc::{AllocError, Global};

/// What a reader knows of a coefficient (ISO/IEC 15444-1, Annex D.2).
#[derive(Clone, Copy, Debug, Default, PartialEq, Eq)]
pub struct Known {
    /// The magnitude of the index without its lowest `unknown` bit-planes.
    pub magnitude: u32,
    /// Whether the sign is known to be minus.
    pub negative: bool,
    /// How many bit-planes, the lowest ones, are unknown.
    pub unknown: u8,
}

/// What is known of the coefficients of one component, in raster order: `height` rows of `width`
/// cells, each side from 1 to 4,096.
#[derive(Debug, Drop)]
pub struct KnownPlane {
    /// The width in cells.
    pub width: u32,
    /// The height in cells.
    pub height: u32,
    /// The cells, row by row.
    pub cells: Vec<Known>,
    pub ghost wide: { 1 ≤ width × width ≤ 4096 },
    pub ghost high: { 1 ≤ height × height ≤ 4096 },
    pub ghost whole: { length cells.items ≡ height * width },
}

impl KnownPlane {
    /// A plane whose cells are all 0, with no bit-plane unknown. The only refusal is out of memory.
    pub fn new(alloc: Global, width: u32, height: u32) -> Result<KnownPlane, AllocError>
        requires wide { 1 ≤ width × width ≤ 4096 }
        requires high { 1 ≤ height × height ≤ 4096 }
        ensures width { IfOk result (λ plane. plane.width ≡ width) }
        ensures height { IfOk result (λ plane. plane.height ≡ height) }
        ensures cells { IfOk result (λ plane. plane.cells.items ≡
            replicate (height * width) (record { magnitude = 0; negative = false; unknown = 0 })) }
    {
        let cells = vec![in alloc; Known::default(); height as usize * width as usize]?;
        Ok(KnownPlane {
            width,
            height,
            cells,
        })
    }
}
