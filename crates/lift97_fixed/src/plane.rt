// A plane of cells.
ghost use Rattle.std.specs.Prelude.{◌≡◌, ◌*◌, ◌≤◌, pos, length, replicate, IfOk};

use std::alloc::{AllocError, Global};

/// The cells of one component in raster order: `height` rows of `width` cells, each side from 1 to
/// 4,096.
#[derive(Debug, Drop)]
pub struct Plane {
    pub width: u32,
    pub height: u32,
    pub cells: Vec<i32>,
    pub ghost wide: { 1 ≤ width × width ≤ 4096 },
    pub ghost high: { 1 ≤ height × height ≤ 4096 },
    pub ghost whole: { length cells.items ≡ width * height },
}

impl Plane {
    /// A plane whose cells are all 0. The only refusal is out of memory.
    pub fn new(alloc: Global, width: u32, height: u32) -> Result<Plane, AllocError>
        requires wide { 1 ≤ width × width ≤ 4096 }
        requires high { 1 ≤ height × height ≤ 4096 }
        ensures width { IfOk result (λ plane. plane.width ≡ width) }
        ensures height { IfOk result (λ plane. plane.height ≡ height) }
        ensures cells { IfOk result (λ plane. plane.cells.items
            ≡ replicate (width * height) (pos 0)) }
    {
        let cells = vec![in alloc; 0; width as usize * height as usize]?;
        Ok(Plane {
            width,
            height,
            cells,
        })
    }
}
