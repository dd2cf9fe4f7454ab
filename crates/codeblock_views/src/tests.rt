// Views of planes, and planes at their largest size.
use crate::coefs::Coefs;
use crate::known::{Known, KnownPlane};
use crate::plane::CoefPlane;
use crate::view::BlockView;
use crate::view_mut::BlockViewMut;
use band_geometry::Rect;
use dz_quantiser::Coef;
use std::test::Fail;

#[test]
fn a_view_has_the_cells_of_its_rectangle(rt: HostRuntime) -> Result<(), Fail> {
    let mut plane = CoefPlane::new(rt.alloc(), 5, 3)?;
    plane.cells[0] = Coef::new(31, false);
    plane.cells[7] = Coef::new(9, true);
    plane.cells[14] = Coef::new(2, false);
    let rect = Rect {
        x: 1,
        y: 1,
        width: 4,
        height: 2,
    };
    let block = BlockView::of(&plane, rect);
    assert_eq!(rt; (block.width(), block.height(), block.planes()), (4, 2, 4));
    assert_eq!(rt; block.coef(1, 0), Coef::new(9, true));
    assert_eq!(rt; block.coef(3, 1), Coef::new(2, false));
    assert_eq!(rt;
        block.row(1),
        [
            Coef::zero(),
            Coef::zero(),
            Coef::zero(),
            Coef::new(2, false)
        ]
        .as_slice()
    );
    Ok(())
}

#[test]
fn a_view_sets_the_cells_of_its_rectangle(rt: HostRuntime) -> Result<(), Fail> {
    let mut plane = KnownPlane::new(rt.alloc(), 5, 3)?;
    let cell = Known {
        magnitude: 9,
        negative: true,
        unknown: 2,
    };
    let rect = Rect {
        x: 1,
        y: 1,
        width: 4,
        height: 2,
    };
    let mut block = BlockViewMut::of(&mut plane, rect);
    block.set(1, 0, cell);
    assert_eq!(rt; (block.width(), block.height()), (4, 2));
    assert_eq!(rt; block.known(1, 0), cell);
    assert_eq!(rt; block.known(1, 1), Known::default());
    assert_eq!(rt; plane.cells[7], cell);
    assert_eq!(rt; plane.cells[2], Known::default());
    Ok(())
}

#[test]
fn planes_of_the_largest_size(rt: HostRuntime) -> Result<(), Fail> {
    let plane = CoefPlane::new(rt.alloc(), 4096, 4096)?;
    assert_eq!(rt; plane.cells.len(), 16_777_216);
    let plane = KnownPlane::new(rt.alloc(), 4096, 4096)?;
    assert_eq!(rt; plane.cells.len(), 16_777_216);
    Ok(())
}
