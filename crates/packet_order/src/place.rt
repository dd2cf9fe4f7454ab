// Where packets stand on the reference grid, and which of two stands first.
ghost use Rattle.std.specs.Prelude.{◌≡◌};
ghost use Rattle.packet_order.specs.Order.{place_of, comes_before};

use crate::packet::PacketId;
use band_geometry::Geometry;
use cine_nums::precinct_side;

/// The place of a packet's precinct on the reference grid, across and down.
fn place(geometry: &Geometry, id: PacketId) -> (u64, u64)
    ensures across { result.0 ≡ place_of geometry.now.levels id.res id.px }
    ensures down { result.1 ≡ place_of geometry.now.levels id.res id.py }
{
    let side = u64::from(precinct_side(id.res));
    let scale = 1u64 << geometry.levels.saturating_sub(id.res);
    (
        u64::from(id.px) * side * scale,
        u64::from(id.py) * side * scale,
    )
}

/// Whether one packet stands before another.
pub(crate) fn comes_first(geometry: &Geometry, a: PacketId, b: PacketId) -> bool
    ensures { result ≡ comes_before geometry.now a b }
{
    let (ax, ay) = place(geometry, a);
    let (bx, by) = place(geometry, b);
    if ay != by {
        ay < by
    } else if ax != bx {
        ax < bx
    } else {
        a.res < b.res
    }
}
