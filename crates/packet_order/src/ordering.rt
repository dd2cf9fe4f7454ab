// The packets of a tile-part in their order.
ghost use Rattle.std.specs.Prelude.{true, ◌≡◌, ◌<◌, ◌≤◌, IfOk, OnOk, length};
ghost use Rattle.std.specs.List.{insert, All, AllPairs, Contains};
ghost use Rattle.std.specs.List.Sorted.{IsPermutation};
ghost use Rattle.cine_nums.specs.Profile.{parts_of};
ghost use Rattle.band_geometry.specs.Sizes.{precinct_count};
ghost use Rattle.packet_order.specs.Order.{comes_before, IsPacketOf, packets_of_row};
ghost use Rattle.packet_order.specs.Order.{packets_of_res, packets_of_res_in};
ghost use Rattle.packet_order.specs.Order.{packets_of_component, packets_of_part, ordered_packets};
ghost use Rattle.packet_order.specs.Sorting.{insert_by, insert_all};
ghost use Rattle.packet_order.specs.declared.packet.PacketId.{PacketId};

use crate::packet::PacketId;
use crate::place::comes_first;
use band_geometry::Geometry;
use std::alloc::{AllocError, Global};

/// The packets of a tile-part in the order in which they stand in it: sorted by the row, then by
/// the column, then by the resolution of the place where their precinct begins on the reference
/// grid.
///
/// `part` counts tile-parts from 0: 0 to 2 for 2K, 0 to 5 for 4K. A precinct without any code block
/// has a packet too.
pub fn order(alloc: Global, geometry: &Geometry, part: u8) -> Result<Vec<PacketId>, AllocError>
    requires { part < parts_of geometry.now.profile }
    ensures value { IfOk result (λ packets. packets.items ≡ ordered_packets geometry.now part) }
    ensures members { IfOk result (λ packets. IsPermutation
        (packets_of_part geometry.now part) packets.items) }
    // Each precinct of the tile-part that begins within the frame has its packet there, and nothing
    // else is there.
    ensures each { IfOk result (λ packets. All (IsPacketOf geometry.now part) packets.items) }
    ensures whole { IfOk result (λ packets. (p : PacketId) → IsPacketOf geometry.now part p →
        Contains packets.items p) }
    // Each comes before all later ones, so that none stands there twice.
    ensures sorted { IfOk result (λ packets. AllPairs
        (λ a b. comes_before geometry.now a b ≡ true) packets.items) }
{
    let mut packets = Vec::new(alloc);
    for component in 0..3 {
        add_component(&mut packets, geometry, part, component)?;
    }
    Ok(packets)
}

/// Adds the packets of a component that the tile-part holds.
fn add_component(
    packets: &mut Vec<PacketId>,
    geometry: &Geometry,
    part: u8,
    component: u8,
) -> Result<(), AllocError>
    requires { component < 3 }
    ensures { OnOk result (packets.new.items
        ≡ insert_all (comes_before geometry.now) packets.old.items
        (packets_of_component geometry.now part component)) }
{
    for res in 0..geometry.levels + 1 {
        add_res_of_part(packets, geometry, part, component, res)?;
    }
    Ok(())
}

/// Adds the packets of a resolution, if the tile-part holds it.
fn add_res_of_part(
    packets: &mut Vec<PacketId>,
    geometry: &Geometry,
    part: u8,
    component: u8,
    res: u8,
) -> Result<(), AllocError>
    requires component { component < 3 }
    requires res { res ≤ geometry.now.levels }
    ensures { OnOk result (packets.new.items
        ≡ insert_all (comes_before geometry.now) packets.old.items
        (packets_of_res_in geometry.now part component res)) }
{
    if geometry.part_at(component, res) == part {
        return add_res(packets, geometry, component, res);
    }
    Ok(())
}

/// Adds the packets of a resolution.
fn add_res(
    packets: &mut Vec<PacketId>,
    geometry: &Geometry,
    component: u8,
    res: u8,
) -> Result<(), AllocError>
    requires { res ≤ geometry.now.levels }
    ensures { OnOk result (packets.new.items
        ≡ insert_all (comes_before geometry.now) packets.old.items
        (packets_of_res geometry.now component res)) }
{
    let (across, down) = geometry.precincts(res);
    for py in 0..down {
        let first = PacketId {
            component,
            res,
            px: 0,
            py,
        };
        add_row(packets, geometry, first, across)?;
    }
    Ok(())
}

/// Adds the packets of a row of precincts, given the first of them and their number.
fn add_row(
    packets: &mut Vec<PacketId>,
    geometry: &Geometry,
    first: PacketId,
    across: u32,
) -> Result<(), AllocError>
    requires { across ≡ precinct_count geometry.now.levels geometry.now.width first.res }
    ensures { OnOk result (packets.new.items
        ≡ insert_all (comes_before geometry.now) packets.old.items
        (packets_of_row geometry.now first.component first.res first.py)) }
{
    for px in 0..across {
        let id = PacketId { px, ..first };
        let at = place_among(packets, geometry, id);
        packets.insert(at, id)?;
    }
    Ok(())
}

/// Where a packet has to stand among packets that are sorted.
fn place_among(packets: &[PacketId], geometry: &Geometry, id: PacketId) -> usize
    ensures within { result ≤ length packets.now }
    ensures place { insert packets.now result id
        ≡ insert_by (comes_before geometry.now) id packets.now }
{
    for (i, other) in packets.iter().enumerate() {
        if comes_first(geometry, id, *other) {
            return i;
        }
    }
    packets.len()
}

#[cfg(test)]
mod tests {
    use super::*;
    use cine_nums::Profile;
    use std::test::Fail;

    #[test]
    fn resolutions_of_one_place_rise(rt: HostRuntime) -> Result<(), Fail> {
        let packets = order(rt.alloc(), &Geometry::new(Profile::TwoK, 5, 1, 1), 0)?;
        assert_eq!(rt; packets.len(), 6);
        for (res, packet) in packets.iter().enumerate() {
            assert_eq!(rt; (packet.component, packet.px, packet.py), (0, 0, 0));
            assert_eq!(rt; packet.res as usize, res);
        }
        Ok(())
    }

    /// 300 samples have two precincts at resolution 5, the second one at the place 256; 20 rows
    /// more than 256 have two rows of them.
    #[test]
    fn rows_come_before_columns(rt: HostRuntime) -> Result<(), Fail> {
        let packets = order(rt.alloc(), &Geometry::new(Profile::TwoK, 5, 300, 276), 1)?;
        assert_eq!(rt; packets.len(), 9);
        assert_eq!(rt;
            packets[6],
            PacketId {
                component: 1,
                res: 5,
                px: 1,
                py: 0
            }
        );
        assert_eq!(rt;
            packets[7],
            PacketId {
                component: 1,
                res: 5,
                px: 0,
                py: 1
            }
        );
        assert_eq!(rt;
            packets[8],
            PacketId {
                component: 1,
                res: 5,
                px: 1,
                py: 1
            }
        );
        Ok(())
    }

    #[test]
    fn the_largest_resolution_of_4k_stands_apart(rt: HostRuntime) -> Result<(), Fail> {
        let geometry = Geometry::new(Profile::FourK, 6, 1, 1);
        assert_eq!(rt; order(rt.alloc(), &geometry, 2)?.len(), 6);
        let packets = order(rt.alloc(), &geometry, 5)?;
        assert_eq!(rt; packets.len(), 1);
        assert_eq!(rt;
            packets[0],
            PacketId {
                component: 2,
                res: 6,
                px: 0,
                py: 0
            }
        );
        Ok(())
    }

    // Five resolutions of 40, 12, 4, 1, 1 and 1 precincts, and one of 144. The last precinct of
    // resolution 5 begins at the place (3584, 2048), that of resolution 6 at (3840, 2048).
    #[test]
    fn packets_of_a_whole_4k_frame(rt: HostRuntime) -> Result<(), Fail> {
        let geometry = Geometry::new(Profile::FourK, 6, 4096, 2160);
        for (part, count, component, res, px, py) in [(0, 59, 0, 5, 7, 4), (4, 144, 1, 6, 15, 8)] {
            let packets = order(rt.alloc(), &geometry, part)?;
            assert_eq!(rt; packets.len(), count);
            assert_eq!(rt;
                packets[packets.len() - 1],
                PacketId {
                    component,
                    res,
                    px,
                    py
                }
            );
        }
        Ok(())
    }
}
