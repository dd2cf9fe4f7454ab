// How long a codestream without any coding pass is. Nothing takes memory.
ghost use Rattle.std.specs.Prelude.{◌≡◌, ◌<◌, ◌≤◌, length};
ghost use Rattle.budget_duals.specs.Held.{limits_of, IsWithin};
ghost use Rattle.cine_nums.specs.Profile.{levels_of, parts_of};
ghost use Rattle.packet_order.specs.Order.{ordered_packets, packets_of_component};
ghost use Rattle.packet_order.specs.Order.{packets_of_res_in};
ghost use Rattle.frame_encoder.specs.Empty.{empty_held, empty_part_lengths};

use crate::header::main_header;
use arrayvec::ArrayVec;
use band_geometry::Geometry;
use budget_duals::Held;
use tile_parts::PART_HEAD_BYTES;

/// How many packets of a resolution of a component are in this tile-part: all or none.
fn res_packets(geometry: &Geometry, index: u8, component: u8, res: u8) -> u32
    requires component { component < 3 }
    requires res { res ≤ geometry.now.levels }
    ensures count { result ≡ length (packets_of_res_in geometry.now index component res) }
    ensures few { result ≤ 561 }
{
    if geometry.part_at(component, res) != index {
        return 0;
    }
    let (across, down) = geometry.precincts(res);
    down * across
}

/// How many packets of a component are in this tile-part.
fn component_packets(geometry: &Geometry, index: u8, component: u8) -> u32
    requires { component < 3 }
    ensures count { result ≡ length (packets_of_component geometry.now index component) }
    ensures few { result ≤ 3927 }
{
    let mut count = 0;
    for res in 0..geometry.levels + 1 {
        count += res_packets(geometry, index, component, res);
    }
    count
}

/// How many packets a tile-part has.
pub fn packet_count(geometry: &Geometry, index: u8) -> u32
    ensures count { result ≡ length (ordered_packets geometry.now index) }
    ensures few { result ≤ 11781 }
{
    let mut count = 0;
    for component in 0..3 {
        count += component_packets(geometry, index, component);
    }
    count
}

/// The lengths of the tile-parts in bytes: each packet is one byte (ISO/IEC 15444-1, B.10.3).
pub fn empty_part_lengths(geometry: &Geometry) -> ArrayVec<u32, 6>
    ensures { result.items ≡ empty_part_lengths geometry.now }
{
    let mut lengths = ArrayVec::new();
    for index in 0..geometry.profile.parts() {
        lengths.push(PART_HEAD_BYTES + packet_count(geometry, index));
    }
    lengths
}

/// What the codestream holds in its byte budgets, which is within the limits of every profile.
pub fn empty_held(geometry: &Geometry) -> Held
    requires { geometry.now.levels ≡ levels_of geometry.now.profile }
    ensures value { result ≡ empty_held geometry.now }
    ensures few { IsWithin (limits_of geometry.now.profile) result }
{
    let lengths = empty_part_lengths(geometry);
    let main = main_header(geometry, empty_part_lengths(geometry)).len() as u32;
    Held::of(geometry.profile, main, lengths.as_slice())
}
