// A packet whose one block changes.
ghost use Rattle.std.specs.Prelude.{◌≡◌, ◌≤◌, ◌<◌, length};
ghost use Rattle.packet_headers.specs.Written.{CanWriteEntry};
ghost use Rattle.packet_headers.specs.Kept.{band_at};

use crate::{Entry, KeptPacket, Packet, PacketBand, header};
use arrayvec::ArrayVec;

fn included(passes: u8, len: u32) -> Entry
    requires some_passes { 1 ≤ passes }
    requires passes { passes ≤ 13 }
    requires some_bytes { 1 ≤ len }
    requires len { len ≤ 131072 }
    ensures { CanWriteEntry 6 result }
{
    Entry {
        included: true,
        zero_planes: 1,
        passes,
        len,
    }
}

fn one_block(entry: Entry) -> KeptPacket
    requires { CanWriteEntry 6 entry }
    ensures bands { length result.bands.items ≡ 1 }
    ensures places { length (band_at result 0).entries.items ≡ 1 }
    ensures planes { (band_at result 0).planes ≡ 6 }
{
    let mut entries = ArrayVec::new();
    entries.push(entry);
    let mut bands = ArrayVec::new();
    bands.push(PacketBand {
        width: 1,
        height: 1,
        planes: 6,
        entries,
    });
    KeptPacket::of(Packet { bands })
}

#[test]
fn a_change_costs_its_new_header(rt: HostRuntime) {
    let mut kept = one_block(included(3, 512));
    assert_eq!(rt; kept.len(), 4);
    let four = included(4, 513);
    assert_eq!(rt; kept.with(0, 0, four), 3);
    assert_eq!(rt; kept.len(), 4);
    kept.set(0, 0, four);
    assert_eq!(rt; kept.len(), 3);
    let len = kept.with(0, 0, Entry::default());
    kept.set_counted(0, 0, Entry::default(), len);
    assert_eq!(rt; kept.len(), 1);
    assert_eq!(rt; header(kept.packet()).as_slice(), [0].as_slice());
}
