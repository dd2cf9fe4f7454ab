// Worked headers, read.
ghost use Rattle.std.specs.Prelude.{◌≤◌};
ghost use Rattle.packet_headers.specs.Reading.{CanRead};

use crate::{BandShape, Entry, Packet, PacketBand, PacketRead, PacketRefusal, PacketShape, read};
use arrayvec::ArrayVec;

fn one_band(width: u8, height: u8, planes: u8) -> PacketShape
    requires width { width ≤ 4 }
    requires height { height ≤ 4 }
    requires some_planes { 1 ≤ planes }
    requires planes { planes ≤ 31 }
    ensures { CanRead result.bands.items }
{
    let mut bands = ArrayVec::new();
    bands.push(BandShape {
        width,
        height,
        planes,
    });
    PacketShape { bands }
}

fn one_block(planes: u8, entry: Entry) -> Packet {
    let mut entries = ArrayVec::new();
    entries.push(entry);
    let mut bands = ArrayVec::new();
    bands.push(PacketBand {
        width: 1,
        height: 1,
        planes,
        entries,
    });
    Packet { bands }
}

fn included(zero_planes: u8, passes: u8, len: u32) -> Entry {
    Entry {
        included: true,
        zero_planes,
        passes,
        len,
    }
}

fn found(planes: u8, entry: Entry, header: u32) -> Result<PacketRead, PacketRefusal> {
    Ok(PacketRead {
        packet: one_block(planes, entry),
        header,
        body: entry.len,
    })
}

#[test]
fn worked_headers_are_read(rt: HostRuntime) {
    let shape = one_band(1, 1, 18);
    assert_eq!(rt;
        read(&[0xC0, 0x07, 0xD8, 0x02, 7], &shape),
        found(18, included(11, 18, 1), 4)
    );
    assert_eq!(rt;
        read(&[0xDF, 0xF8, 0xB0, 0x18, 7, 7, 7, 7], &shape),
        found(18, included(1, 48, 3), 4)
    );
    assert_eq!(rt;
        read(&[0xFF, 0x78, 0xE0, 0x08, 0xFF], &shape),
        found(18, included(0, 51, 1), 4)
    );
}

#[test]
fn empty_packets_are_read(rt: HostRuntime) {
    let shape = one_band(1, 1, 18);
    // a 0 alone, and a 1 with no block included
    assert_eq!(rt; read(&[0x00], &shape), found(18, Entry::default(), 1));
    assert_eq!(rt; read(&[0x80, 9], &shape), found(18, Entry::default(), 1));
    let no_bands = PacketShape {
        bands: ArrayVec::new(),
    };
    for first in [0x00, 0x80] {
        let empty = PacketRead {
            packet: Packet {
                bands: ArrayVec::new(),
            },
            header: 1,
            body: 0,
        };
        assert_eq!(rt; read(&[first], &no_bands), Ok(empty));
    }
    let no_blocks = one_band(0, 3, 1);
    let read_none = read(&[0x80], &no_blocks);
    assert!(rt; read_none.is_ok());
    assert_eq!(rt; read(&[], &shape), Err(PacketRefusal::HeaderTruncated(0)));
}

#[test]
fn a_raise_and_a_length_may_be_long(rt: HostRuntime) {
    // two passes, Lblock raised 60 times, and the length 5 in 64 bits
    let bytes = [
        0xF7, 0xFF, 0x7F, 0xFF, 0x7F, 0xFF, 0x7F, 0xFF, 0x78, 0x00, 0x00, 0x00, 0x00, 0x00, 0x00,
        0x00, 0x14, 1, 2, 3, 4, 5,
    ];
    assert_eq!(rt;
        read(&bytes, &one_band(1, 1, 2)),
        found(2, included(0, 2, 5), 17)
    );
    assert_eq!(rt;
        read(&bytes[..21], &one_band(1, 1, 2)),
        Err(PacketRefusal::BodyTruncated(21))
    );
}

#[test]
fn the_byte_behind_a_last_ff_is_read(rt: HostRuntime) {
    // six zero planes, one pass, Lblock raised five times, and the length 255 in eight bits
    let mut bytes = [0; 259];
    bytes[0] = 0xC0;
    bytes[1] = 0xBE;
    bytes[2] = 0xFF;
    let shape = one_band(1, 1, 7);
    assert_eq!(rt; read(&bytes, &shape), found(7, included(6, 1, 255), 4));
    assert_eq!(rt;
        read(&bytes[..258], &shape),
        Err(PacketRefusal::BodyTruncated(258))
    );
    assert_eq!(rt;
        read(&bytes[..3], &shape),
        Err(PacketRefusal::HeaderTruncated(3))
    );
    bytes[3] = 0x80;
    assert_eq!(rt; read(&bytes, &shape), Err(PacketRefusal::StuffedBitSet(3)));
}

#[test]
fn too_many_zero_planes_are_refused(rt: HostRuntime) {
    // the root's second 0, before any bit of the leaf
    assert_eq!(rt;
        read(&[0xE0], &one_band(2, 1, 2)),
        Err(PacketRefusal::ZeroPlanesTooMany(0))
    );
    // the 31st 0 is the first bit of byte 4
    let bytes = [0xC0, 0, 0, 0, 0];
    let shape = one_band(1, 1, 31);
    assert_eq!(rt;
        read(&bytes, &shape),
        Err(PacketRefusal::ZeroPlanesTooMany(4))
    );
    assert_eq!(rt;
        read(&bytes[..4], &shape),
        Err(PacketRefusal::HeaderTruncated(4))
    );
}

#[test]
fn too_many_passes_are_refused(rt: HostRuntime) {
    let shape = one_band(1, 1, 1);
    // two passes, where one plane has one
    assert_eq!(rt; read(&[0xF0], &shape), Err(PacketRefusal::PassesTooMany(0)));
    // the number of passes is cut short, though it could only be too large
    assert_eq!(rt;
        read(&[0xFF, 0x7F], &shape),
        Err(PacketRefusal::HeaderTruncated(2))
    );
    assert_eq!(rt;
        read(&[0xFF, 0x7F, 0x00], &shape),
        Err(PacketRefusal::PassesTooMany(2))
    );
}
