// Worked headers.
ghost use Rattle.std.specs.Prelude.{◌≡◌, ◌<◌, ◌≤◌, ◌+◌, ◌*◌, ◌-◌, length};
ghost use Rattle.packet_headers.specs.Written.{CanWrite, CanWriteBand, CanWriteEntry};

use crate::writing::passes::pass_row;
use crate::{Entry, Packet, PacketBand, header, header_len};
use arrayvec::ArrayVec;

fn one_block(planes: u8, zero_planes: u8, passes: u8, len: u32) -> Packet
    requires planes { planes ≤ 20 }
    requires zero_planes { zero_planes < planes }
    requires some_passes { 1 ≤ passes }
    requires passes { passes ≤ 3 * (planes - zero_planes) - 2 }
    requires some { 1 ≤ len }
    requires len { len ≤ 131072 }
    ensures { CanWrite result }
{
    let mut entries = ArrayVec::new();
    entries.push(Entry {
        included: true,
        zero_planes,
        passes,
        len,
    });
    let mut bands = ArrayVec::new();
    bands.push(PacketBand {
        width: 1,
        height: 1,
        planes,
        entries,
    });
    Packet { bands }
}

fn no_block() -> Packet
    ensures { CanWrite result }
{
    let mut entries = ArrayVec::new();
    entries.push(Entry::default());
    let mut bands = ArrayVec::new();
    bands.push(PacketBand {
        width: 1,
        height: 1,
        planes: 6,
        entries,
    });
    Packet { bands }
}

fn no_band() -> Packet
    ensures { CanWrite result }
{
    Packet {
        bands: ArrayVec::new(),
    }
}

/// Entries of any kind, in a band of 9 planes.
fn entry_of(place: u32, seed: u32) -> Entry
    requires place { place < 16 }
    requires seed { seed < 1000 }
    ensures { CanWriteEntry 9 result }
{
    let x = (place * 37 + seed) % 251;
    if x % 3 == 1 {
        return Entry::default();
    }
    Entry {
        included: true,
        zero_planes: (x / 3 % 5) as u8,
        passes: (1 + x % 12) as u8,
        len: 1 + x * x % 3000,
    }
}

fn band_of(width: u8, height: u8, seed: u32) -> PacketBand
    requires width { width ≤ 4 }
    requires height { height ≤ 4 }
    requires seed { seed < 1000 }
    ensures { CanWriteBand result }
{
    let mut entries: ArrayVec<Entry, 16> = ArrayVec::new();
    let count = u32::from(width) * u32::from(height);
    for place in 0..count {
        entries.push(entry_of(place, seed));
    }
    PacketBand {
        width,
        height,
        planes: 9,
        entries,
    }
}

fn packet_of(first: PacketBand, second: PacketBand, third: PacketBand) -> Packet
    requires first { CanWriteBand first }
    requires second { CanWriteBand second }
    requires third { CanWriteBand third }
    ensures { CanWrite result }
{
    let mut bands: ArrayVec<PacketBand, 3> = ArrayVec::new();
    bands.push(first);
    bands.push(second);
    bands.push(third);
    Packet { bands }
}

#[test]
fn codewords_of_36_and_37_passes(rt: HostRuntime) {
    let nine_bits = pass_row(36);
    assert_eq!(rt; nine_bits.bits_in_all - (nine_bits.most_log + 2), 9);
    assert_eq!(rt; nine_bits.value, 0b1_1111_1110);
    let sixteen_bits = pass_row(37);
    assert_eq!(rt; sixteen_bits.bits_in_all - (sixteen_bits.most_log + 2), 16);
    assert_eq!(rt; sixteen_bits.value, 0b1111_1111_1000_0000);
}

#[test]
fn one_block_of_few_and_many_passes(rt: HostRuntime) {
    let few = one_block(18, 11, 18, 1);
    assert_eq!(rt;
        header(&few).as_slice(),
        [0xC0, 0x07, 0xD8, 0x02].as_slice()
    );
    assert_eq!(rt; header_len(&few), 4);
    let many = one_block(18, 1, 48, 3);
    assert_eq!(rt;
        header(&many).as_slice(),
        [0xDF, 0xF8, 0xB0, 0x18].as_slice()
    );
    assert_eq!(rt; header_len(&many), 4);
    let most = one_block(18, 0, 51, 1);
    assert_eq!(rt;
        header(&most).as_slice(),
        [0xFF, 0x78, 0xE0, 0x08].as_slice()
    );
    assert_eq!(rt; header_len(&most), 4);
}

#[test]
fn more_passes_and_bytes_may_take_fewer_header_bytes(rt: HostRuntime) {
    let three = one_block(6, 1, 3, 512);
    assert_eq!(rt; header(&three).len(), 4);
    assert_eq!(rt; header_len(&three), 4);
    let four = one_block(6, 1, 4, 513);
    assert_eq!(rt; header(&four).len(), 3);
    assert_eq!(rt; header_len(&four), 3);
}

#[test]
fn empty_packet(rt: HostRuntime) {
    let none = no_block();
    assert_eq!(rt; header(&none).as_slice(), [0x00].as_slice());
    assert_eq!(rt; header_len(&none), 1);
    let no_bands = no_band();
    assert_eq!(rt; header(&no_bands).as_slice(), [0x00].as_slice());
    assert_eq!(rt; header_len(&no_bands), 1);
}

#[test]
fn three_bands_of_three_levels(rt: HostRuntime) {
    let packet = packet_of(band_of(4, 3, 5), band_of(2, 4, 70), band_of(3, 1, 190));
    let expected = [
        0xFB, 0xF0, 0x35, 0x1F, 0x0F, 0xED, 0xCB, 0x63, 0xE3, 0xFA, 0xD8, 0xFE, 0x4F, 0xD2, 0xD4,
        0xFC, 0xDE, 0x84, 0x9B, 0xCF, 0xF4, 0xE2, 0xC7, 0x7F, 0x62, 0x2A, 0x3F, 0x07, 0xEF, 0x05,
        0xBF, 0xCD, 0xFA, 0x64, 0xA2, 0xFF, 0x55, 0x62, 0xD7, 0x3F, 0xD3, 0xBA, 0x9F, 0x07, 0xED,
        0x25, 0xF8, 0x75, 0x5D, 0xFE, 0x6F, 0x42, 0x40,
    ];
    assert_eq!(rt; header(&packet).as_slice(), expected.as_slice());
    assert_eq!(rt; header_len(&packet), 53);
}

#[test]
fn three_bands_of_other_sides(rt: HostRuntime) {
    let packet = packet_of(band_of(4, 4, 5), band_of(1, 3, 70), band_of(2, 2, 190));
    let expected = [
        0xFB, 0xF0, 0x35, 0x1F, 0x0F, 0xED, 0xCB, 0x63, 0xE3, 0xFA, 0xD8, 0xFE, 0x4F, 0xD2, 0xD4,
        0xFC, 0xDE, 0x84, 0x9B, 0xCF, 0xF4, 0xE2, 0xC7, 0x7F, 0x62, 0x2A, 0x5F, 0x07, 0xEF, 0x05,
        0xF8, 0x7B, 0x35, 0xF9, 0x3B, 0x74, 0xDF, 0xE6, 0xFD, 0x32, 0x58, 0xDF, 0xF5, 0x58, 0xDF,
        0xCD, 0xE8, 0x49, 0x73, 0xFD, 0x38, 0xA0,
    ];
    assert_eq!(rt; header(&packet).as_slice(), expected.as_slice());
    assert_eq!(rt; header_len(&packet), 52);
}
