// The packing of worked examples.
ghost use Rattle.std.specs.Prelude.{◌≡◌, ◌<◌, length};
ghost use Rattle.bit_stuffing.specs.Stuffing.{packed};

use crate::{BitCount, BitFault, BitIn, BitOut, BitSink};
use arrayvec::ArrayVec;

fn bytes_of(bits: &[bool]) -> ArrayVec<u8, 1024>
    requires { length bits.now < 100 }
    ensures { result.items ≡ packed bits.now }
{
    let mut out = BitOut::new();
    for bit in bits {
        out.put(*bit);
    }
    out.finish()
}

#[test]
fn packs_ones(rt: HostRuntime) {
    assert_eq!(rt; bytes_of(&[]).as_slice(), [].as_slice());
    assert_eq!(rt; bytes_of(&[true; 8]).as_slice(), [0xff, 0x00].as_slice());
    assert_eq!(rt; bytes_of(&[true; 9]).as_slice(), [0xff, 0x40].as_slice());
    assert_eq!(rt; bytes_of(&[true; 15]).as_slice(), [0xff, 0x7f].as_slice());
}

#[test]
fn takes_ones(rt: HostRuntime) {
    let mut bits = BitIn::new(&[0xff, 0x40, 0xff]);
    for _ in 0..9 {
        assert_eq!(rt; bits.take(), Ok(true));
    }
    assert_eq!(rt; bits.place(), 1);
    assert_eq!(rt; bits.finish(), Ok(2));

    let mut bits = BitIn::new(&[0xff, 0xc0]);
    for _ in 0..8 {
        assert_eq!(rt; bits.take(), Ok(true));
    }
    assert_eq!(rt; bits.take(), Err(BitFault::StuffedBitSet(1)));

    let mut bits = BitIn::new(&[0xff]);
    assert_eq!(rt; bits.take(), Ok(true));
    assert_eq!(rt; bits.finish(), Err(BitFault::OutOfBits(1)));
}

#[test]
fn counts_ones(rt: HostRuntime) {
    let mut count = BitCount::new();
    assert_eq!(rt; count.finish(), 0);
    count = BitCount::new();
    count.put_number(8, 0xff);
    assert_eq!(rt; count.finish(), 2);
    count = BitCount::new();
    count.put_number(15, 0x7fff);
    count.put_number(0, 0);
    assert_eq!(rt; count.finish(), 2);
    count = BitCount::new();
    count.put_number(16, 0xffff);
    assert_eq!(rt; count.finish(), 3);

    let mut out = BitOut::new();
    out.put_number(3, 0b101);
    out.put_number(10, 0b11111_00000);
    // 10111111 00000
    assert_eq!(rt; out.finish().as_slice(), [0xbf, 0x00].as_slice());
}

#[test]
fn counts_four_bytes_at_a_time(rt: HostRuntime) {
    let mut count = BitCount::new();
    count.put_number(40, 0x01_0203_0405);
    assert_eq!(rt; count.finish(), 5);

    // FF 7F FF 7F FF 60
    count = BitCount::new();
    count.put_number(40, 0xff_ffff_ffff);
    assert_eq!(rt; count.finish(), 6);

    // 01 02 FF 02 00
    count = BitCount::new();
    count.put_number(32, 0x0102_ff04);
    assert_eq!(rt; count.finish(), 5);

    // 01 02 03 FF 40, as the last bit stands after a stuffed 0
    count = BitCount::new();
    count.put_number(33, 0x0204_07ff);
    assert_eq!(rt; count.finish(), 5);
}
