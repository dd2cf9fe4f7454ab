// The tag tree of a worked example.
use crate::Tree;
use bit_stuffing::{BitIn, BitOut};

#[test]
fn writes_and_reads_two_leaves(rt: HostRuntime) {
    let mut out = BitOut::new();
    let mut tree = Tree::of(2, 1, &[3, 5]);
    tree.write_upto(0, 0, 4, &mut out);
    tree.write_upto(1, 0, 6, &mut out);
    let bytes = out.finish();
    // 0001 1 001
    assert_eq!(rt; bytes.as_slice(), [0x19].as_slice());

    let mut bits = BitIn::new(&[0x19]);
    let mut tree = Tree::unread(2, 1);
    assert_eq!(rt; tree.read_upto(0, 0, 3, &mut bits), Ok(false));
    assert_eq!(rt; tree.read_upto(0, 0, 4, &mut bits), Ok(true));
    assert_eq!(rt; tree.read_upto(1, 0, 6, &mut bits), Ok(true));
    assert_eq!(rt; bits.finish(), Ok(1));
}
