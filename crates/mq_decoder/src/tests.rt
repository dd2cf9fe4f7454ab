// Decisions that are known from outside.
use super::*;

#[test]
fn decides_thirty_bytes(rt: HostRuntime) {
    let bytes = [
        0x84, 0xC7, 0x3B, 0xFC, 0xE1, 0xA1, 0x43, 0x04, 0x02, 0x20, 0x00, 0x00, 0x41, 0x0D, 0xBB,
        0x86, 0xF4, 0x31, 0x7F, 0xFF, 0x88, 0xFF, 0x37, 0x47, 0x1A, 0xDB, 0x6A, 0xDF, 0xFF, 0xAC,
    ];
    let words = [
        0x0002_0051u32,
        0x0000_00C0,
        0x0352_872A,
        0xAAAA_AAAA,
        0x82C0_2000,
        0xFCD7_9EF6,
        0xBF7F_ED90,
        0x4F46_A3BF,
    ];
    let mut decoder = Decoder::new(&bytes);
    for word in words {
        let mut read = 0u32;
        for _ in 0..32u32 {
            read = read << 1 | if decoder.take(9) { 1 } else { 0 };
        }
        assert_eq!(rt; read, word);
    }
}

#[test]
fn decides_a_short_code(rt: HostRuntime) {
    let mut decoder = Decoder::new(&[0x0C]);
    for (cx, bit) in [(0, false), (0, false), (0, true), (9, false)] {
        assert_eq!(rt; decoder.take(cx), bit);
    }
}
