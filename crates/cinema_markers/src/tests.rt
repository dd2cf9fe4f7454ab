// Headers whose bytes are typed from the tables of ISO/IEC 15444-1, Annex A.
ghost use Rattle.std.specs.Prelude.{◌≤◌, length};
ghost use Rattle.cine_nums.specs.Profile.{max_width_of, max_height_of};

use crate::header::MainHeader;
use crate::read::read_main;
use crate::refusal::MarkerRefusal;
use crate::write::main_bytes;
use arrayvec::ArrayVec;
use cine_nums::Profile;
use dz_quantiser::StepSizes;

/// The header of a frame of the 2K profile with one pixel, whose three tile-parts have 20 bytes
/// each.
#[rattlefmt::skip]
const TWO_K: &[u8] = &[
    0xFF, 0x4F,
    0xFF, 0x51, 0x00, 0x2F, 0x00, 0x03, 0x00, 0x00, 0x00, 0x01, 0x00, 0x00, 0x00, 0x01,
    0x00, 0x00, 0x00, 0x00, 0x00, 0x00, 0x00, 0x00, 0x00, 0x00, 0x00, 0x01, 0x00, 0x00, 0x00, 0x01,
    0x00, 0x00, 0x00, 0x00, 0x00, 0x00, 0x00, 0x00, 0x00, 0x03,
    0x0B, 0x01, 0x01, 0x0B, 0x01, 0x01, 0x0B, 0x01, 0x01,
    0xFF, 0x52, 0x00, 0x12, 0x01, 0x04, 0x00, 0x01, 0x01, 0x05, 0x03, 0x03, 0x00, 0x00,
    0x77, 0x88, 0x88, 0x88, 0x88, 0x88,
    0xFF, 0x5C, 0x00, 0x23, 0x22, 0x90, 0x00, 0x90, 0x00, 0x90, 0x00, 0x90, 0x00, 0x88, 0x00,
    0x88, 0x00,
    0x88, 0x00, 0x80, 0x00, 0x80, 0x00, 0x80, 0x00, 0x78, 0x00, 0x78, 0x00, 0x78, 0x00, 0x70, 0x00,
    0x70, 0x00, 0x70, 0x00,
    0xFF, 0x55, 0x00, 0x13, 0x00, 0x50, 0x00, 0x00, 0x00, 0x00, 0x14, 0x00, 0x00, 0x00, 0x00, 0x14,
    0x00, 0x00, 0x00, 0x00, 0x14,
];

/// COD, QCD, POC, and TLM up to its first length, of the 4K profile.
#[rattlefmt::skip]
const FOUR_K: &[u8] = &[
    0xFF, 0x52, 0x00, 0x13, 0x01, 0x04, 0x00, 0x01, 0x01, 0x06, 0x03, 0x03, 0x00, 0x00,
    0x77, 0x88, 0x88, 0x88, 0x88, 0x88, 0x88,
    0xFF, 0x5C, 0x00, 0x29, 0x42, 0x98, 0x00, 0x98, 0x00, 0x98, 0x00, 0x98, 0x00, 0x90, 0x00,
    0x90, 0x00,
    0x90, 0x00, 0x88, 0x00, 0x88, 0x00, 0x88, 0x00, 0x80, 0x00, 0x80, 0x00, 0x80, 0x00, 0x78, 0x00,
    0x78, 0x00, 0x78, 0x00, 0x70, 0x00, 0x70, 0x00, 0x70, 0x00,
    0xFF, 0x5F, 0x00, 0x10, 0x00, 0x00, 0x00, 0x01, 0x06, 0x03, 0x04, 0x06, 0x00, 0x00, 0x01,
    0x07, 0x03, 0x04,
    0xFF, 0x55, 0x00, 0x22, 0x00, 0x50, 0x00, 0x00, 0x00, 0x00, 0x14,
];

/// The header of a frame with the built-in steps, whose tile-parts have 20 bytes each.
#[tactic(auto, using(crate::proofs::BuiltIn::exponents_fit, crate::proofs::BuiltIn::mantissas_fit))]
fn bytes_of(profile: Profile, width: u32, height: u32) -> ArrayVec<u8, 192>
    requires some_width { 1 ≤ width }
    requires width { width ≤ max_width_of profile }
    requires some_height { 1 ≤ height }
    requires height { height ≤ max_height_of profile }
{
    let mut parts = ArrayVec::new();
    for _part in 0..profile.parts() {
        parts.push(20);
    }
    main_bytes(&MainHeader {
        profile,
        width,
        height,
        levels: profile.levels(),
        flag: 1,
        steps: StepSizes::built_in(profile),
        parts,
    })
}

#[test]
fn a_header_of_the_2k_profile(rt: HostRuntime) {
    assert!(rt; bytes_of(Profile::TwoK, 1, 1).as_slice() == TWO_K);
}

/// A header with one byte changed and SOT after it, cut after so many bytes, and what is refused.
fn refusal_of(header: &[u8], at: usize, byte: u8, count: usize) -> Option<MarkerRefusal>
    requires { length header.now ≤ 192 }
{
    let mut bytes: ArrayVec<u8, 256> = ArrayVec::new();
    let _fits = bytes.try_extend_from_slice(header);
    bytes.push(0xFF);
    bytes.push(0x90);
    if let Some(place) = bytes.as_mut_slice().get_mut(at) {
        *place = byte;
    }
    read_main(bytes.as_slice().get(..count).unwrap_or(&[])).err()
}

#[test]
fn written_headers_are_read(rt: HostRuntime) {
    // TLM stands at 108 and at 133, and the first length seven bytes on
    for (profile, width, height, count, end, first) in [
        (Profile::TwoK, 2048, 1080, 3, 129, 115),
        (Profile::FourK, 4096, 2160, 6, 169, 140),
    ] {
        let mut bytes: ArrayVec<u8, 256> = ArrayVec::new();
        let _fits = bytes.try_extend_from_slice(bytes_of(profile, width, height).as_slice());
        bytes.push(0xFF);
        bytes.push(0x90);
        match read_main(bytes.as_slice()) {
            Err(_) => assert!(rt; false),
            Ok(read) => {
                assert_eq!(rt; read.bytes, end);
                assert_eq!(rt; (read.main.width, read.main.height), (width, height));
                assert_eq!(rt; read.main.parts.as_slice().len(), count);
                assert_eq!(rt; read.parts_at.as_slice().first().copied(), Some(first));
            }
        }
    }
}

// SIZ stands at 2, COD at 51, QCD at 71, TLM at 108, SOT at 129.
#[test]
fn hostile_headers_of_2k_are_refused(rt: HostRuntime) {
    for (at, byte, refusal) in [
        (0, 0x00, MarkerRefusal::NotSoc(0)),
        // COD in the place of SIZ
        (3, 0x52, MarkerRefusal::UnexpectedMarker(2)),
        (7, 5, MarkerRefusal::NotCinema(6)),
        // Xsiz 2,049, and four components
        (10, 0x08, MarkerRefusal::TooLarge(8)),
        (41, 4, MarkerRefusal::BadSiz(40)),
        // QCC, SIZ and POC in the place of COD, and a comment there, so that COD is missing
        (52, 0x5D, MarkerRefusal::OutsideProfile(51, 2)),
        (52, 0x51, MarkerRefusal::Repeated(51)),
        (52, 0x5F, MarkerRefusal::UnexpectedMarker(51)),
        (52, 0x64, MarkerRefusal::Missing(129, 0xFF52)),
        // SOP, and a wavelet that the standard doesn't have
        (55, 3, MarkerRefusal::OutsideProfile(55, 7)),
        (64, 2, MarkerRefusal::BadCod(64)),
        // Lqcd 0, and Lqcd 7, after which a step stands in a marker's place
        (74, 0, MarkerRefusal::SegmentTruncated(73)),
        (74, 7, MarkerRefusal::UnexpectedMarker(80)),
        // one step for all bands; a style that the standard doesn't have; a band without planes
        (75, 0x21, MarkerRefusal::OutsideProfile(75, 14)),
        (75, 0x23, MarkerRefusal::BadQcd(75)),
        (76, 0x00, MarkerRefusal::BadQcd(71)),
        // Stlm 0, and a tile that isn't the first
        (113, 0, MarkerRefusal::BadTlm(113)),
        (114, 1, MarkerRefusal::BadTlm(114)),
        // SOD in the place of SOT
        (130, 0x93, MarkerRefusal::UnexpectedMarker(129)),
    ] {
        assert_eq!(rt; refusal_of(TWO_K, at, byte, 131), Some(refusal));
    }
}

// POC stands at 115, with its changes at 119 and 126.
#[test]
fn hostile_changes_and_cut_headers_are_refused(rt: HostRuntime) {
    let header = bytes_of(Profile::FourK, 4096, 2160);
    for (at, byte, count, refusal) in [
        (118, 15, 171, MarkerRefusal::BadPoc(117)),
        (123, 5, 171, MarkerRefusal::BadPoc(115)),
        (132, 2, 171, MarkerRefusal::BadPoc(115)),
        (0, 0xFF, 1, MarkerRefusal::SegmentTruncated(1)),
        (0, 0xFF, 53, MarkerRefusal::SegmentTruncated(53)),
        (0, 0xFF, 132, MarkerRefusal::SegmentTruncated(132)),
        (0, 0xFF, 170, MarkerRefusal::SegmentTruncated(170)),
    ] {
        assert_eq!(rt;
            refusal_of(header.as_slice(), at, byte, count),
            Some(refusal)
        );
    }
}
