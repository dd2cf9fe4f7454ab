// Whole runs of the mode `check`. The places are counted off the bytes by hand, by the standard, and
// the lines come from programs that share no code with this one.
use crate::tests::{
    CODESTREAM, Ended, Failing, NEARLY_GREY_PARTS, NONE, file, run_frames, run_over,
};
use cine_ports::MemoryOutputs;
use std::alloc::{AllocError, Global};
use std::test::Fail;

/// A command.
const COMMAND: &str = "check src";

/// The codestream of a nearly grey frame of one pixel, in which from a place on so many bytes are
/// taken out and these stand there.
fn changed(alloc: Global, at: usize, removed: usize, new: &[u8]) -> Result<Vec<u8>, AllocError> {
    let mut whole = Vec::from_slice(alloc, &CODESTREAM[..108])?;
    whole.extend_from_slice(NEARLY_GREY_PARTS)?;
    let later = at.saturating_add(removed);
    let mut bytes = Vec::from_slice(alloc, whole.get(..at).unwrap_or_default())?;
    bytes.extend_from_slice(new)?;
    bytes.extend_from_slice(whole.get(later..).unwrap_or_default())?;
    Ok(bytes)
}

/// Checks one file called `d` of these bytes.
fn check_one(alloc: Global, bytes: &[u8]) -> Result<Ended, Fail> {
    run_over(alloc, COMMAND, &[("d", bytes)], &NONE)
}

/// Changes of that codestream (a place, how many bytes are taken out there, and which stand there
/// then), and its line.
#[rattlefmt::skip]
const CHANGES: &[(usize, usize, &[u8], &str)] = &[
    (0, 0, &[], "read d 2k 1x1 levels=5 frame=195 c0=24 c1=20 c2=20 blocks=1 passes=18\n"),
    (0, 195, &[], "refused d 41 SegmentTruncated 0\n"),
    (0, 1, &[0xFE], "refused d 40 NotSoc 0\n"),
    (6, 2, &[0, 0], "refused d 50 NotCinema 6\n"),
    (8, 4, &[0, 0, 8, 1], "refused d 51 TooLarge 8\n"),
    (51, 0, &[0xFF, 0x30], "refused d 42 UnexpectedMarker 51\n"),
    (71, 0, &[0xFF, 0x53], "refused d 52 OutsideProfile 71 1\n"),
    (71, 37, &[], "refused d 44 Missing 92 65372\n"),
    (75, 3, &[0x42, 0xF8, 0], "refused d 62 TooManyPlanes 0\n"),
    (100, 95, &[], "refused d 41 SegmentTruncated 100\n"),
    (118, 1, &[0x19], "refused d 49 BadTlm 115\n"),
    (135, 4, &[0; 4], "refused d 31 PsotZero 135\n"),
    (135, 4, &[0xFF; 4], "refused d 30 BadTilePart 135\n"),
    (139, 1, &[1], "refused d 30 BadTilePart 139\n"),
    (141, 2, &[0xFF, 0x53], "refused d 32 TilePartMarker 141 65363\n"),
    (143, 1, &[0x80], "refused d 64 PartTooLong 149\n"),
    (143, 2, &[0xFF, 0xFF], "refused d 21 StuffedBitSet 144\n"),
    (144, 2, &[0, 0], "refused d 22 ZeroPlanesTooMany 145\n"),
    (145, 1, &[0xDC], "refused d 23 PassesTooMany 145\n"),
    (146, 1, &[0xFE], "refused d 24 BodyTruncated 153\n"),
    (194, 1, &[], "refused d 63 MissingEnd 193\n"),
    (195, 0, &[0], "refused d 60 BytesAfterEnd 195\n"),
];

#[test]
fn a_codestream_is_read_or_its_first_fault_is_reported(rt: HostRuntime) -> Result<(), Fail> {
    let alloc = rt.alloc();
    for (at, removed, new, line) in CHANGES {
        let bytes = changed(alloc, *at, *removed, new)?;
        let ended = check_one(alloc, bytes.as_slice())?;
        let status = if line.starts_with("refused") { 1 } else { 0 };
        assert!(rt; ended.report.bytes() == line.as_bytes(), "{line}");
        assert_eq!(rt; ended.status, status);
        assert!(rt; ended.outputs.files().is_empty());
    }
    Ok(())
}

/// The same codestream with a comment before TLM, with PLT before the first packet, and with the
/// length of the first tile-part that this makes.
#[test]
fn comments_and_packet_lengths_are_passed_over(rt: HostRuntime) -> Result<(), Fail> {
    let alloc = rt.alloc();
    let whole = changed(alloc, 118, 1, &[0x23])?;
    let bytes = whole.as_slice();
    let mut wider = Vec::from_slice(alloc, &CODESTREAM[..108])?;
    wider.extend_from_slice(&[0xFF, 0x64, 0, 7, 0, 1, 0x41, 0x42, 0x43])?;
    wider.extend_from_slice(bytes.get(108..138).unwrap_or_default())?;
    wider.extend_from_slice(&[0x23, 0, 3])?;
    wider.extend_from_slice(&[0xFF, 0x58, 0, 9, 0, 5, 1, 1, 1, 1, 1])?;
    wider.extend_from_slice(bytes.get(141..).unwrap_or_default())?;
    let ended = check_one(alloc, wider.as_slice())?;
    let line = "read d 2k 1x1 levels=5 frame=215 c0=35 c1=20 c2=20 blocks=1 passes=18\n";
    assert!(rt; ended.report.bytes() == line.as_bytes());
    Ok(())
}

/// The faults of a grey pixel's codestream of 191 bytes that is cut to fewer: up to how many bytes
/// each comes.
const CUTS: &[(usize, &str)] = &[
    (140, "30 BadTilePart 129"),
    (148, "30 BadTilePart 135"),
    (160, "30 BadTilePart 149"),
    (168, "30 BadTilePart 155"),
    (180, "30 BadTilePart 169"),
    (188, "30 BadTilePart 175"),
    (190, "63 MissingEnd 189"),
];

/// The line of such a file of `n` bytes.
fn line_of_cut(alloc: Global, n: usize) -> Result<String, AllocError> {
    if n <= 130 {
        return format!(in alloc; "refused d 41 SegmentTruncated {n}\n");
    }
    let found = CUTS.iter().find(|cut| n <= cut.0);
    match found {
        Some((_, fault)) => format!(in alloc; "refused d {fault}\n"),
        None => String::from_str(alloc, "")
    }
}

#[test]
fn cut_codestreams_are_refused(rt: HostRuntime) -> Result<(), Fail> {
    let alloc = rt.alloc();
    for n in 0..CODESTREAM.len() {
        let cut = CODESTREAM.get(..n).unwrap_or_default();
        let ended = check_one(alloc, cut)?;
        let line = line_of_cut(alloc, n)?;
        assert!(rt; ended.report.bytes() == line.as_bytes(), "{n} bytes");
    }
    Ok(())
}

#[test]
fn a_file_above_the_limit_isnt_read_to_its_end(rt: HostRuntime) -> Result<(), Fail> {
    let alloc = rt.alloc();
    let long = vec![in alloc; 0; 1_302_090]?;
    let ended = check_one(alloc, long.as_slice())?;
    let line = "refused d 61 LimitExceeded frame 1302084\n";
    assert!(rt; ended.report.bytes() == line.as_bytes());
    Ok(())
}

#[test]
fn a_failed_read_ends_a_check(rt: HostRuntime) -> Result<(), Fail> {
    let alloc = rt.alloc();
    let failing = Failing {
        reads: &[2],
        ..NONE
    };
    let ended = run_over(alloc, COMMAND, &[("d", CODESTREAM)], &failing)?;
    assert_eq!(rt; ended.status, 3);
    assert!(rt; ended.report.bytes().is_empty());
    let nothing = run_over(alloc, COMMAND, &[], &NONE)?;
    assert_eq!(rt; nothing.status, 0);
    assert!(rt; nothing.report.bytes().is_empty());
    Ok(())
}

#[test]
fn a_failed_line_ends_a_check(rt: HostRuntime) -> Result<(), Fail> {
    let alloc = rt.alloc();
    let failing = Failing { says: &[1], ..NONE };
    let ended = run_over(alloc, COMMAND, &[("d", CODESTREAM)], &failing)?;
    assert_eq!(rt; ended.status, 5);
    assert!(rt; ended.report.bytes() == b"read d 2k ".as_slice());
    Ok(())
}

/// The report of a check of what another run wrote.
pub fn checked(alloc: Global, outputs: &MemoryOutputs) -> Result<String, Fail> {
    let mut files = Vec::new(alloc);
    for output in outputs.files() {
        let name = output.name().strip_suffix(".j2c").ok_or("another suffix")?;
        files.push(file(alloc, name, output.bytes())?)?;
    }
    let ended = run_frames(alloc, COMMAND, files, &NONE)?;
    Ok(String::from_utf8(Vec::from_slice(alloc, ended.report.bytes())?)?)
}
