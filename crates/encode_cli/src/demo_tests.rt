// Whole runs of the mode `demo`.
use crate::check_tests::checked;
use crate::tests::{Ended, Failing, NONE, run_over};
use cert_text::{CertLine, ReadLine, read_cert, write_read};
use std::alloc::Global;
use std::test::Fail;

/// Runs a line of words, with a source whose first call would fail.
fn demonstrated(alloc: Global, text: &str, writes: &[u32]) -> Result<Ended, Fail> {
    let failing = Failing {
        reads: &[0],
        writes,
        ..NONE
    };
    run_over(alloc, text, &[], &failing)
}

/// Lines of words with a limit that is too small, and the line of the frame. A tile-part without
/// any coding pass has 14 bytes and one for each packet: 59 for the resolutions up to 1998 by 1080,
/// and 144 for that of 3996 by 2160. EOC has 2 bytes, and the main header 129, or 169 with 4K.
#[rattlefmt::skip]
const REFUSED: &[(&str, &str)] = &[
    ("demo 0 --profile 2k --frame-bytes 349", "refused demo 10 LimitTooSmall frame 350\n"),
    ("demo 9 --profile 2k --component-bytes 72", "refused demo 10 LimitTooSmall c0 73\n"),
    ("demo 4294967295 --profile=4k --frame-bytes 863", "refused demo 10 LimitTooSmall frame 864\n"),
    (
        "demo 007 --inner-bytes 389 --component-bytes 72 --profile 4k",
        "refused demo 10 LimitTooSmall inner 390\n",
    ),
];

#[test]
fn a_limit_that_is_too_small_is_reported(rt: HostRuntime) -> Result<(), Fail> {
    let alloc = rt.alloc();
    for (text, line) in REFUSED {
        let ended = demonstrated(alloc, text, &[])?;
        assert_eq!(rt; ended.status, 1);
        assert!(rt; ended.report.bytes() == line.as_bytes(), "{text}");
        assert!(rt; ended.outputs.files().is_empty());
        assert!(rt; ended.outputs.unfinished().is_none());
    }
    Ok(())
}

/// What a certificate line says, from its text without the LF.
fn cert_of(alloc: Global, text: &str) -> Result<CertLine, Fail> {
    let line = format!(in alloc; "{text}\n")?;
    if line.len() > 10_000 {
        return Err(Fail::new("a long line"));
    }
    let Ok(cert) = read_cert(alloc, line.as_bytes()) else {
        return Err(Fail::new("no certificate line"));
    };
    Ok(cert)
}

/// The prices of the refused steps together, and 1.
fn prices_and_1(cert: &CertLine) -> u128 {
    let mut sum: u128 = 1;
    for step in cert.certificate.refused.as_slice() {
        sum = sum.saturating_add(step.price);
    }
    sum
}

/// Whether a read line has the size, the held bytes and the passes of a certificate, and so many
/// levels.
fn is_read_of(alloc: Global, cert: &CertLine, levels: u8, read: &str) -> Result<bool, Fail> {
    let says = ReadLine {
        profile: cert.profile,
        width: cert.width,
        height: cert.height,
        levels,
        held: cert.held,
        blocks: 0,
        passes: cert.passes,
    };
    let like = write_read(alloc, "demo", &says)?;
    let (start, end) = like.as_str().split_once(" blocks=0").ok_or("no blocks")?;
    Ok(read.starts_with(start) && read.ends_with(end))
}

/// Words, how their certificate line begins, the levels of their profile, which of the multipliers
/// of frame, inner, c0, c1 and c2 are above 0, and how many steps are refused.
type Shown = (&'static str, &'static str, u8, [bool; 5], usize);

/// A frame of which no component comes near its limit; one with lowered limits of the components,
/// which together are below that of the codestream; and one whose limits of the components are met
/// before that of its 2K portion.
#[rattlefmt::skip]
const SHOWN: &[Shown] = &[
    ("demo 1 --profile 2k", "ok demo 2k 1998x1080 ", 5, [true, false, false, false, false], 1),
    (
        "demo 1 --profile 2k --component-bytes 300000",
        "ok demo 2k 1998x1080 ", 5, [false, false, true, true, true], 3,
    ),
    (
        "demo 1 --profile 4k --component-bytes 20000",
        "ok demo 4k 3996x2160 ", 6, [true, false, true, true, true], 4,
    ),
];

/// Whether the frame is written with a certificate line as the row says, whose gap is at most the
/// prices of its steps and 1, and read back with a line of what it holds, which is that of a check
/// of the output.
fn is_shown(alloc: Global, row: &Shown) -> Result<bool, Fail> {
    let (text, start, levels, priced, steps) = row;
    let ended = demonstrated(alloc, text, &[])?;
    let lines = String::from_utf8(Vec::from_slice(alloc, ended.report.bytes())?)?;
    let (first, read) = lines.as_str().split_once('\n').ok_or("no line")?;
    let cert = cert_of(alloc, first)?;
    let is_read = is_read_of(alloc, &cert, *levels, read)?;
    let again = checked(alloc, &ended.outputs)?;
    let output = ended.outputs.files().get(0).ok_or("no output")?;
    let [frame, inner, c0, c1, c2] = cert.certificate.multipliers;
    let found = [frame > 0, inner > 0, c0 > 0, c1 > 0, c2 > 0];
    let is_right = ended.status == 0
        && first.starts_with(*start)
        && found.as_slice() == priced.as_slice()
        && cert.certificate.refused.as_slice().len() == *steps
        && cert.certificate.gap <= prices_and_1(&cert);
    let is_whole = ended.outputs.files().len() == 1 && output.name() == "demo.j2c";
    Ok(is_right && is_read && again.as_str() == read && is_whole)
}

#[test]
fn a_frame_of_2k_is_encoded_and_read_back(rt: HostRuntime) -> Result<(), Fail> {
    for row in &SHOWN[..2] {
        assert!(rt; is_shown(rt.alloc(), row)?, "{}", row.0);
    }
    Ok(())
}

#[test]
fn a_frame_of_4k_is_encoded_and_read_back(rt: HostRuntime) -> Result<(), Fail> {
    for row in &SHOWN[2..] {
        assert!(rt; is_shown(rt.alloc(), row)?, "{}", row.0);
    }
    Ok(())
}

/// Limits of the components that are met before that of the codestream, and an output that fails.
#[test]
fn a_failed_output_ends_a_demonstration(rt: HostRuntime) -> Result<(), Fail> {
    let alloc = rt.alloc();
    let ended = demonstrated(alloc, "demo 1 --profile 2k --component-bytes 300", &[2])?;
    assert_eq!(rt; ended.status, 4);
    assert!(rt; ended.outputs.files().is_empty());
    let output = ended.outputs.unfinished().ok_or("no output")?;
    assert_eq!(rt; output.name(), "demo.j2c");
    assert_eq!(rt; output.bytes().len(), 100);
    assert!(rt; output.bytes().starts_with(b"\xFF\x4F\xFF\x51"));
    assert!(rt; ended.report.bytes().is_empty());
    Ok(())
}
