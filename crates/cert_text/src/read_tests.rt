// Certificate lines, read, and damaged ones.
use super::*;
use cine_nums::{Budget, Profile};
use std::test::Fail;

/// Lines of frames of one pixel.
const LINES: &[&str] = &[
    "ok a 2k 1x1 frame=191/1302083/0 c0=20/1041666/0 c1=20/1041666/0 c2=20/1041666/0 \
     passes=0 empty=0 distortion=0 gap=0\n",
    "ok a 4k 1x1 frame=276/1302083/0 inner=231/1302083/0 c0=20/1041666/0 c1=20/1041666/0 \
     c2=20/1041666/0 passes=0 empty=0 distortion=0 gap=0\n",
    "ok d 2k 1x1 frame=195/1302083/0 c0=24/1041666/0 c1=20/1041666/0 c2=20/1041666/0 \
     passes=18 empty=16641 distortion=0 gap=0\n",
    "ok b 2k 1x1 frame=197/1302083/0 c0=26/1041666/0 c1=20/1041666/0 c2=20/1041666/0 \
     passes=48 empty=68652908289 distortion=0 gap=0\n",
    "ok c 2k 1x1 frame=195/1302083/0 c0=24/1041666/0 c1=20/1041666/0 c2=20/1041666/0 \
     passes=51 empty=68720001025 distortion=0 gap=0\n",
    "ok d 2k 1x1 frame=191/194/71472550772736 c0=20/1041666/0 c1=20/1041666/0 c2=20/1041666/0 \
     passes=0 empty=16641 distortion=16641 gap=49923 step=frame:0:0:18:1:3:16641:66564\n",
    "ok %C3%A9%20%F0%9F%8E%AC 4k 4096x2160 frame=1302083/1302083/79228162514264337593543950335 \
     inner=4294967295/1302083/1 c0=0/0/2 c1=0/1041666/3 c2=1/1/4 passes=18446744073709551615 \
     empty=340282366920938463463374607431768211455 distortion=1 gap=2 \
     step=frame:4294967295:255:0:131072:4294967295:18446744073709551615:7 \
     step=inner:0:0:1:1:0:1:0 step=c0:0:0:1:1:0:1:0 step=c1:0:0:1:1:0:1:0 \
     step=c2:0:0:1:1:0:1:0\n",
];

#[test]
fn written_lines_are_read(rt: HostRuntime) -> Result<(), Fail> {
    let alloc = rt.alloc();
    for text in LINES {
        match read_cert(alloc, text.as_bytes()) {
            Ok(line) => {
                assert_eq!(rt; write_cert(alloc, &line)?.as_str(), *text);
                match read_back(alloc, &line) {
                    Ok(again) => assert_eq!(rt; write_cert(alloc, &again)?.as_str(), *text),
                    Err(_) => return Err(Fail::new("a line that isn't read back")),
                }
            }
            Err(_) => return Err(Fail::new("a line that isn't read")),
        }
    }
    Ok(())
}

#[test]
fn fields_of_a_line(rt: HostRuntime) -> Result<(), Fail> {
    let alloc = rt.alloc();
    let Ok(line) = read_cert(alloc, LINES[0].as_bytes()) else {
        return Err(Fail::new("a line that isn't read"));
    };
    assert_eq!(rt; line.name.as_str(), "a");
    assert_eq!(rt; line.profile, Profile::TwoK);
    assert_eq!(rt; (line.width, line.height), (1, 1));
    assert_eq!(rt; (line.held.frame, line.held.inner), (191, 0));
    assert_eq!(rt; line.held.component, [20, 20, 20]);
    assert_eq!(rt; (line.limits.frame, line.limits.inner), (1302083, None));
    assert_eq!(rt; line.limits.component, [1041666, 1041666, 1041666]);
    assert_eq!(rt; (line.passes, line.empty), (0, 0));
    assert_eq!(rt; line.certificate.multipliers, [0, 0, 0, 0, 0]);
    assert_eq!(rt; (line.certificate.gap, line.certificate.distortion), (0, 0));
    assert_eq!(rt; line.certificate.refused.len(), 0);
    let Ok(line) = read_cert(alloc, LINES[5].as_bytes()) else {
        return Err(Fail::new("a line that isn't read"));
    };
    assert_eq!(rt; line.certificate.multipliers[0], 71472550772736);
    let Some(refused) = line.certificate.refused.as_slice().first() else {
        return Err(Fail::new("a line without its step"));
    };
    assert_eq!(rt; refused.budget, Budget::Frame);
    assert_eq!(rt;
        (refused.step.from, refused.step.to, refused.step.len),
        (0, 18, 1)
    );
    assert_eq!(rt;
        (refused.step.gain, refused.grow, refused.price),
        (16641, 3, 66564)
    );
    Ok(())
}

/// Bytes that are no certificate line, and the place at which none goes on, counted by hand.
const DAMAGED: &[(&str, u32)] = &[
    ("", 0),
    ("ok a 2k\n", 7),
    ("ok  2k", 3),
    // 4 begins the escapes of @ and others; A is printed as it is
    ("ok %41 2k", 5),
    // 8x continues a character and begins none
    ("ok %80 2k", 4),
    ("ok %c3 2k", 4),
    // the character isn't whole
    ("ok %C3 2k", 6),
    // E0 goes on with A0 to BF
    ("ok %E0%9F", 7),
    ("ok a 3k", 5),
    ("ok a 2k 2049x1 ", 8),
    ("ok a 4k 2049x2161 ", 13),
    ("ok a 2k 01x1 ", 8),
    ("ok a 2k 1x", 10),
    ("ok a 2k 1y", 9),
    ("ok a 2k 1x1 inner=1", 12),
    ("ok a 2k 1x1 frame=191/1302084/0", 22),
    // 2^96
    (
        "ok a 2k 1x1 frame=191/1302083/79228162514264337593543950336 ",
        30,
    ),
    ("ok a 2k 1x1 frame=4294967296/1302083/0", 18),
    ("ok a 2k 1x1 frame=191/1302083/0 c1=", 33),
];

/// The first line of those above without its LF, 115 bytes.
const START: &str =
    "ok a 2k 1x1 frame=191/1302083/0 c0=20/1041666/0 c1=20/1041666/0 c2=20/1041666/0 \
     passes=0 empty=0 distortion=0 gap=0";

/// What follows it, and the place.
const ENDS: &[(&str, u32)] = &[
    ("", 115),
    ("\nx", 116),
    (" step=inner:0:0:1:1:0:1:1\n", 121),
    (" step=c0:0:3:3:1:0:1:1\n", 128),
    (" step=c0:0:0:3:0:0:1:1\n", 130),
    (" step=c0:0:0:3:131073:0:1:1\n", 130),
    (" step=c1:0:0:1:1:0:1:1 step=c1:0", 144),
    (" step=c1:0:0:1:1:0:1:1 step=frame:0", 143),
    (" step=c2:0:0:1:1:0:1:1 ", 137),
    (" step=c0:0:0:1:1:0:18446744073709551616:1\n", 134),
];

#[test]
fn damaged_lines_are_refused(rt: HostRuntime) -> Result<(), Fail> {
    let alloc = rt.alloc();
    for (text, place) in DAMAGED {
        match read_cert(alloc, text.as_bytes()) {
            Err(CertRefusal::BadLine(found)) => assert_eq!(rt; found, *place),
            _ => return Err(Fail::new("a damaged line that is read")),
        }
    }
    for (end, place) in ENDS {
        let text = format!(in alloc; "{START}{end}")?;
        match read_cert(alloc, text.as_bytes()) {
            Err(CertRefusal::BadLine(found)) => assert_eq!(rt; found, *place),
            _ => return Err(Fail::new("a damaged line that is read")),
        }
    }
    Ok(())
}
