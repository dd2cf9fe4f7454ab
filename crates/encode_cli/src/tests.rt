// Whole runs, over objects in memory and over folders.
ghost use Rattle.std.specs.Prelude.{◌≤◌};

use crate::check_tests::checked;
use cine_ports::{MemoryFrame, MemoryFrames, MemoryOutputs, MemoryReport, is_frame_list};
use cinema_run::{places, run};
use std::alloc::{AllocError, Global};
use std::fs;
use std::test::Fail;
use system_ports::{FolderFrames, FolderOutputs};

/// A grey frame of one pixel.
const GREY: &[u8] = b"P6\n1 1\n4095\n\x08\x00\x08\x00\x08\x00";

/// The same with a comment in its header.
const COMMENTED: &[u8] = b"P6\n# 12 bit\n1 1\n4095\n\x08\x00\x08\x00\x08\x00";

/// The same with 16 bits a sample.
const DEEP: &[u8] = b"P6\n1 1\n65535\n\x08\x00\x08\x00\x08\x00";

/// The same with a first sample of 4096.
const LARGE: &[u8] = b"P6\n1 1\n4095\n\x10\x00\x08\x00\x08\x00";

/// The same with three samples of 4095.
const WHITE: &[u8] = b"P6\n1 1\n4095\n\x0F\xFF\x0F\xFF\x0F\xFF";

/// The same with three samples of 0.
const BLACK: &[u8] = b"P6\n1 1\n4095\n\x00\x00\x00\x00\x00\x00";

/// The same with three samples of 2049.
const NEARLY_GREY: &[u8] = b"P6\n1 1\n4095\n\x08\x01\x08\x01\x08\x01";

/// The codestream of a frame of one pixel. The bytes come from a dump that was made by two programs
/// which share no code with this one.
#[rattlefmt::skip]
pub const CODESTREAM: &[u8] = &[
    0xFF, 0x4F,
    0xFF, 0x51, 0x00, 0x2F, 0x00, 0x03, 0x00, 0x00, 0x00, 0x01, 0x00, 0x00, 0x00, 0x01,
    0x00, 0x00, 0x00, 0x00, 0x00, 0x00, 0x00, 0x00, 0x00, 0x00, 0x00, 0x01, 0x00, 0x00, 0x00, 0x01,
    0x00, 0x00, 0x00, 0x00, 0x00, 0x00, 0x00, 0x00, 0x00, 0x03,
    0x0B, 0x01, 0x01, 0x0B, 0x01, 0x01, 0x0B, 0x01, 0x01,
    0xFF, 0x52, 0x00, 0x12, 0x01, 0x04, 0x00, 0x01, 0x01, 0x05, 0x03, 0x03, 0x00, 0x00,
    0x77, 0x88, 0x88, 0x88, 0x88, 0x88,
    0xFF, 0x5C, 0x00, 0x23, 0x22, 0x90, 0x00, 0x90, 0x00, 0x90, 0x00, 0x90, 0x00, 0x88, 0x00, 0x88, 0x00,
    0x88, 0x00, 0x80, 0x00, 0x80, 0x00, 0x80, 0x00, 0x78, 0x00, 0x78, 0x00, 0x78, 0x00, 0x70, 0x00,
    0x70, 0x00, 0x70, 0x00,
    0xFF, 0x55, 0x00, 0x13, 0x00, 0x50, 0x00, 0x00, 0x00, 0x00, 0x14, 0x00, 0x00, 0x00, 0x00, 0x14,
    0x00, 0x00, 0x00, 0x00, 0x14,
    0xFF, 0x90, 0x00, 0x0A, 0x00, 0x00, 0x00, 0x00, 0x00, 0x14, 0x00, 0x03, 0xFF, 0x93, 0, 0, 0, 0, 0, 0,
    0xFF, 0x90, 0x00, 0x0A, 0x00, 0x00, 0x00, 0x00, 0x00, 0x14, 0x01, 0x03, 0xFF, 0x93, 0, 0, 0, 0, 0, 0,
    0xFF, 0x90, 0x00, 0x0A, 0x00, 0x00, 0x00, 0x00, 0x00, 0x14, 0x02, 0x03, 0xFF, 0x93, 0, 0, 0, 0, 0, 0,
    0xFF, 0xD9,
];

/// The line of a grey frame called `a`.
const LINE: &str =
    "ok a 2k 1x1 frame=191/1302083/0 c0=20/1041666/0 c1=20/1041666/0 c2=20/1041666/0 passes=0 empty=0 distortion=0 gap=0\n";

/// The lines of a grey frame, a frame of 16 bits a sample, a grey frame with a comment, and one with a
/// sample too large.
const LINES: &str = "\
ok a 2k 1x1 frame=191/1302083/0 c0=20/1041666/0 c1=20/1041666/0 c2=20/1041666/0 passes=0 empty=0 distortion=0 gap=0\n\
refused e 4 WrongMaxval\n\
ok f%7E 2k 1x1 frame=191/1302083/0 c0=20/1041666/0 c1=20/1041666/0 c2=20/1041666/0 passes=0 empty=0 distortion=0 gap=0\n\
refused g 7 SampleTooLarge 12\n";

/// The lines of a white, a black and a nearly grey frame. They come from a program that shares no
/// code with this one, and so does the codestream of the last.
const PASSES: &str = "\
ok b 2k 1x1 frame=197/1302083/0 c0=26/1041666/0 c1=20/1041666/0 c2=20/1041666/0 passes=48 empty=68652908289 distortion=0 gap=0\n\
ok c 2k 1x1 frame=195/1302083/0 c0=24/1041666/0 c1=20/1041666/0 c2=20/1041666/0 passes=51 empty=68720001025 distortion=0 gap=0\n\
ok d 2k 1x1 frame=195/1302083/0 c0=24/1041666/0 c1=20/1041666/0 c2=20/1041666/0 passes=18 empty=16641 distortion=0 gap=0\n";

/// What a check of their codestreams reports.
const READ_PASSES: &str = "\
read b 2k 1x1 levels=5 frame=197 c0=26 c1=20 c2=20 blocks=1 passes=48\n\
read c 2k 1x1 levels=5 frame=195 c0=24 c1=20 c2=20 blocks=1 passes=51\n\
read d 2k 1x1 levels=5 frame=195 c0=24 c1=20 c2=20 blocks=1 passes=18\n";

/// What follows the first 108 bytes of a nearly grey frame's codestream, from the TLM segment on.
#[rattlefmt::skip]
pub const NEARLY_GREY_PARTS: &[u8] = &[
    0xFF, 0x55, 0x00, 0x13, 0x00, 0x50, 0x00, 0x00, 0x00, 0x00, 0x18, 0x00, 0x00, 0x00, 0x00, 0x14,
    0x00, 0x00, 0x00, 0x00, 0x14,
    0xFF, 0x90, 0x00, 0x0A, 0x00, 0x00, 0x00, 0x00, 0x00, 0x18, 0x00, 0x03, 0xFF, 0x93,
    0xC0, 0x07, 0xD8, 0x02, 0x04, 0, 0, 0, 0, 0,
    0xFF, 0x90, 0x00, 0x0A, 0x00, 0x00, 0x00, 0x00, 0x00, 0x14, 0x01, 0x03, 0xFF, 0x93, 0, 0, 0, 0, 0, 0,
    0xFF, 0x90, 0x00, 0x0A, 0x00, 0x00, 0x00, 0x00, 0x00, 0x14, 0x02, 0x03, 0xFF, 0x93, 0, 0, 0, 0, 0, 0,
    0xFF, 0xD9,
];

/// A command.
const COMMAND: &str = "encode src dst --profile 2k";

/// The words of a line.
pub fn words(alloc: Global, text: &str) -> Result<Vec<String>, AllocError> {
    let mut words = Vec::new(alloc);
    for word in text.split_whitespace() {
        words.push(String::from_str(alloc, word)?)?;
    }
    Ok(words)
}

/// A file in memory.
pub fn file(alloc: Global, name: &str, bytes: &[u8]) -> Result<MemoryFrame, AllocError> {
    Ok(MemoryFrame {
        name: String::from_str(alloc, name)?,
        bytes: Vec::from_slice(alloc, bytes)?,
    })
}

/// What a run leaves.
#[derive(Drop)]
pub struct Ended {
    pub status: u8,
    pub outputs: MemoryOutputs,
    pub report: MemoryReport,
}

/// The numbers of the calls that fail: of the source, of the outputs, and of the report.
#[derive(Clone, Copy)]
pub struct Failing<'a> {
    pub reads: &'a [u32],
    pub writes: &'a [u32],
    pub says: &'a [u32],
}

/// No call fails.
pub const NONE: Failing<'static> = Failing {
    reads: &[],
    writes: &[],
    says: &[],
};

/// Runs over frames in memory.
pub fn run_frames(
    alloc: Global,
    text: &str,
    files: Vec<MemoryFrame>,
    failing: &Failing<'_>,
) -> Result<Ended, Fail> {
    if !is_frame_list(files.as_slice()) {
        return Err(Fail::new("the names aren't in order"));
    }
    let mut frames = MemoryFrames::new(files, Vec::from_slice(alloc, failing.reads)?, 7);
    let mut outputs = MemoryOutputs::new(alloc, Vec::from_slice(alloc, failing.writes)?, 100);
    let mut report = MemoryReport::new(alloc, Vec::from_slice(alloc, failing.says)?, 10);
    let words = words(alloc, text)?;
    let status = run(
        alloc,
        words.as_slice(),
        &mut frames,
        &mut outputs,
        &mut report,
    );
    Ok(Ended {
        status,
        outputs,
        report,
    })
}

/// Runs over files in memory, by their names and bytes.
pub fn run_over(
    alloc: Global,
    text: &str,
    files: &[(&str, &[u8])],
    failing: &Failing<'_>,
) -> Result<Ended, Fail> {
    let mut frames = Vec::new(alloc);
    for (name, bytes) in files {
        frames.push(file(alloc, name, bytes)?)?;
    }
    run_frames(alloc, text, frames, failing)
}

/// Whether a file is there, with this name and these bytes.
fn is_file(file: Option<&MemoryFrame>, name: &str, bytes: &[u8]) -> bool {
    match file {
        Some(file) => file.name() == name && file.bytes() == bytes,
        None => false,
    }
}

#[test]
fn each_frame_has_its_output_and_its_line(rt: HostRuntime) -> Result<(), Fail> {
    let alloc = rt.alloc();
    let files = [("a", GREY), ("e", DEEP), ("f~", COMMENTED), ("g", LARGE)];
    let ended = run_over(alloc, COMMAND, &files, &NONE)?;
    assert_eq!(rt; ended.status, 1);
    assert_eq!(rt; ended.outputs.files().len(), 2);
    assert!(rt; is_file(ended.outputs.files().get(0), "a.j2c", CODESTREAM));
    assert!(rt; is_file(ended.outputs.files().get(1), "f~.j2c", CODESTREAM));
    assert!(rt; ended.report.bytes() == LINES.as_bytes());
    Ok(())
}

#[test]
fn a_line_has_the_passes_and_the_distortions(rt: HostRuntime) -> Result<(), Fail> {
    let alloc = rt.alloc();
    let files = [("b", WHITE), ("c", BLACK), ("d", NEARLY_GREY)];
    let ended = run_over(alloc, COMMAND, &files, &NONE)?;
    assert_eq!(rt; ended.status, 0);
    assert!(rt; ended.report.bytes() == PASSES.as_bytes());
    let mut bytes = Vec::from_slice(alloc, &CODESTREAM[..108])?;
    bytes.extend_from_slice(NEARLY_GREY_PARTS)?;
    assert!(rt; is_file(ended.outputs.files().get(2), "d.j2c", bytes.as_slice()));
    assert_eq!(rt; checked(alloc, &ended.outputs)?.as_str(), READ_PASSES);
    Ok(())
}

/// The lines of two frames of noise of which not all passes fit: of a coloured one, which fills the
/// limit of the codestream, and of a grey one, which fills that of component 0. They come from a
/// program that shares no code with this one.
const BUSY: &str = "\
ok h 2k 600x600 frame=1301957/1302083/2109636267015 c0=435464/1041666/0 c1=430390/1041666/0 c2=435972/1041666/0 passes=33417 empty=10578747567622 distortion=57746446 gap=61890 step=frame:172:26:27:133:0:65328:65328\n\
ok i 2k 900x900 frame=1041827/1302083/0 c0=1041620/1041666/2106019452450 c1=38/1041666/0 c2=38/1041666/0 passes=25133 empty=18772485155511 distortion=43063286 gap=22556 step=c0:754:26:27:133:0:65216:65216\n";

/// A file of this header and so many pixels of noise, each grey or of any colour.
fn noise(alloc: Global, header: &[u8], pixels: u32, is_grey: bool) -> Result<Vec<u8>, AllocError> {
    let mut bytes = Vec::from_slice(alloc, header)?;
    let mut state: u32 = 1;
    for _ in 0..pixels {
        for plane in 0..3 {
            if plane == 0 || !is_grey {
                state = state.wrapping_mul(1664525).wrapping_add(1013904223);
            }
            bytes.push((state >> 28) as u8)?;
            bytes.push((state >> 20 & 0xFF) as u8)?;
        }
    }
    Ok(bytes)
}

/// A number that all bytes of a file make, by their places too.
fn digest(bytes: &[u8]) -> u32 {
    let mut sum: u32 = 0;
    for byte in bytes {
        sum = sum.wrapping_mul(31).wrapping_add(u32::from(*byte));
    }
    sum
}

#[test]
fn a_busy_frame_has_multipliers_and_refused_steps(rt: HostRuntime) -> Result<(), Fail> {
    let alloc = rt.alloc();
    let coloured = noise(alloc, b"P6\n600 600\n4095\n", 600 * 600, false)?;
    let grey = noise(alloc, b"P6\n900 900\n4095\n", 900 * 900, true)?;
    let files = [("h", coloured.as_slice()), ("i", grey.as_slice())];
    let ended = run_over(alloc, COMMAND, &files, &NONE)?;
    assert_eq!(rt; ended.status, 0);
    assert!(rt; ended.report.bytes() == BUSY.as_bytes());
    let first = ended.outputs.files().get(0).ok_or("no output of h")?;
    assert_eq!(rt;
        (first.bytes().len(), digest(first.bytes())),
        (1301957, 658802412)
    );
    let second = ended.outputs.files().get(1).ok_or("no output of i")?;
    assert_eq!(rt;
        (second.bytes().len(), digest(second.bytes())),
        (1041827, 3253985087)
    );
    let read = checked(alloc, &ended.outputs)?;
    let (of_h, of_i) = read.as_str().split_once('\n').ok_or("one line")?;
    assert!(rt;
        of_h.starts_with(
            "read h 2k 600x600 levels=5 frame=1301957 c0=435464 c1=430390 c2=435972 blocks="
        )
    );
    assert!(rt; of_h.ends_with(" passes=33417"));
    assert!(rt;
        of_i.starts_with("read i 2k 900x900 levels=5 frame=1041827 c0=1041620 c1=38 c2=38 blocks=")
    );
    assert!(rt; of_i.ends_with(" passes=25133\n"));
    Ok(())
}

/// Options after `encode src dst --profile`, and the lines of a grey pixel and of one a little
/// lighter with them.
const LOWERED: &[(&str, &str)] = &[
    (
        "2k --frame-bytes 194",
        "\
ok a 2k 1x1 frame=191/194/0 c0=20/1041666/0 c1=20/1041666/0 c2=20/1041666/0 passes=0 empty=0 distortion=0 gap=0\n\
ok d 2k 1x1 frame=191/194/71472550772736 c0=20/1041666/0 c1=20/1041666/0 c2=20/1041666/0 passes=0 empty=16641 distortion=16641 gap=49923 step=frame:0:0:18:1:3:16641:66564\n",
    ),
    (
        "2k --frame-bytes=195",
        "\
ok a 2k 1x1 frame=191/195/0 c0=20/1041666/0 c1=20/1041666/0 c2=20/1041666/0 passes=0 empty=0 distortion=0 gap=0\n\
ok d 2k 1x1 frame=195/195/0 c0=24/1041666/0 c1=20/1041666/0 c2=20/1041666/0 passes=18 empty=16641 distortion=0 gap=0\n",
    ),
    (
        "2k --frame-bytes 191",
        "\
ok a 2k 1x1 frame=191/191/0 c0=20/1041666/0 c1=20/1041666/0 c2=20/1041666/0 passes=0 empty=0 distortion=0 gap=0\n\
ok d 2k 1x1 frame=191/191/71472550772736 c0=20/1041666/0 c1=20/1041666/0 c2=20/1041666/0 passes=0 empty=16641 distortion=16641 gap=0 step=frame:0:0:18:1:3:16641:66564\n",
    ),
    (
        "2k --frame-bytes 190",
        "refused a 10 LimitTooSmall frame 191\nrefused d 10 LimitTooSmall frame 191\n",
    ),
    (
        "2k --component-bytes 19",
        "refused a 10 LimitTooSmall c0 20\nrefused d 10 LimitTooSmall c0 20\n",
    ),
    (
        "4k --inner-bytes 230 --component-bytes 19",
        "refused a 10 LimitTooSmall inner 231\nrefused d 10 LimitTooSmall inner 231\n",
    ),
    (
        "4k --frame-bytes 275 --inner-bytes 230",
        "refused a 10 LimitTooSmall frame 276\nrefused d 10 LimitTooSmall frame 276\n",
    ),
];

#[test]
fn options_lower_the_limits(rt: HostRuntime) -> Result<(), Fail> {
    let alloc = rt.alloc();
    for (options, lines) in LOWERED {
        let command = format!(in alloc; "encode src dst --profile {options}")?;
        let files = [("a", GREY), ("d", NEARLY_GREY)];
        let ended = run_over(alloc, command.as_str(), &files, &NONE)?;
        let refused = lines.starts_with("refused");
        assert_eq!(rt; ended.status, if refused { 1 } else { 0 });
        assert_eq!(rt; ended.outputs.files().len(), if refused { 0 } else { 2 });
        assert!(rt; ended.report.bytes() == lines.as_bytes(), "{options}");
    }
    Ok(())
}

#[test]
fn a_fault_of_the_outputs_ends_a_run(rt: HostRuntime) -> Result<(), Fail> {
    let alloc = rt.alloc();
    let failing = Failing {
        writes: &[6],
        ..NONE
    };
    let ended = run_over(alloc, COMMAND, &[("a", GREY), ("d", GREY)], &failing)?;
    assert_eq!(rt; ended.status, 4);
    assert_eq!(rt; ended.outputs.files().len(), 1);
    assert!(rt; is_file(ended.outputs.files().get(0), "a.j2c", CODESTREAM));
    assert!(rt; is_file(ended.outputs.unfinished(), "d.j2c", &CODESTREAM[..100]));
    assert!(rt; ended.report.bytes() == LINE.as_bytes());
    Ok(())
}

#[test]
fn runs_without_a_line(rt: HostRuntime) -> Result<(), Fail> {
    let alloc = rt.alloc();
    let nothing = run_over(alloc, COMMAND, &[], &NONE)?;
    assert_eq!(rt; nothing.status, 0);
    assert!(rt; nothing.report.bytes().is_empty());
    let failing = Failing {
        reads: &[2],
        ..NONE
    };
    let unread = run_over(alloc, COMMAND, &[("a", GREY)], &failing)?;
    assert_eq!(rt; unread.status, 3);
    assert!(rt; unread.report.bytes().is_empty());
    Ok(())
}

#[test]
fn other_words_are_no_command(rt: HostRuntime) -> Result<(), Fail> {
    let alloc = rt.alloc();
    for text in [
        "",
        "encode src",
        "encode src dst --profile 3k",
        "encode src dst --profile 2k --frame-bytes 0",
        "encode src dst 2k --profile",
        "encode src dst --profile 4",
        "Encode src dst --profile 2k",
        "check",
        "check src dst --profile 2k",
    ] {
        let ended = run_over(alloc, text, &[], &NONE)?;
        assert_eq!(rt; ended.status, 2);
        let words = words(alloc, text)?;
        assert!(rt; places(alloc, words.as_slice())?.is_none());
    }
    Ok(())
}

/// Runs over these folders.
fn run_between(
    rt: &HostRuntime,
    command: &str,
    source: &str,
    target: &str,
) -> Result<(u8, MemoryReport), Fail> {
    let alloc = rt.alloc();
    let suffix = String::from_str(alloc, ".ppm")?;
    let mut frames = FolderFrames::new(rt.clone()?, String::from_str(alloc, source)?, suffix);
    let mut outputs = FolderOutputs::new(rt.clone()?, String::from_str(alloc, target)?);
    let mut report = MemoryReport::new(alloc, Vec::new(alloc), 1000);
    let words = words(alloc, command)?;
    let status = run(
        alloc,
        words.as_slice(),
        &mut frames,
        &mut outputs,
        &mut report,
    );
    Ok((status, report))
}

/// The lines of a grey frame of one pixel, of the largest of the profile, and of one of odd sides.
const SIZES: &str = "\
ok a 2k 1x1 frame=191/1302083/0 c0=20/1041666/0 c1=20/1041666/0 c2=20/1041666/0 passes=0 empty=0 distortion=0 gap=0\n\
ok large 2k 2048x1080 frame=350/1302083/0 c0=73/1041666/0 c1=73/1041666/0 c2=73/1041666/0 passes=0 empty=0 distortion=0 gap=0\n\
ok odd 2k 129x257 frame=194/1302083/0 c0=21/1041666/0 c1=21/1041666/0 c2=21/1041666/0 passes=0 empty=0 distortion=0 gap=0\n";

/// A file of this header and so many grey pixels.
fn grey(alloc: Global, header: &[u8], pixels: u32) -> Result<Vec<u8>, AllocError> {
    let mut bytes = Vec::from_slice(alloc, header)?;
    for _ in 0..pixels {
        bytes.extend_from_slice(b"\x08\x00\x08\x00\x08\x00".as_slice())?;
    }
    Ok(bytes)
}

/// The lines of a grey frame of one pixel and of the largest of the 4K profile.
const SIZES_OF_4K: &str = "\
ok a 4k 1x1 frame=276/1302083/0 inner=231/1302083/0 c0=20/1041666/0 c1=20/1041666/0 c2=20/1041666/0 passes=0 empty=0 distortion=0 gap=0\n\
ok large 4k 4096x2160 frame=864/1302083/0 inner=390/1302083/0 c0=73/1041666/0 c1=73/1041666/0 c2=73/1041666/0 passes=0 empty=0 distortion=0 gap=0\n";

/// A profile; grey frames, by their names, headers and numbers of pixels; their lines; and of each
/// output the length, and from a place on bytes of SIZ (Rsiz, Xsiz, Ysiz) or all of it.
#[rattlefmt::skip]
const FOLDERS: &[(&str, &[(&str, &[u8], u32)], &str, &[(&str, usize, usize, &[u8])])] = &[
    (
        "2k",
        &[
            ("a", b"P6\n1 1\n4095\n", 1),
            ("large", b"P6\n2048 1080\n4095\n", 2048 * 1080),
            ("odd", b"P6\n129 257\n4095\n", 129 * 257),
        ],
        SIZES,
        &[
            ("a", 191, 0, CODESTREAM),
            ("large", 350, 6, &[0, 3, 0, 0, 8, 0, 0, 0, 4, 0x38]),
            ("odd", 194, 6, &[0, 3, 0, 0, 0, 129, 0, 0, 1, 1]),
        ],
    ),
    (
        "4k",
        &[
            ("a", b"P6\n1 1\n4095\n", 1),
            ("large", b"P6\n4096 2160\n4095\n", 4096 * 2160),
        ],
        SIZES_OF_4K,
        &[
            ("a", 276, 6, &[0, 4, 0, 0, 0, 1, 0, 0, 0, 1]),
            ("large", 864, 6, &[0, 4, 0, 0, 0x10, 0, 0, 0, 8, 0x70]),
        ],
    ),
];

#[test]
fn folder_to_folder(rt: HostRuntime) -> Result<(), Fail> {
    let alloc = rt.alloc();
    for (profile, frames, lines, outputs) in FOLDERS {
        let _ = fs::remove_dir_all(&rt, "test-run");
        fs::create_dir_all(&rt, "test-run/src")?;
        for (name, header, pixels) in frames.iter() {
            let path = format!(in alloc; "test-run/src/{name}.ppm")?;
            let bytes = grey(alloc, header, *pixels)?;
            fs::write(&rt, path.as_str(), bytes.as_slice())?;
        }
        let command = format!(in alloc; "encode src dst --profile {profile}")?;
        let (status, report) = run_between(&rt, command.as_str(), "test-run/src", "test-run/dst")?;
        assert_eq!(rt; status, 0);
        assert!(rt; report.bytes() == lines.as_bytes());
        for (name, length, place, bytes) in outputs.iter() {
            let path = format!(in alloc; "test-run/dst/{name}.j2c")?;
            let written = fs::read(&rt, path.as_str())?;
            assert_eq!(rt; written.len(), *length);
            assert!(rt; written.get(*place..).unwrap_or_default().starts_with(bytes));
            assert!(rt; written.ends_with(&[0xFF, 0xD9]));
        }
        fs::remove_dir_all(&rt, "test-run")?;
    }
    Ok(())
}

#[test]
fn an_output_that_cant_have_its_name_ends_a_run(rt: HostRuntime) -> Result<(), Fail> {
    let _ = fs::remove_dir_all(&rt, "test-taken");
    fs::create_dir_all(&rt, "test-taken/dst/a.j2c/taken")?;
    fs::create_dir_all(&rt, "test-taken/src")?;
    fs::write(&rt, "test-taken/src/a.ppm", GREY)?;
    let (status, report) = run_between(&rt, COMMAND, "test-taken/src", "test-taken/dst")?;
    assert_eq!(rt; status, 4);
    assert!(rt; report.bytes().is_empty());
    let unfinished = fs::read(&rt, "test-taken/dst/a.j2c.part")?;
    assert!(rt; unfinished.as_slice() == CODESTREAM);
    fs::remove_dir_all(&rt, "test-taken")?;
    Ok(())
}
