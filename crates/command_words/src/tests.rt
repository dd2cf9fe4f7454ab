use crate::{EncodeWords, Request, check_words, demo_words, encode_words, request_of};
use budget_duals::Limits;
use cine_nums::Profile;
use std::alloc::{AllocError, Global};
use std::test::Fail;

/// The words of a line.
fn words(alloc: Global, line: &str) -> Result<Vec<String>, AllocError> {
    let mut words = Vec::new(alloc);
    for word in line.split_whitespace() {
        words.push(String::from_str(alloc, word)?)?;
    }
    Ok(words)
}

/// Lines that name the folders `src` and `dst`, and the profile and limits that they name.
#[rattlefmt::skip]
const COMMANDS: &[(&str, Profile, u32, Option<u32>, u32)] = &[
    ("encode src dst --profile 2k", Profile::TwoK, 1302083, None, 1041666),
    ("encode --profile 2k src dst", Profile::TwoK, 1302083, None, 1041666),
    ("encode src --profile=2k dst", Profile::TwoK, 1302083, None, 1041666),
    ("encode --profile 2k -- src dst", Profile::TwoK, 1302083, None, 1041666),
    ("encode src dst --profile 4k", Profile::FourK, 1302083, Some(1302083), 1041666),
    ("encode src dst --profile 2k --frame-bytes 1", Profile::TwoK, 1, None, 1041666),
    ("encode src dst --profile 2k --frame-bytes 1302083", Profile::TwoK, 1302083, None, 1041666),
    ("encode src dst --profile 2k --frame-bytes 000194", Profile::TwoK, 194, None, 1041666),
    (
        "encode --profile 2k --component-bytes 1041666 src dst",
        Profile::TwoK, 1302083, None, 1041666,
    ),
    ("encode src dst --profile 2k --component-bytes=20", Profile::TwoK, 1302083, None, 20),
    (
        "encode --component-bytes 7 --inner-bytes 8 --frame-bytes 9 src dst --profile 4k",
        Profile::FourK, 9, Some(8), 7,
    ),
];

/// Whether words name these folders, this profile and these limits.
fn is_named(
    found: Option<EncodeWords<'_>>,
    profile: Profile,
    frame: u32,
    inner: Option<u32>,
    component: u32,
) -> bool {
    let limits = Limits {
        frame,
        inner,
        component: [component; 3],
    };
    match found {
        Some(found) => {
            found.source == "src"
                && found.target == "dst"
                && found.profile == profile
                && found.limits == limits
        }
        None => false,
    }
}

#[test]
fn commands_name_folders_profile_and_limits(rt: HostRuntime) -> Result<(), Fail> {
    let alloc = rt.alloc();
    for (line, profile, frame, inner, component) in COMMANDS {
        let words = words(alloc, line)?;
        let found = encode_words(alloc, words.as_slice())?;
        assert!(rt;
            is_named(found, *profile, *frame, *inner, *component),
            "{line}"
        );
    }
    Ok(())
}

#[test]
fn commands_name_a_folder_of_codestreams(rt: HostRuntime) -> Result<(), Fail> {
    let alloc = rt.alloc();
    for line in ["check src", "check -- src"] {
        let words = words(alloc, line)?;
        let found = check_words(alloc, words.as_slice())?.ok_or("no command")?;
        assert_eq!(rt; found.source, "src");
        assert!(rt; encode_words(alloc, words.as_slice())?.is_none());
    }
    Ok(())
}

/// Lines that name a number, a profile and limits, and what they name.
#[rattlefmt::skip]
const DEMOS: &[(&str, u32, Profile, u32, Option<u32>, u32)] = &[
    ("demo 0 --profile 2k", 0, Profile::TwoK, 1302083, None, 1041666),
    ("demo --profile 4k 4294967295", 4294967295, Profile::FourK, 1302083, Some(1302083), 1041666),
    ("demo 007 --profile=2k --frame-bytes 349", 7, Profile::TwoK, 349, None, 1041666),
    (
        "demo --inner-bytes 8 --component-bytes=7 --profile 4k -- 12",
        12, Profile::FourK, 1302083, Some(8), 7,
    ),
];

#[test]
fn commands_name_a_number(rt: HostRuntime) -> Result<(), Fail> {
    let alloc = rt.alloc();
    for (line, number, profile, frame, inner, component) in DEMOS {
        let limits = Limits {
            frame: *frame,
            inner: *inner,
            component: [*component; 3],
        };
        let words = words(alloc, line)?;
        let found = demo_words(alloc, words.as_slice())?.ok_or("no command")?;
        assert!(rt;
            found.number == *number && found.profile == *profile && found.limits == limits,
            "{line}"
        );
        assert!(rt; encode_words(alloc, words.as_slice())?.is_none());
        assert!(rt; check_words(alloc, words.as_slice())?.is_none());
    }
    Ok(())
}

/// Lines that are no command.
const OTHERS: &[&str] = &[
    "",
    "--help",
    "encode",
    "encode --help",
    "encode src dst -h",
    "encode src",
    "encode src dst",
    "encode src --profile 2k",
    "encode src dst other --profile 2k",
    "encode src dst --profile",
    "encode src dst --profile 3k",
    "encode src dst --profile 2K",
    "encode src dst --profile 2k --profile 2k",
    "encode src dst -p 2k",
    "encode src dst --prof 2k",
    "encode src dst --profile 2k --help",
    "encode src dst --profile 2k --frame-bytes",
    "encode src dst --profile 2k --frame-bytes 0",
    "encode src dst --profile 2k --frame-bytes 1302084",
    "encode src dst --profile 2k --frame-bytes 4294967297",
    "encode src dst --profile 2k --frame-bytes +5",
    "encode src dst --profile 2k --frame-bytes -5",
    "encode src dst --profile 2k --frame-bytes 5.0",
    "encode src dst --profile 2k --frame-bytes 0x5",
    "encode src dst --profile 2k --frame-bytes=",
    "encode src dst --profile 2k --frame-bytes 9 --frame-bytes 9",
    "encode src dst --profile 2k --component-bytes 0",
    "encode src dst --profile 2k --component-bytes 1041667",
    "encode src dst --profile 2k --inner-bytes 9",
    "encode src dst --profile 4k --inner-bytes 1302084",
    "encode src dst 2k --profile",
    "Encode src dst --profile 2k",
    "check",
    "check --help",
    "check src dst",
    "check src --profile 2k",
    "check src dst --profile 2k",
    "check --source src",
    "Check src",
    "demo",
    "demo 1",
    "demo --profile 2k",
    "demo 1 --help --profile 2k",
    "demo 1 --profile 3k",
    "demo 1 2 --profile 2k",
    "demo +1 --profile 2k",
    "demo -1 --profile 2k",
    "demo -- -1 --profile 2k",
    "demo 1.0 --profile 2k",
    "demo x --profile 2k",
    "demo 4294967296 --profile 2k",
    "demo 99999999999999999999 --profile 2k",
    "demo src dst --profile 2k",
    "demo 1 --profile 2k --profile 2k",
    "demo 1 --profile 2k --frame-bytes 0",
    "demo 1 --profile 2k --frame-bytes 1302084",
    "demo 1 --profile 2k --inner-bytes 9",
    "demo 1 --profile 4k --component-bytes 1041667",
    "Demo 1 --profile 2k",
];

#[test]
fn other_words_are_no_command(rt: HostRuntime) -> Result<(), Fail> {
    let alloc = rt.alloc();
    for line in OTHERS {
        let words = words(alloc, line)?;
        assert!(rt; encode_words(alloc, words.as_slice())?.is_none(), "{line}");
        assert!(rt; check_words(alloc, words.as_slice())?.is_none(), "{line}");
        assert!(rt; demo_words(alloc, words.as_slice())?.is_none(), "{line}");
    }
    Ok(())
}

/// Lines, and what they ask for.
const REQUESTS: &[(&str, Option<Request>)] = &[
    ("", Some(Request::Help)),
    ("--help", Some(Request::Help)),
    ("encode -h", Some(Request::Help)),
    ("--version --help", Some(Request::Help)),
    ("--version", Some(Request::Version)),
    ("encode -V", Some(Request::Version)),
    ("encode src dst", None),
    ("-help", None),
];

#[test]
fn words_ask_for_help_and_version(rt: HostRuntime) -> Result<(), Fail> {
    let alloc = rt.alloc();
    for (line, want) in REQUESTS {
        let words = words(alloc, line)?;
        assert_eq!(rt; request_of(words.as_slice()), *want);
    }
    Ok(())
}
