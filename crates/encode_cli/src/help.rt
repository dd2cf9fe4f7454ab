// What standard error says to those who ask how the program is used.
use command_words::{Request, request_of};

/// How the program is used.
const HELP: &str = "\
Encodes digital cinema frames as JPEG 2000 codestreams, within the byte limits of
DCI at 24 frames per second, or checks codestreams, and prints a line for each file.

  encode SRC DST     encodes each file of the folder SRC whose name ends in .ppm (binary
                     PPM, maxval 4095, samples X'Y'Z') into the folder DST, which is made
                     where it isn't there. NAME.ppm becomes NAME.j2c
  check SRC          reads each file of the folder SRC whose name ends in .j2c, whoever
                     wrote it, and says what it holds or its first fault. Writes no file
  demo N             makes a frame from the number N, 0 to 4294967295, encodes it, reads
                     its codestream, and says of both what encode and check would.
                     Needs no file and writes none

Options of encode and demo, written '--profile 2k' or '--profile=2k', before or after the
other words:

  --profile 2k|4k        the profile, required. 2k: frames up to 2048x1080,
                         4k: up to 4096x2160
  --frame-bytes B        the most bytes of a codestream, 1 to 1302083 (the default)
  --inner-bytes B        with 4k: the most bytes of its 2K portion, 1 to 1302083 (the default)
  --component-bytes B    the most bytes of each component, 1 to 1041666 (the default)

Options lower the limits of DCI and never raise them. Words after -- are no options,
even if they begin with -.

Statuses: 0 nothing was refused; 1 a file or the frame of demo was refused, and its line
says why; 2 these words are no command; 3 SRC, 4 DST, 5 standard output failed; 6 out of
memory.

  cinema encode frames out --profile 2k
  cinema encode frames out --profile 4k --frame-bytes 1200000
  cinema check out
  cinema demo 1 --profile 2k

The manual page is docs/cinema.1 of the source: man ./docs/cinema.1
";

/// Which version of the program it is.
const VERSION: &str = "\
cinema 0.1.0
";

/// What standard error says after the usage line at the end of a run with this status, if the words
/// ask for something.
pub fn page_of(status: u8, words: &[String]) -> Option<&'static str> {
    if status != 2 {
        return None;
    }
    match request_of(words) {
        Some(Request::Help) => Some(HELP),
        Some(Request::Version) => Some(VERSION),
        None => None,
    }
}

#[cfg(test)]
mod tests {
    use super::*;
    use std::test::Fail;

    #[test]
    fn a_page_comes_where_the_words_ask_for_it(rt: HostRuntime) -> Result<(), Fail> {
        let alloc = rt.alloc();
        let mut words = Vec::new(alloc);
        assert!(rt;
            page_of(2, words.as_slice())
                .ok_or("no help")?
                .contains("--component-bytes B")
        );
        words.push(String::from_str(alloc, "encode")?)?;
        assert!(rt; page_of(2, words.as_slice()).is_none());
        words.push(String::from_str(alloc, "--version")?)?;
        assert!(rt; page_of(2, words.as_slice()) == Some("cinema 0.1.0\n"));
        assert!(rt; page_of(0, words.as_slice()).is_none());
        words.push(String::from_str(alloc, "-h")?)?;
        assert!(rt;
            page_of(2, words.as_slice())
                .ok_or("no help")?
                .contains("Statuses: 0")
        );
        Ok(())
    }
}
