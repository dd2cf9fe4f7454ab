// Outputs that are files of a folder.
use crate::failure_mark::FailureMark;
use crate::part::{Part, begin_part};
use cine_ports::{Outputs, PortFault};
use std::io::ErrorKind;
use std::rt::Files;
use std::{fs, io};

/// Files of a folder, which is made at the first `begin` where it isn't there.
///
/// An unfinished file is called `NAME.part`, which stays after a failure. What had that name before
/// is removed first, and the file is made new, so that nothing but it is written to. `finish` puts
/// what the system still holds on the disk and renames the file, in the place of an older one of
/// its name. So what is called `NAME` is whole, whatever stops the program, as long as no other
/// program changes what is called `NAME.part` in between. A folder without a name is a failure at
/// `begin`.
#[derive(Drop)]
pub struct FolderOutputs<R: Files + AllocGlobal + Clone + Drop> {
    rt: R,
    folder: String,
    is_made: bool,
    pub(crate) part: Option<Part<R::File>>,
    pub(crate) mark: FailureMark,
}

impl<R: Files + AllocGlobal + Clone + Drop> FolderOutputs<R> {
    ghost use Rattle.std.specs.Prelude.{◌≡◌, false, is_some};

    /// The outputs of this folder, of which none is begun. Nothing is written yet.
    pub fn new(rt: R, folder: String) -> FolderOutputs<R>
        ensures folder { result.folder ≡ folder }
        ensures made { result.is_made ≡ false }
        ensures closed { is_some result.part ≡ false }
        ensures working { result.mark.has_failed ≡ false }
    {
        FolderOutputs {
            rt,
            folder,
            is_made: false,
            part: None,
            mark: FailureMark::new(),
        }
    }
}

/// Makes a folder and those above it where they aren't there. An empty name is an error: files
/// below it would be files of the current folder.
fn make_folder<R: Files>(rt: &R, folder: &str) -> io::Result<()> {
    if folder.is_empty() {
        return Err(io::Error::from(ErrorKind::InvalidInput));
    }
    fs::create_dir_all(rt, folder)
}

/// Begins the file of a name in a folder, which is made first unless it is made already.
fn begin_output<R: Files + AllocGlobal>(
    rt: &R,
    folder: &str,
    is_made: bool,
    name: &str,
) -> io::Result<Part<R::File>> {
    if !is_made {
        make_folder(rt, folder)?;
    }
    begin_part(rt, folder, name)
}

impl<R: Files + AllocGlobal + Clone + Drop> Outputs for FolderOutputs<R> {
    ghost use Rattle.std.specs.Prelude.{None, is_some};

    ghost kept = { λ o. None };

    ghost is_open = { λ o. is_some o.part };

    ghost has_failed = { λ o. o.mark.has_failed };

    ghost open_known = { λ o. tt };

    fn begin(&mut self, name: &str) -> Result<(), PortFault> {
        match begin_output(&self.rt, self.folder.as_str(), self.is_made, name) {
            Ok(part) => {
                self.is_made = true;
                self.part = Some(part);
                Ok(())
            }
            Err(error) => Err(self.mark.refuse(error)),
        }
    }

    fn write(&mut self, piece: &[u8]) -> Result<usize, PortFault> {
        match &mut self.part {
            Some(part) => match part.write(piece) {
                Ok(n) => Ok(n),
                Err(error) => Err(self.mark.refuse(error)),
            },
            None => unreachable!(),
        }
    }

    fn finish(&mut self) -> Result<(), PortFault> {
        let finished = match &mut self.part {
            Some(part) => part.finish(&self.rt),
            None => unreachable!(),
        };
        match finished {
            Ok(()) => {
                self.part = None;
                Ok(())
            }
            Err(error) => Err(self.mark.refuse(error)),
        }
    }
}
