// Frames that lie in a folder.
ghost use Rattle.std.specs.Prelude.{◌<◌, List, ℕ, All, IsSorted, is_some, length, map, IfOk};
ghost use Rattle.std.specs.Prelude.{IfSome, IfNone};
ghost use Rattle.std.specs.Fs.{dir_entry_name};
ghost use Rattle.std.specs.String.{string_bytes, string_cmp};
ghost use Rattle.system_ports.specs.Folder.{IsStem, unknown_source, unknown_reading};
ghost use Rattle.cine_ports.specs.Names.{IsNameList};
ghost use Rattle.cine_ports.specs.Source.{IsUnlisted};

use crate::failure_mark::FailureMark;
use crate::interrupted::read_once;
use cine_ports::{Failed, Frames, PortFault, is_name_list};
use std::fs::DirEntry;
use std::path::Path;
use std::rt::Files;
use std::{fs, io};

/// The files of a folder whose names end in a suffix and are longer than it, called by their names
/// without the suffix. Their bytes aren't known.
///
/// A link counts as what it points to. `list` fails where a file name isn't UTF-8, or where a link
/// with the suffix points to nothing.
#[derive(Drop)]
pub struct FolderFrames<R: Files + AllocGlobal + Clone + Drop> {
    rt: R,
    folder: String,
    suffix: String,
    names: Vec<String>,
    is_listed: bool,
    asked: u32,
    file: Option<R::File>,
    pub(crate) mark: FailureMark,
    ghost in_order: { IsNameList (map string_bytes names.items) },
    ghost unlisted: { IsUnlisted (unknown_source is_listed (map string_bytes names.items))
        (unknown_reading asked (is_some file)) },
}

impl<R: Files + AllocGlobal + Clone + Drop> FolderFrames<R> {
    ghost use Rattle.std.specs.Prelude.{◌≡◌, [], false, is_some};

    /// The frames of this folder, of which none is listed or begun. Nothing is read yet.
    pub fn new(rt: R, folder: String, suffix: String) -> FolderFrames<R>
        ensures folder { result.folder ≡ folder }
        ensures suffix { result.suffix ≡ suffix }
        ensures names { result.names.items ≡ [] }
        ensures listed { result.is_listed ≡ false }
        ensures asked { result.asked ≡ 0 }
        ensures closed { is_some result.file ≡ false }
        ensures working { result.mark.has_failed ≡ false }
    {
        let names = Vec::new(rt.alloc());
        FolderFrames {
            rt,
            folder,
            suffix,
            names,
            is_listed: false,
            asked: 0,
            file: None,
            mark: FailureMark::new(),
        }
    }
}

/// A file name without the suffix, if it ends in it and is longer.
fn stem<'a>(file_name: &'a str, suffix: &str) -> Option<&'a str>
    ensures found { IfSome result (λ name. IsStem file_name.now suffix.now name.now) }
    ensures none { IfNone result ((name : List ℕ) → ¬ (IsStem file_name.now suffix.now name)) }
{
    match file_name.strip_suffix(suffix) {
        Some(name) if !name.is_empty() => Some(name),
        _ => None,
    }
}

/// The name of an entry without the suffix, where it is a file with that suffix and a longer name.
fn frame_name<'a, R: Files + AllocGlobal>(
    rt: &R,
    entry: &'a DirEntry<R>,
    suffix: &str,
) -> io::Result<Option<&'a str>>
    ensures { IfOk result (λ found. IfSome found
        (λ name. IsStem (dir_entry_name entry.now) suffix.now name.now)) }
{
    match stem(entry.file_name(), suffix) {
        Some(name) => {
            let is_file = fs::metadata(rt, entry.path())?.is_file();
            Ok(if is_file { Some(name) } else { None })
        }
        None => Ok(None),
    }
}

/// The names of the frames of a folder, sorted by their bytes. None is empty.
fn frame_names<R: Files + AllocGlobal + Clone + Drop>(
    rt: &R,
    folder: &str,
    suffix: &str,
) -> io::Result<Vec<String>>
    ensures sorted { IfOk result (λ names. IsSorted string_cmp names.items) }
    ensures not_empty { IfOk result
        (λ names. All (λ name. 0 < length (string_bytes name)) names.items) }
{
    let alloc = rt.alloc();
    let mut names = Vec::new(alloc);
    for entry in fs::read_dir(rt, folder)? {
        let entry = entry?;
        if let Some(name) = frame_name(rt, &entry, suffix)? {
            names.push(String::from_str(alloc, name)?)?;
        }
    }
    names.sort()?;
    Ok(names)
}

/// Opens the file of a name and the suffix in a folder.
fn open_frame<R: Files + AllocGlobal>(
    rt: &R,
    folder: &str,
    name: &str,
    suffix: &str,
) -> io::Result<R::File> {
    let alloc = rt.alloc();
    let file_name = format!(in alloc; "{name}{suffix}")?;
    fs::open(rt, Path::new(folder).join(alloc, file_name.as_str())?)
}

impl<R: Files + AllocGlobal + Clone + Drop> Frames for FolderFrames<R> {
    ghost source = { λ f. unknown_source f.is_listed (map string_bytes f.names.items) };

    ghost reading = { λ f. unknown_reading f.asked (is_some f.file) };

    ghost has_failed = { λ f. f.mark.has_failed };

    ghost unlisted = { λ f. f.unlisted };

    fn list(&mut self) -> Result<(), PortFault> {
        if self.is_listed {
            return Ok(());
        }
        match frame_names(&self.rt, self.folder.as_str(), self.suffix.as_str()) {
            Ok(names) => {
                if !is_name_list(names.as_slice()) {
                    return Err(PortFault::from(self.mark.fail()));
                }
                self.names = names;
                self.is_listed = true;
                Ok(())
            }
            Err(error) => Err(self.mark.refuse(error)),
        }
    }

    fn count(&self) -> u32 {
        self.names.len() as u32
    }

    fn name(&self, i: u32) -> &str {
        self.names[i as usize].as_str()
    }

    fn begin(&mut self, i: u32) -> Result<(), PortFault> {
        self.asked = i;
        self.file = None;
        let name = self.names[i as usize].as_str();
        match open_frame(&self.rt, self.folder.as_str(), name, self.suffix.as_str()) {
            Ok(file) => {
                self.file = Some(file);
                Ok(())
            }
            Err(error) => Err(self.mark.refuse(error)),
        }
    }

    /// Every error of the system is a failure here, out of memory too: a read has no other error.
    fn read(&mut self, buf: &mut [u8]) -> Result<usize, Failed> {
        match &mut self.file {
            Some(file) => match read_once(file, buf) {
                Ok(n) => Ok(n),
                Err(_) => Err(self.mark.fail()),
            },
            None => unreachable!(),
        }
    }
}
