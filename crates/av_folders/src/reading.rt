//! Folders that are read.
ghost use Rattle.std.specs.Prelude.{◌≡◌, ◌⊎◌, ◌++◌, [], ◌∷◌, IfErr, IfOk, IfSome, List, OnOk, map, string_bytes, string_cmp};
ghost use Rattle.std.specs.List.{All};
ghost use Rattle.std.specs.List.Sorted.{IsStrictlySortedBy};
ghost use Rattle.av_types.specs.declared.fault.Fault.TheVariants.{OutOfMemory};
ghost use Rattle.av_types.specs.declared.position.RegionPos.{RegionPos};
ghost use Rattle.av_sink.specs.Account.{IsDevice};
ghost use Rattle.av_folders.specs.Folders.{AreInNameOrder, AreRead, IsFolderRead, IsListed, IsFolderFault, IsUnreadFolder};

use crate::bare::note_bare;
use crate::holding::LockFiles;
use crate::progress::{end_steps, note_read};
use crate::tidying::tidy;
use av_region_files::RegionFile;
use av_reports::failure::{Failure, UnreadFile};
use av_reports::manner::Manner;
use av_reports::names::region_of_name;
use av_types::RegionPos;
use std::alloc::{AllocError, Global};
use std::fs::DirEntry;
use std::io::Write;
use std::path::Path;
use std::rt::Files;
use std::{fs, io};

/// A region's file in a folder.
#[derive(Debug, Drop)]
pub(crate) struct Listed {
    pub(crate) name: String,
    pub(crate) region: RegionPos,
}

/// What was read of a folder.
#[derive(Debug, Drop)]
pub struct FolderFiles {
    /// The region files that were read.
    pub files: Vec<RegionFile>,
    /// Those that could not be.
    pub unread: Vec<UnreadFile>,
}

impl FolderFiles {
    /// How many region files the folder had so far.
    fn len(&self) -> usize {
        self.files.len().saturating_add(self.unread.len())
    }

    fn add_read(&mut self, listed: &Listed, file: RegionFile) -> Result<(), AllocError>
        requires { file.pos ≡ listed.now.region }
        ensures adds { OnOk result ((before : List RegionPos) → AreRead before self.old
            → AreRead (before ++ listed.now.region ∷ []) self.new) }
    {
        Ok(self.files.push(file)?)
    }

    fn add_unread(
        &mut self,
        alloc: Global,
        folder: &str,
        listed: &Listed,
        error: io::Error,
    ) -> Result<(), AllocError>
        requires { IsListed listed.now }
        ensures adds { OnOk result ((before : List RegionPos) → AreRead before self.old
            → AreRead (before ++ listed.now.region ∷ []) self.new) }
    {
        if error.kind() == io::ErrorKind::OutOfMemory {
            return Err(AllocError);
        }
        let name = String::from_str(alloc, listed.name.as_str())?;
        let path = path_in(alloc, folder, listed.name.as_str())?;
        Ok(self.unread.push(UnreadFile { name, path, error })?)
    }

    /// Adds a file that was read, or one that could not be. Want of memory for its bytes is answered.
    fn add(
        &mut self,
        alloc: Global,
        folder: &str,
        listed: &Listed,
        read: io::Result<RegionFile>,
    ) -> Result<(), AllocError>
        requires listed { IsListed listed.now }
        requires pos { IfOk read (λ file. file.pos ≡ listed.now.region) }
        ensures adds { OnOk result ((before : List RegionPos) → AreRead before self.old
            → AreRead (before ++ listed.now.region ∷ []) self.new) }
    {
        match read {
            Ok(file) => self.add_read(listed, file),
            Err(error) => self.add_unread(alloc, folder, listed, error),
        }
    }
}

/// The region's file that an entry of a folder is. An entry of another name is none, and one whose name is no text in
/// UTF-8 neither.
fn region_entry<R: Files + Drop>(
    alloc: Global,
    entry: io::Result<DirEntry<R>>,
) -> io::Result<Option<Listed>>
    ensures { IfOk result (λ o. IfSome o IsListed) }
{
    let entry = match entry {
        Ok(entry) => entry,
        Err(error) if error.kind() == io::ErrorKind::InvalidFilename => return Ok(None),
        Err(error) => return Err(error),
    };
    match region_of_name(alloc, entry.file_name())? {
        None => Ok(None),
        Some(region) => Ok(Some(Listed {
            name: String::from_str(alloc, entry.file_name())?,
            region,
        })),
    }
}

/// The region files of a folder, in the byte order of their names, each once. A folder that changes meanwhile may give a name
/// twice.
pub(crate) fn list_folder<R: Files + AllocGlobal + Clone + Drop>(
    rt: &R,
    folder: &str,
) -> io::Result<Vec<Listed>>
    ensures named { IfOk result (λ files. All IsListed files.items) }
    ensures order { IfOk result (λ files. IsStrictlySortedBy
        (λ a b. string_cmp a.name b.name) files.items) }
{
    let mut files = Vec::new(rt.alloc());
    for entry in fs::read_dir(rt, folder)? {
        if let Some(file) = region_entry(rt.alloc(), entry)? {
            files.push(file)?;
        }
    }
    files.sort_by(|a, b| a.name.cmp(&b.name))?;
    files.dedup_by(|a, b| a.name == b.name);
    Ok(files)
}

/// The same, with a line on standard error where there are none. What a run has left there that was cut off is repaired first.
fn list_files<R: LockFiles + Eprint + AllocGlobal + Clone + Drop, E: Write>(
    rt: &R,
    folder: &str,
    err: &mut E,
) -> Result<Vec<Listed>, Failure>
    ensures named { IfOk result (λ files. All IsListed files.items) }
    ensures order { IfOk result (λ files. IsStrictlySortedBy
        (λ a b. string_cmp a.name b.name) files.items) }
    ensures unlisted { IfErr result (λ e. IsFolderFault folder.now e.fault) }
{
    tidy(rt, folder, folder, err)?;
    match list_folder(rt, folder) {
        Ok(listed) => {
            if listed.is_empty() {
                note_bare(rt, folder, err);
            }
            Ok(listed)
        }
        Err(error) => Err(Failure::of_device(rt.alloc(), error, folder, folder)),
    }
}

/// The path of a file in a folder.
fn path_in(alloc: Global, folder: &str, name: &str) -> Result<String, AllocError> {
    Ok(Path::new(folder).join(alloc, name)?.into_string())
}

/// The bytes of a file, or of that to which a link leads. What is neither a file nor a folder, as a pipe, is not opened, since
/// that might never return.
pub fn read_regular<R: Files + AllocGlobal>(rt: &R, path: &str) -> io::Result<Vec<u8>> {
    let found = fs::metadata(rt, path)?;
    if found.is_file() || found.is_dir() {
        return fs::read(rt, path);
    }
    Err(io::Error::new(io::ErrorKind::InvalidInput, "neither a file nor a folder"))
}

/// A region's file of a folder.
fn read_listed<R: Files + AllocGlobal>(
    rt: &R,
    folder: &str,
    file: &Listed,
) -> io::Result<RegionFile>
    ensures { IfOk result (λ read. read.pos ≡ file.now.region) }
{
    let path = path_in(rt.alloc(), folder, file.name.as_str())?;
    Ok(RegionFile {
        pos: file.region,
        bytes: read_regular(rt, path.as_str())?,
    })
}

/// A region's file of a folder. One that can't be read is `Device` with its name, without the folder's.
fn read_region<R: Files + AllocGlobal>(
    rt: &R,
    folder: &str,
    file: &Listed,
) -> Result<RegionFile, Failure>
    ensures pos { IfOk result (λ read. read.pos ≡ file.now.region) }
    ensures unread { IfErr result (λ e. (e.fault ≡ OutOfMemory)
        ⊎ IsDevice (string_bytes file.now.name) e.fault) }
{
    match read_listed(rt, folder, file) {
        Ok(read) => Ok(read),
        Err(error) => {
            let path = path_in(rt.alloc(), folder, file.name.as_str())?;
            let name = file.name.as_str();
            Err(Failure::of_device(rt.alloc(), error, name, path.as_str()))
        }
    }
}

/// Region files of a folder, read in their order, up to the first that can't be.
fn read_each<R: Files + AllocGlobal, E: Write>(
    rt: &R,
    folder: &str,
    listed: &[Listed],
    manner: Manner,
    err: &mut E,
) -> Result<Vec<RegionFile>, Failure>
    requires { All IsListed listed.now }
    ensures read { IfOk result (λ files. map (λ f. f.pos) files.items
        ≡ map (λ l. l.region) listed.now) }
    ensures unread { IfErr result (λ e. IsUnreadFolder folder.now e.fault) }
{
    let mut files = Vec::new(rt.alloc());
    for file in listed {
        files.push(read_region(rt, folder, file)?)?;
        note_read(err, manner.progress, files.len(), listed.len());
    }
    Ok(files)
}

/// The same, but that one that can't be read is named, and those behind it are read.
fn read_each_readable<R: Files + AllocGlobal, E: Write>(
    rt: &R,
    folder: &str,
    listed: &[Listed],
    manner: Manner,
    err: &mut E,
) -> Result<FolderFiles, Failure>
    requires { All IsListed listed.now }
    ensures read { IfOk result (AreRead (map (λ l. l.region) listed.now)) }
    ensures memory { IfErr result (λ e. e.fault ≡ OutOfMemory) }
{
    let mut read = FolderFiles {
        files: Vec::new(rt.alloc()),
        unread: Vec::new(rt.alloc()),
    };
    for file in listed {
        let one = read_listed(rt, folder, file);
        read.add(rt.alloc(), folder, file, one)?;
        note_read(err, manner.progress, read.len(), listed.len());
    }
    Ok(read)
}

/// The region files of a folder, each once, read in the byte order of their names. All other files are passed over. A folder without
/// region files is said on standard error, and so is what was repaired there of a run that was cut off.
///
/// # Errors
/// `Device` with the folder's name as it was given, where it can't be listed, or with the name of the first file
/// that can't be read, without the folder's; and want of memory.
pub fn read_folder<R: LockFiles + Eprint + AllocGlobal + Clone + Drop, E: Write>(
    rt: &R,
    folder: &str,
    manner: Manner,
    err: &mut E,
) -> Result<Vec<RegionFile>, Failure>
    ensures read { IfOk result (λ files. AreInNameOrder (map (λ f. f.pos) files.items)) }
    ensures unread { IfErr result (λ e. IsUnreadFolder folder.now e.fault) }
{
    let listed = list_files(rt, folder, err)?;
    let files = read_each(rt, folder, listed.as_slice(), manner, err);
    end_steps(err, manner.progress);
    files
}

/// The same, but that a region file that can't be read is passed over and named.
///
/// # Errors
/// `Device` with the folder's name as it was given, where it can't be listed; and want of memory.
pub fn read_readable<R: LockFiles + Eprint + AllocGlobal + Clone + Drop, E: Write>(
    rt: &R,
    folder: &str,
    manner: Manner,
    err: &mut E,
) -> Result<FolderFiles, Failure>
    ensures read { IfOk result IsFolderRead }
    ensures unlisted { IfErr result (λ e. IsFolderFault folder.now e.fault) }
{
    let listed = list_files(rt, folder, err)?;
    let read = read_each_readable(rt, folder, listed.as_slice(), manner, err);
    end_steps(err, manner.progress);
    read
}
