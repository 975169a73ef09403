//! A folder of the system, for exchanges.
ghost use Rattle.std.specs.Prelude.{None};

use crate::region_marks::Watched;
use av_exchange::{Folder, JOURNAL};
use std::alloc::{AllocError, Global};
use std::fs::{self, DirEntry, File, Metadata, OpenFile};
use std::io::{self, ErrorKind, Write};
use std::os::unix::fs::{MetadataExt, OpenOptionsExt, lchown};
use std::path::{Path, PathBuf};
use std::rt::Files;

/// What is said of a name that no file has, but something else.
const NO_FILE: &str = "a link, a folder or a pipe, where a file is to be";

/// A folder of the system, by its path.
#[derive(Drop)]
pub struct SystemFolder<'a, R> {
    rt: &'a R,
    pub(crate) path: String,
    /// What is to be as it was before files are replaced, where that is asked for.
    pub(crate) watched: Option<Watched<'a>>,
    /// The file that could not take its name or be taken away, or is not what it was, where there is one.
    unmoved: Option<String>,
}

/// A step that a folder refused, and the name of the file that it was about, where that is known.
#[derive(Drop)]
pub(crate) struct RefusedStep {
    pub(crate) name: Option<String>,
    pub(crate) error: io::Error,
}

/// The file that is named where a refused step is told: the journal, unless another is known.
pub(crate) fn file_told(name: &Option<String>) -> &str {
    match name {
        Some(name) => name.as_str(),
        None => JOURNAL,
    }
}

impl From<io::Error> for RefusedStep {
    ghost from_gives = { λ _ _. Unit {0} };

    fn from(error: io::Error) -> RefusedStep {
        RefusedStep { name: None, error }
    }
}

impl<'a, R: Files + AllocGlobal + Clone + Drop> SystemFolder<'a, R> {
    /// The folder of that path.
    pub fn new(rt: &'a R, path: String) -> SystemFolder<'a, R> {
        SystemFolder {
            rt,
            path,
            watched: None,
            unmoved: None,
        }
    }

    /// The step that was refused last, by its error.
    pub(crate) fn refused(&mut self, error: io::Error) -> RefusedStep {
        RefusedStep {
            name: self.unmoved.take(),
            error,
        }
    }

    /// The folder's own path, which is that of the folder in which this process works where it is empty.
    pub(crate) fn own_path(&self) -> &str {
        if self.path.is_empty() {
            "."
        } else {
            self.path.as_str()
        }
    }

    /// The path of a file of the folder.
    fn path_of(&self, name: &str) -> io::Result<PathBuf> {
        Ok(Path::new(self.path.as_str()).join(self.rt.alloc(), name)?)
    }

    /// Whether a file of that name has these bytes. Where that can't be told it is not so.
    pub(crate) fn has(&self, name: &str, bytes: &[u8]) -> bool {
        let Ok(path) = self.path_of(name) else {
            return false;
        };
        match fs::symlink_metadata(self.rt, path.as_path()) {
            Ok(found) if found.is_file() && found.len() == bytes.len() as u64 => {
                fs::read(self.rt, path.as_path()).is_ok_and(|there| there.as_slice() == bytes)
            }
            _ => false,
        }
    }
}

/// The file of a path, where there is one. A link is none: what it leads to would be written elsewhere, or stay old.
fn file_there<R: Files>(rt: &R, path: Path<'_>) -> io::Result<Option<Metadata>> {
    match fs::symlink_metadata(rt, path) {
        Ok(found) if found.is_file() => Ok(Some(found)),
        Ok(_) => Err(io::Error::new(ErrorKind::InvalidInput, NO_FILE)),
        Err(error) if error.kind() == ErrorKind::NotFound => Ok(None),
        Err(error) => Err(error),
    }
}

/// By what a file is known again: its size, and the time at which it was written last.
fn mark_of(alloc: Global, found: &Metadata) -> Result<String, AllocError> {
    let (size, seconds, nanoseconds) = (found.len(), found.mtime(), found.mtime_nsec());
    format!(in alloc; "{size} {seconds} {nanoseconds}")
}

/// Whether something is not permitted, or not known to the file system, as owners are to some.
fn is_passed_over(error: &io::Error) -> bool {
    matches!(
        error.kind(),
        ErrorKind::PermissionDenied | ErrorKind::InvalidInput | ErrorKind::Unsupported
    )
}

/// Passes over what is not permitted or not known.
fn where_permitted(done: io::Result<()>) -> io::Result<()> {
    match done {
        Err(error) if !is_passed_over(&error) => Err(error),
        _ => Ok(()),
    }
}

/// Gives a new file the owner and the group of the one that it is to replace, or the group alone, where this process may. A link that came
/// where the new file is to be is not followed.
fn keep_owner<R: Files>(rt: &R, path: Path<'_>, old: &Metadata) -> io::Result<()> {
    match lchown(rt, path, Some(old.uid()), Some(old.gid())) {
        Err(error) if is_passed_over(&error) => {
            where_permitted(lchown(rt, path, None, Some(old.gid())))
        }
        done => done,
    }
}

/// Makes a file of a name that is free. One that is to replace another nobody else may open until it has that one's rights.
fn make_file<R: Files>(rt: &R, path: Path<'_>, old: Option<&Metadata>) -> io::Result<R::File> {
    if old.is_none() {
        return File::create_new(rt, path);
    }
    let mut options = File::options();
    options
        .write(true)
        .create_new(true)
        .mode(0o600)
        .open(rt, path)
}

/// Writes a new file, up to the device.
fn fill<R: Files>(
    rt: &R,
    path: Path<'_>,
    file: R::File,
    old: Option<Metadata>,
    bytes: &[u8],
) -> io::Result<()> {
    let mut file = file;
    if let Some(old) = old {
        keep_owner(rt, path, &old)?;
        where_permitted(file.set_permissions(old.permissions()))?;
    }
    file.write_all(bytes)?;
    file.sync_all()
}

/// The name of an entry. One that is no text in UTF-8 is none of ours.
fn name_of<R: Files + Drop>(
    alloc: Global,
    entry: io::Result<DirEntry<R>>,
) -> io::Result<Option<String>> {
    match entry {
        Ok(entry) => Ok(Some(String::from_str(alloc, entry.file_name())?)),
        Err(error) if error.kind() == ErrorKind::InvalidFilename => Ok(None),
        Err(error) => Err(error),
    }
}

/// Whether a file system says that it can't wait for names.
fn has_no_sync(error: &io::Error) -> bool {
    matches!(
        error.kind(),
        ErrorKind::InvalidInput | ErrorKind::Unsupported
    )
}

impl<'a, R: Files + AllocGlobal + Clone + Drop> Folder for SystemFolder<'a, R> {
    ghost history = { λ s. None };

    ghost mark_of = { λ s bytes. bytes };

    fn write_new(&mut self, name: &str, bytes: &[u8], like: &str) -> io::Result<()> {
        let path = self.path_of(name)?;
        let old = file_there(self.rt, self.path_of(like)?.as_path())?;
        let file = make_file(self.rt, path.as_path(), old.as_ref())?;
        let written = fill(self.rt, path.as_path(), file, old, bytes);
        if written.is_err() {
            let _ = fs::remove_file(self.rt, path.as_path());
        }
        written
    }

    fn move_over(&mut self, from: &str, to: &str) -> io::Result<bool> {
        let new = self.path_of(from)?;
        let old = self.path_of(to)?;
        match fs::rename(self.rt, new.as_path(), old.as_path()) {
            Ok(()) => Ok(true),
            Err(error) if error.kind() == ErrorKind::NotFound => Ok(false),
            Err(error) => {
                self.unmoved = String::from_str(self.rt.alloc(), to).ok();
                Err(error)
            }
        }
    }

    fn remove(&mut self, name: &str) -> io::Result<()> {
        let path = self.path_of(name)?;
        match fs::remove_file(self.rt, path.as_path()) {
            Err(error) if error.kind() != ErrorKind::NotFound => {
                self.unmoved = String::from_str(self.rt.alloc(), name).ok();
                Err(error)
            }
            _ => Ok(()),
        }
    }

    fn sync(&mut self) -> io::Result<()> {
        match fs::open(self.rt, self.own_path())?.sync_all() {
            Err(error) if !has_no_sync(&error) => Err(error),
            _ => Ok(()),
        }
    }

    fn look_again(&mut self) -> io::Result<()> {
        let Some(watched) = self.watched else {
            return Ok(());
        };
        let RefusedStep { name, error } = match watched.look(self.rt, self) {
            Ok(()) => return Ok(()),
            Err(refused) => refused,
        };
        self.unmoved = name;
        Err(error)
    }

    fn read_text(&self, alloc: Global, name: &str) -> io::Result<Option<String>> {
        let path = self.path_of(name)?;
        match file_there(self.rt, path.as_path())? {
            Some(_) => Ok(Some(fs::read_to_string(self.rt, path.as_path())?)),
            None => Ok(None),
        }
    }

    fn mark(&self, alloc: Global, name: &str) -> io::Result<Option<String>> {
        let path = self.path_of(name)?;
        match file_there(self.rt, path.as_path())? {
            Some(found) => Ok(Some(mark_of(alloc, &found)?)),
            None => Ok(None),
        }
    }

    fn names(&self, alloc: Global) -> io::Result<Vec<String>> {
        let mut names = Vec::new(alloc);
        for entry in fs::read_dir(self.rt, self.own_path())? {
            if let Some(name) = name_of(alloc, entry)? {
                names.push(name)?;
            }
        }
        Ok(names)
    }
}
