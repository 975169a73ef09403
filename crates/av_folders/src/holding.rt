//! Folders that one call at a time writes to.
ghost use Rattle.std.specs.Prelude.{IfErr};
ghost use Rattle.av_folders.specs.Folders.{IsFolderFault};

use crate::locks::holder_of;
use av_exchange::TRIAL;
use av_reports::failure::Failure;
use std::alloc::Global;
use std::fs::{self, File, Metadata, TryLockError};
use std::io::{self, ErrorKind};
use std::path::Path;
use std::rt::Files;

/// A runtime whose open files and folders can be locked against other processes.
pub trait LockFiles: Files {
    /// Locks one, unless another process holds it. The lock goes with the file.
    fn try_lock(file: &Self::File) -> Result<(), TryLockError>;
}

impl LockFiles for HostRuntime {
    fn try_lock(file: &File) -> Result<(), TryLockError> {
        file.try_lock()
    }
}

/// What is said of a folder that another process holds, with the process where the system lists it.
fn held_text<R: Files + AllocGlobal>(rt: &R, found: &Metadata) -> Option<String> {
    let holder = holder_of(rt, found)?;
    format!(in rt.alloc(); "{holder} works on it: wait until it has ended").ok()
}

/// The error of a folder that another process holds.
fn held<R: Files + AllocGlobal>(rt: &R, found: &Metadata) -> io::Error {
    match held_text(rt, found) {
        Some(text) => io::Error::new(ErrorKind::WouldBlock, text.as_str()),
        None => io::Error::new(
            ErrorKind::WouldBlock,
            "another process works on it: wait until it has ended",
        ),
    }
}

/// What comes of asking for a folder.
#[derive(Drop)]
pub(crate) enum Hold<F> {
    /// This process alone works on it, as long as this is kept.
    Held(F),
    /// Another process holds it.
    Busy,
    /// Its file system gives no lock, for this cause, so that another process may work on it.
    Unlocked(io::Error),
}

/// Locks a folder, unless another process holds it.
pub(crate) fn try_hold<R: LockFiles>(rt: &R, folder: &str) -> io::Result<Hold<R::File>> {
    let opened = fs::open(rt, folder)?;
    Ok(match R::try_lock(&opened) {
        Ok(()) => Hold::Held(opened),
        Err(TryLockError::WouldBlock) => Hold::Busy,
        Err(TryLockError::Error(error)) => Hold::Unlocked(error),
    })
}

/// The error of a folder in which something waits for a lock that its file system doesn't give.
pub(crate) fn unlocked(alloc: Global, error: &io::Error) -> io::Error {
    match format!(in alloc; "the folder can't be locked: {error}") {
        Ok(text) => io::Error::new(ErrorKind::Unsupported, text.as_str()),
        Err(refused) => refused.into(),
    }
}

/// Makes a file in a folder and takes it away, unless one of that name is there.
fn make_and_remove<R: Files + AllocGlobal>(rt: &R, folder: &str) -> io::Result<()> {
    let path = Path::new(folder).join(rt.alloc(), TRIAL)?;
    match File::create_new(rt, path.as_path()) {
        Ok(_) => fs::remove_file(rt, path.as_path()),
        Err(error) if error.kind() == ErrorKind::AlreadyExists => Ok(()),
        Err(error) => Err(error),
    }
}

/// A folder that this process alone writes to, as long as this is kept.
#[derive(Drop)]
pub struct HeldFolder<R: Files> {
    _folder: R::File,
}

/// Holds a folder, and looks whether it takes files. Where its file system has no locks, nothing is held.
fn take_hold<R: LockFiles + AllocGlobal>(rt: &R, folder: &str) -> io::Result<HeldFolder<R>> {
    let found = fs::metadata(rt, folder)?;
    if !found.is_dir() {
        return Err(ErrorKind::NotADirectory.into());
    }
    let opened = fs::open(rt, folder)?;
    if let Err(TryLockError::WouldBlock) = R::try_lock(&opened) {
        return Err(held(rt, &found));
    }
    make_and_remove(rt, folder)?;
    Ok(HeldFolder { _folder: opened })
}

/// Holds a folder that files are to be written to, so that no other process that asks for it writes there meanwhile, and looks whether
/// it takes files.
///
/// # Errors
/// `Device` with the folder's name as it was given, where it is not there, is no folder, is held by another process, or takes no
/// file; and want of memory.
pub fn hold_folder<R: LockFiles + AllocGlobal>(
    rt: &R,
    folder: &str,
) -> Result<HeldFolder<R>, Failure>
    ensures { IfErr result (λ e. IsFolderFault folder.now e.fault) }
{
    match take_hold(rt, folder) {
        Ok(held) => Ok(held),
        Err(error) => Err(Failure::of_device(rt.alloc(), error, folder, folder)),
    }
}
