//! A folder that files are written to.
ghost use Rattle.std.specs.Prelude.{option_map, string_bytes};
ghost use Rattle.av_sink.specs.Account.{IsFresh};
ghost use Rattle.av_folders.specs.Folders.{folder_account};

use crate::holding::{Hold, LockFiles, try_hold};
use crate::region_marks::{RegionMarks, Watched};
use crate::replacing::{clear, commit_or_clear, opened, opened_to_replace, refuse_left};
use crate::system_folder::{RefusedStep, SystemFolder, file_told};
use av_exchange::{JOURNAL, close, commit_alone, is_own, repair, stage, unstage};
use av_reports::names::region_of_name;
use av_sink::{FailedFile, OutputFolder, Repair, Sink, SinkFailed, Teller};
use std::alloc::{AllocError, Global};
use std::io::{self, ErrorKind};
use std::path::Path;
use std::rt::Files;

/// Writes a file of a region beside the one that it is to replace, and notes its name, unless that has its bytes.
fn write_region<R: Files + AllocGlobal + Clone + Drop>(
    alloc: Global,
    folder: &mut SystemFolder<'_, R>,
    names: &mut Vec<String>,
    name: &str,
    bytes: &[u8],
    is_locked: bool,
) -> io::Result<()> {
    if folder.has(name, bytes) {
        return Ok(());
    }
    names.push(String::from_str(alloc, name)?)?;
    let written = stage(alloc, folder, name, bytes);
    if written.is_err() {
        // What has this name may be another process's.
        let _ = names.pop();
        clear(alloc, folder, names.as_slice(), is_locked);
    }
    written
}

/// Writes a file of a folder under another name, and gives it its own once it is whole. Where this fails the file that was there stays.
/// What a call that was cut off has left of it goes first, if no other process works on the folder.
fn write_alone<R: LockFiles + AllocGlobal + Clone + Drop>(
    rt: &R,
    folder: &mut SystemFolder<'_, R>,
    name: &str,
    bytes: &[u8],
) -> io::Result<()> {
    let held = try_hold(rt, folder.own_path())?;
    if let Hold::Held(_) = &held {
        unstage(rt.alloc(), folder, name)?;
    }
    stage(rt.alloc(), folder, name, bytes)?;
    let committed = commit_alone(rt.alloc(), folder, name);
    if committed.is_err() {
        let _ = unstage(rt.alloc(), folder, name);
    }
    committed
}

/// What is said of a name that a file by itself can't have.
const NO_NAME: &str = "it is a name of region files, or of what stands beside them for a while";

/// Whether a file by itself would have the name of a region's, or that of an exchange's own file, or would be written under one first.
fn is_of_exchange(alloc: Global, name: &str) -> Result<bool, AllocError> {
    let is_part = name == "journal" || name == "journal-new" || name == "trial";
    Ok(is_part || is_own(name) || region_of_name(alloc, name)?.is_some())
}

/// Writes a file of a folder. One of a region waits for its name, where the folder was repaired for it, and its name is noted.
fn write<R: LockFiles + AllocGlobal + Clone + Drop>(
    rt: &R,
    folder: &Option<String>,
    is_repaired: bool,
    is_locked: bool,
    names: &mut Vec<String>,
    name: &str,
    bytes: &[u8],
) -> io::Result<()> {
    let mut folder = opened(rt, folder)?;
    if is_repaired && region_of_name(rt.alloc(), name)?.is_some() {
        return write_region(rt.alloc(), &mut folder, names, name, bytes, is_locked);
    }
    if is_of_exchange(rt.alloc(), name)? {
        return Err(io::Error::new(ErrorKind::InvalidInput, NO_NAME));
    }
    write_alone(rt, &mut folder, name, bytes)
}

/// A folder that files are written to. Those of regions take their names all or none, in a folder that was repaired; any other file takes
/// its own at once, and has no name of these. A region's file that has its bytes already is left alone. What is a link where there is to be a
/// file is not written to. Want of memory for a path is a failed write too, as is each write before the folder is opened. A region's file that
/// was changed by another program since the folder was repaired is not replaced, nor is any other then.
#[derive(Drop)]
pub struct FolderSink<'a, R> {
    rt: &'a R,
    folder: Option<String>,
    /// The names of the region files that were written beside those that they are to replace.
    names: Vec<String>,
    repaired: Option<Repair>,
    /// Whether another process can be kept from the folder, and this one alone works there.
    is_locked: bool,
    /// Whether the game may have the folder's world open.
    in_use: bool,
    /// By what the region files were known when the folder was repaired.
    marks: RegionMarks,
    failures: u64,
    handed: u64,
    is_committed: bool,
    is_closed: bool,
    failed: Option<FailedFile>,
}

/// What is known of a failure, where memory is enough for it.
fn failed_file(
    alloc: Global,
    folder: &Option<String>,
    name: &str,
    error: io::Error,
) -> Option<FailedFile> {
    let folder = folder.as_ref()?;
    let path = Path::new(folder.as_str()).join(alloc, name).ok()?;
    Some(FailedFile {
        path: path.into_string(),
        error,
    })
}

/// What is known of a step that was refused.
fn failed_step(alloc: Global, folder: &Option<String>, refused: RefusedStep) -> Option<FailedFile> {
    let RefusedStep { name, error } = refused;
    failed_file(alloc, folder, file_told(&name), error)
}

/// What is known of a folder when it is opened for a run.
#[derive(Drop)]
struct Found {
    repaired: Repair,
    is_locked: bool,
    marks: RegionMarks,
}

impl Found {
    fn new<R: Files + AllocGlobal + Clone + Drop>(
        rt: &R,
        folder: &SystemFolder<'_, R>,
        repaired: Repair,
        is_locked: bool,
    ) -> Result<Found, RefusedStep> {
        Ok(Found {
            repaired,
            is_locked,
            marks: RegionMarks::of(rt, folder)?,
        })
    }
}

impl<'a, R: LockFiles + AllocGlobal + Clone + Drop> FolderSink<'a, R> {
    /// A folder that is not opened yet.
    pub fn new(rt: &'a R) -> FolderSink<'a, R>
        ensures { IsFresh (⟦<FolderSink<'a, R> as Sink>⟧.account result) }
    {
        FolderSink {
            rt,
            folder: None,
            names: Vec::new(rt.alloc()),
            repaired: None,
            is_locked: false,
            in_use: false,
            marks: RegionMarks::new(rt.alloc()),
            failures: 0,
            handed: 0,
            is_committed: false,
            is_closed: false,
            failed: None,
        }
    }

    /// Repairs the folder, where this process alone works on it, and tells by what its region files are known then.
    fn repair_opened<T: Teller>(&self, teller: &T) -> Result<Found, RefusedStep> {
        let alloc = self.rt.alloc();
        let mut folder = opened(self.rt, &self.folder)?;
        let lock = try_hold(self.rt, folder.own_path())?;
        if let Hold::Unlocked(error) = &lock {
            let repaired = refuse_left(alloc, &folder, error)?;
            return Found::new(self.rt, &folder, repaired, false);
        }
        match repair(alloc, &mut folder, teller) {
            Ok(repaired) => Found::new(self.rt, &folder, repaired, true),
            Err(error) => Err(folder.refused(error)),
        }
    }

    /// Lets the files that were written take their names.
    fn commit_written(&self) -> Result<(), RefusedStep> {
        if self.names.is_empty() {
            return Ok(());
        }
        let names = self.names.as_slice();
        let watched = Watched {
            marks: &self.marks,
            names,
            in_use: self.in_use,
        };
        let mut folder = opened_to_replace(self.rt, &self.folder, watched)?;
        commit_or_clear(
            self.rt.alloc(),
            &mut folder,
            &self.marks,
            names,
            self.is_locked,
        )
    }

    /// Takes the journal away, where the files have their names, and answers why that may not be on the device.
    fn close_committed(&self) -> Result<Option<io::Error>, RefusedStep> {
        if !self.is_committed || self.names.is_empty() {
            return Ok(None);
        }
        let mut folder = opened(self.rt, &self.folder)?;
        match close(&mut folder) {
            Ok(unsynced) => Ok(unsynced),
            Err(error) => Err(folder.refused(error)),
        }
    }
}

impl<'a, R: LockFiles + AllocGlobal + Clone + Drop> Sink for FolderSink<'a, R> {
    ghost account = { λ s. folder_account (option_map string_bytes s.folder) s.repaired s.failures s.handed s.is_committed s.is_closed };

    fn failures(&self) -> u64 {
        self.failures
    }

    fn handed(&self) -> u64 {
        self.handed
    }

    fn write_file(&mut self, name: &str, bytes: &[u8]) -> Result<(), SinkFailed> {
        let is_repaired = self.repaired.is_some();
        match write(
            self.rt,
            &self.folder,
            is_repaired,
            self.is_locked,
            &mut self.names,
            name,
            bytes,
        ) {
            Ok(()) => {
                self.handed += 1;
                Ok(())
            }
            Err(error) => {
                self.failed = failed_file(self.rt.alloc(), &self.folder, name, error);
                self.failures += 1;
                Err(SinkFailed)
            }
        }
    }
}

impl<'a, R: LockFiles + AllocGlobal + Clone + Drop> OutputFolder for FolderSink<'a, R> {
    fn open(&mut self, folder: &str, in_use: bool) -> Result<(), AllocError> {
        self.folder = Some(String::from_str(self.rt.alloc(), folder)?);
        self.in_use = in_use;
        Ok(())
    }

    fn repair<T: Teller>(&mut self, teller: &T) -> Result<Repair, SinkFailed> {
        match self.repair_opened(teller) {
            Ok(found) => {
                let Found {
                    repaired,
                    is_locked,
                    marks,
                } = found;
                self.repaired = Some(repaired);
                self.is_locked = is_locked;
                self.marks = marks;
                Ok(repaired)
            }
            Err(refused) => {
                self.failed = failed_step(self.rt.alloc(), &self.folder, refused);
                Err(SinkFailed)
            }
        }
    }

    fn commit(&mut self) -> Result<(), SinkFailed> {
        match self.commit_written() {
            Ok(()) => {
                self.is_committed = true;
                Ok(())
            }
            Err(refused) => {
                self.failed = failed_step(self.rt.alloc(), &self.folder, refused);
                Err(SinkFailed)
            }
        }
    }

    fn close(&mut self) -> Result<(), SinkFailed> {
        match self.close_committed() {
            Ok(unsynced) => {
                self.failed = match unsynced {
                    Some(error) => failed_file(self.rt.alloc(), &self.folder, JOURNAL, error),
                    None => None,
                };
                self.is_closed = true;
                Ok(())
            }
            Err(refused) => {
                self.failed = failed_step(self.rt.alloc(), &self.folder, refused);
                Err(SinkFailed)
            }
        }
    }

    fn last_failed(&mut self) -> Option<FailedFile> {
        self.failed.take()
    }
}
