//! Folders in which a run was cut off.
ghost use Rattle.std.specs.Prelude.{IfErr, OnOk};
ghost use Rattle.std.specs.Io.KnownBytes.{Appends};
ghost use Rattle.av_folders.specs.Folders.{IsFolderFault};
ghost use Rattle.av_folders.specs.Repairs.{removed_text};

use crate::holding::{Hold, LockFiles, try_hold, unlocked};
use crate::session::look_for_game;
use crate::system_folder::{RefusedStep, SystemFolder, file_told};
use av_exchange::{Folder, JOURNAL, is_beside, repair};
use av_reports::device::device_fault;
use av_reports::failure::Failure;
use av_sink::{Repair, Teller};
use av_types::Fault;
use std::alloc::{AllocError, Global};
use std::io::{self, Write};
use std::path::Path;
use std::rt::Files;

/// What a folder has that an exchange made.
#[derive(Clone, Copy)]
struct Traces {
    /// Whether there is anything.
    any: bool,
    /// Whether there is a journal.
    journal: bool,
    /// Whether there is anything but the journal, as new files that have no names yet.
    others: bool,
}

/// What a folder has by its files' names.
fn traces_in(alloc: Global, names: &[String]) -> Result<Traces, AllocError> {
    let mut found = Traces {
        any: false,
        journal: false,
        others: false,
    };
    for name in names {
        let is_journal = name.as_str() == JOURNAL;
        let is_other = is_beside(alloc, name.as_str())?;
        found.any |= is_journal || is_other;
        found.journal |= is_journal;
        found.others |= is_other;
    }
    Ok(found)
}

/// What a folder has. One that can't be listed shows nothing.
fn traces_of<R: Files + AllocGlobal + Clone + Drop>(
    rt: &R,
    path: &str,
) -> Result<Traces, AllocError> {
    let folder = SystemFolder::new(rt, String::from_str(rt.alloc(), path)?);
    match folder.names(rt.alloc()) {
        Ok(names) => traces_in(rt.alloc(), names.as_slice()),
        Err(_) => traces_in(rt.alloc(), &[]),
    }
}

/// What became of a folder in which a run was cut off.
#[derive(Drop)]
enum Tidied {
    /// Nothing was there, or another process works on it, or nothing can be written.
    AsItWas,
    Repaired(Repair),
    /// Its file system gives no lock, for this cause, so that another process may work on it, and all stays.
    Unlocked(io::Error),
}

/// That of a folder whose journal can't be done with.
fn undone<R: Files + AllocGlobal>(rt: &R, path: &str, name: &str, refused: RefusedStep) -> Failure
    ensures { IsFolderFault name.now result.fault }
{
    let RefusedStep { name: file, error } = refused;
    match Path::new(path).join(rt.alloc(), file_told(&file)) {
        Ok(file) => Failure::of_device(rt.alloc(), error, name, file.as_str()),
        Err(want) => Failure::from(want),
    }
}

/// Lets no file take its name in a world that the game has open: what it wrote there afterwards would be lost.
fn wait_for_game<R: Files + AllocGlobal>(rt: &R, path: &str, name: &str) -> Result<(), Failure>
    ensures { IfErr result (λ e. IsFolderFault name.now e.fault) }
{
    // The system's error, in which this is told, holds 80 bytes.
    let help = "stop the game: a run is to be finished first";
    match look_for_game(rt, path, help) {
        Ok(()) => Ok(()),
        Err(failure) if failure.fault == Fault::OutOfMemory => Err(AllocError.into()),
        Err(failure) => {
            let error: io::Error = io::ErrorKind::WouldBlock.into();
            let fault = device_fault(rt.alloc(), &error, name);
            let reason = failure.reason;
            Err(Failure { fault, reason })
        }
    }
}

/// Repairs a folder that this process holds.
fn repair_held<R: LockFiles + Eprint + AllocGlobal + Clone + Drop>(
    rt: &R,
    path: &str,
    name: &str,
    found: Traces,
) -> Result<Repair, Failure>
    ensures { IfErr result (λ e. IsFolderFault name.now e.fault) }
{
    if found.journal && found.others {
        wait_for_game(rt, path, name)?;
    }
    let mut folder = SystemFolder::new(rt, String::from_str(rt.alloc(), path)?);
    let teller = RepairTeller { rt, folder: path };
    match repair(rt.alloc(), &mut folder, &teller) {
        Ok(repaired) => Ok(repaired),
        Err(error) => Err(undone(rt, path, name, folder.refused(error))),
    }
}

/// Repairs a folder that this process holds, by what is there now: before it was held a run may have been cut off. Files that belong to none
/// may stay, as where nothing can be written.
fn tidy_held<R: LockFiles + Eprint + AllocGlobal + Clone + Drop>(
    rt: &R,
    path: &str,
    name: &str,
) -> Result<Tidied, Failure>
    ensures { IfErr result (λ e. IsFolderFault name.now e.fault) }
{
    let found = traces_of(rt, path)?;
    match repair_held(rt, path, name, found) {
        Ok(repaired) => Ok(Tidied::Repaired(repaired)),
        Err(failure) if found.journal => Err(failure),
        Err(_) => Ok(Tidied::AsItWas),
    }
}

/// Leaves a folder as it is that can't be locked. With a journal it is half old and half new, so it is refused.
fn leave<R: Files + AllocGlobal>(
    rt: &R,
    path: &str,
    name: &str,
    found: Traces,
    error: io::Error,
) -> Result<Tidied, Failure>
    ensures { IfErr result (λ e. IsFolderFault name.now e.fault) }
{
    if found.journal {
        return Err(undone(rt, path, name, unlocked(rt.alloc(), &error).into()));
    }
    Ok(Tidied::Unlocked(error))
}

/// Repairs a folder where a run was cut off there. Nothing is done about one that another process holds, which works on it, nor where no
/// process can hold it.
fn tidy_found<R: LockFiles + Eprint + AllocGlobal + Clone + Drop>(
    rt: &R,
    path: &str,
    name: &str,
) -> Result<Tidied, Failure>
    ensures { IfErr result (λ e. IsFolderFault name.now e.fault) }
{
    let found = traces_of(rt, path)?;
    if !found.any {
        return Ok(Tidied::AsItWas);
    }
    match try_hold(rt, path) {
        Ok(Hold::Held(_held)) => tidy_held(rt, path, name),
        Ok(Hold::Busy) => Ok(Tidied::AsItWas),
        Ok(Hold::Unlocked(error)) => leave(rt, path, name, found, error),
        Err(error) if found.journal => Err(undone(rt, path, name, error.into())),
        Err(_) => Ok(Tidied::AsItWas),
    }
}

fn write_removed<E: Write>(err: &mut E, folder: &str, files: usize) -> io::Result<()>
    ensures { OnOk result (Appends (E.contents err.old) (E.contents err.new)
        (removed_text folder.now files)) }
{
    writeln!(
        err,
        "{folder}: {files} files that a run left behind when it was cut off are taken away"
    )
}

/// Says how many files are taken away that a run left behind, where there were some, as well as that can be written.
pub fn note_removed<E: Write>(err: &mut E, folder: &str, repaired: Repair) {
    if repaired.removed > 0 {
        let _ = write_removed(err, folder, repaired.removed);
    }
}

/// Says why what a run left behind stays, as well as that can be written.
fn note_unlocked<E: Write>(err: &mut E, folder: &str, error: &io::Error) {
    let _ = writeln!(
        err,
        "{folder}: files that a run left behind stay: the folder can't be locked: {error}"
    );
}

/// Tells on standard error that a run of a folder that was cut off is finished.
#[derive(Drop)]
pub struct RepairTeller<'a, R> {
    pub rt: &'a R,
    pub folder: &'a str,
}

impl<'a, R: Eprint> Teller for RepairTeller<'a, R> {
    fn finished(&self, files: usize) {
        let folder = self.folder;
        let _ = eprintln!(self.rt;
            "{folder}: a run that was cut off is finished: {files} files took their places"
        );
    }
}

/// Repairs a folder that is to be read, where a run was cut off there and no other process holds it, and says so on standard error, or why not.
///
/// # Errors
/// `Device` with the name that is given for the folder in faults, where a journal stands that can't be done with, as where the game has
/// the world open, or where the folder can't be locked; and want of memory.
pub fn tidy<R: LockFiles + Eprint + AllocGlobal + Clone + Drop, E: Write>(
    rt: &R,
    folder: &str,
    name: &str,
    err: &mut E,
) -> Result<(), Failure>
    ensures { IfErr result (λ e. IsFolderFault name.now e.fault) }
{
    match tidy_found(rt, folder, name)? {
        Tidied::AsItWas => {}
        Tidied::Repaired(repaired) => note_removed(err, folder, repaired),
        Tidied::Unlocked(error) => note_unlocked(err, folder, &error),
    }
    Ok(())
}
