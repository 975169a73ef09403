//! Worlds that the game has open.
ghost use Rattle.std.specs.Prelude.{IfErr};
ghost use Rattle.av_folders.specs.Folders.{IsOutputFault, IsSessionFault};

use crate::holding::{HeldFolder, LockFiles, hold_folder};
use crate::locks::holder_of;
use crate::system_folder::RefusedStep;
use av_reports::failure::{Failure, Reason};
use std::alloc::AllocError;
use std::fs;
use std::io::{self, ErrorKind};
use std::path::{Path, PathBuf};
use std::rt::Files;

/// The file of a world that the game locks while it has the world open.
const SESSION: &str = "session.lock";

/// What is said of a file that the game holds, where it does, and of what helps.
fn held_text<R: Files + AllocGlobal>(rt: &R, session: Path<'_>, help: &str) -> Option<String> {
    let found = fs::metadata(rt, session).ok()?;
    let holder = holder_of(rt, &found)?;
    format!(in rt.alloc(); "{holder} has the world open: {help}").ok()
}

/// Whether nobody holds the `session.lock` of a folder, as far as the system tells.
fn look_in<R: Files + AllocGlobal>(rt: &R, folder: Path<'_>, help: &str) -> Result<(), Failure>
    ensures { IfErr result (λ e. IsSessionFault e.fault) }
{
    let session = folder.join(rt.alloc(), SESSION)?;
    match held_text(rt, session.as_path(), help) {
        None => Ok(()),
        Some(text) => {
            let error = io::Error::new(ErrorKind::WouldBlock, text.as_str());
            let path = session.as_str();
            Err(Failure::of_device(rt.alloc(), error, path, path))
        }
    }
}

/// Whether nobody holds the `session.lock` of a folder above a path.
fn look_above<R: Files + AllocGlobal>(rt: &R, path: Path<'_>, help: &str) -> Result<(), Failure>
    ensures { IfErr result (λ e. IsSessionFault e.fault) }
{
    for above in path.ancestors().skip(1) {
        look_in(rt, above, help)?;
    }
    Ok(())
}

/// The path of a folder without links, where it can be told.
fn real_path<R: Files + AllocGlobal>(rt: &R, folder: &str) -> Option<PathBuf> {
    fs::canonicalize(rt, folder).ok()
}

/// Whether a path goes down alone, so that what is written before its end lies above it.
fn goes_down(path: &str) -> bool {
    for part in path.as_bytes().split(|byte| *byte == b'/') {
        if part == b"..".as_slice() || part == b".".as_slice() {
            return false;
        }
    }
    true
}

/// Looks whether the game has the world open that a folder of region files is of: of one whose folder lies above, since a dimension's can
/// lie deep in its world, as `dimensions/PACK/NAME/region`. A world's folder may be a link to another disk, so it is looked above the path
/// that was given and above that to which its links lead. What is told says what helps.
pub(crate) fn look_for_game<R: Files + AllocGlobal>(
    rt: &R,
    folder: &str,
    help: &str,
) -> Result<(), Failure>
    ensures { IfErr result (λ e. IsSessionFault e.fault) }
{
    if goes_down(folder) {
        look_above(rt, Path::new(folder), help)?;
    }
    match real_path(rt, folder) {
        Some(real) => look_above(rt, real.as_path(), help),
        None => Ok(()),
    }
}

/// What helps where the game has a run's world open.
const ADVICE: &str = "stop the game, or call again with --in-use";

/// Looks whether the game has the world open that a folder is of. What is told names the folder, and not `session.lock`.
pub(crate) fn ask_game<R: Files + AllocGlobal>(rt: &R, folder: &str) -> Result<(), RefusedStep> {
    let Err(failure) = look_for_game(rt, folder, ADVICE) else {
        return Ok(());
    };
    let error = match failure.reason {
        Some(Reason::Device { error, .. }) => error,
        _ => AllocError.into(),
    };
    let name = String::from_str(rt.alloc(), "").ok();
    Err(RefusedStep { name, error })
}

/// Holds a folder for a run, as `hold_folder` does, and looks whether the game has the world open that it is of, unless that is no matter:
/// whether a process has locked `session.lock` in a folder above it. What the system does not list is not seen.
///
/// # Errors
/// Those of `hold_folder`; `Device` with the path of `session.lock`, where that is locked; and want of memory.
pub fn hold_output<R: LockFiles + AllocGlobal>(
    rt: &R,
    folder: &str,
    in_use: bool,
) -> Result<HeldFolder<R>, Failure>
    ensures { IfErr result (λ e. IsOutputFault folder.now in_use e.fault) }
{
    let held = hold_folder(rt, folder)?;
    if in_use {
        return Ok(held);
    }
    look_for_game(rt, folder, ADVICE)?;
    Ok(held)
}
