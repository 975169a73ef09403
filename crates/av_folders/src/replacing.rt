//! A folder in which files are to be replaced.
use crate::holding::unlocked;
use crate::region_marks::{RegionMarks, Watched};
use crate::system_folder::{RefusedStep, SystemFolder};
use av_exchange::{Folder, JOURNAL, TRIAL, commit, is_beside, sweep, unstage};
use av_sink::Repair;
use std::alloc::Global;
use std::io::{self, ErrorKind};
use std::rt::Files;

/// The folder of a sink, which was opened.
pub(crate) fn opened<'a, R: Files + AllocGlobal + Clone + Drop>(
    rt: &'a R,
    folder: &Option<String>,
) -> io::Result<SystemFolder<'a, R>> {
    match folder {
        Some(folder) => Ok(SystemFolder::new(rt, folder.clone()?)),
        None => Err(ErrorKind::NotFound.into()),
    }
}

/// The same, in which these files are to be replaced.
pub(crate) fn opened_to_replace<'s, R: Files + AllocGlobal + Clone + Drop>(
    rt: &'s R,
    folder: &Option<String>,
    watched: Watched<'s>,
) -> io::Result<SystemFolder<'s, R>> {
    let mut folder = opened(rt, folder)?;
    folder.watched = Some(watched);
    Ok(folder)
}

/// Takes away the new files of a run that fails, as well as that can be done: all that is left of runs, where this process alone works on the
/// folder, and else its own.
pub(crate) fn clear<R: Files + AllocGlobal + Clone + Drop>(
    alloc: Global,
    folder: &mut SystemFolder<'_, R>,
    names: &[String],
    is_locked: bool,
) {
    if is_locked {
        let _ = sweep(alloc, folder);
        return;
    }
    for name in names {
        let _ = unstage(alloc, folder, name.as_str());
    }
}

/// Lets files that were written take their names, where those that they replace are what they were. Where they can't begin to they are taken
/// away.
pub(crate) fn commit_or_clear<R: Files + AllocGlobal + Clone + Drop>(
    alloc: Global,
    folder: &mut SystemFolder<'_, R>,
    marks: &RegionMarks,
    names: &[String],
    is_locked: bool,
) -> Result<(), RefusedStep> {
    if let Err(refused) = marks.check(alloc, folder, names) {
        clear(alloc, folder, names, is_locked);
        return Err(refused);
    }
    let Err(not) = commit(alloc, folder, names) else {
        return Ok(());
    };
    let begun = not.begun;
    let refused = folder.refused(not.error);
    if !begun {
        clear(alloc, folder, names, is_locked);
    }
    Err(refused)
}

/// A file that a run left, or a journal, where there is one. What a folder was tried by is none.
fn first_left<R: Files + AllocGlobal + Clone + Drop>(
    alloc: Global,
    folder: &SystemFolder<'_, R>,
) -> io::Result<Option<String>> {
    for name in folder.names(alloc)? {
        let is_left = name.as_str() == JOURNAL || is_beside(alloc, name.as_str())?;
        if is_left && name.as_str() != TRIAL {
            return Ok(Some(name));
        }
    }
    Ok(None)
}

/// Refuses a folder that can't be locked, where a run left something: another process may work on it.
pub(crate) fn refuse_left<R: Files + AllocGlobal + Clone + Drop>(
    alloc: Global,
    folder: &SystemFolder<'_, R>,
    error: &io::Error,
) -> Result<Repair, RefusedStep> {
    match first_left(alloc, folder)? {
        None => Ok(Repair {
            finished: None,
            removed: 0,
        }),
        name => Err(RefusedStep {
            name,
            error: unlocked(alloc, error),
        }),
    }
}
