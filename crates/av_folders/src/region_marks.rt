//! By what a folder's region files were known when it was opened.
use crate::reading::{Listed, list_folder};
use crate::session::ask_game;
use crate::system_folder::{RefusedStep, SystemFolder};
use av_exchange::Folder;
use std::alloc::Global;
use std::collections::BTreeMap;
use std::io::{self, ErrorKind};
use std::rt::Files;

/// What is said of a file that is not what it was.
const CHANGED: &str = "it was changed by another program while the run went on";

/// The marks of the region files of a folder, by their names.
#[derive(Drop)]
pub(crate) struct RegionMarks {
    marks: BTreeMap<String, String>,
}

impl RegionMarks {
    /// Those of no file.
    pub(crate) fn new(alloc: Global) -> RegionMarks {
        RegionMarks {
            marks: BTreeMap::new(alloc),
        }
    }

    /// Those of the files that are there. What is no file has none.
    pub(crate) fn of<R: Files + AllocGlobal + Clone + Drop>(
        rt: &R,
        folder: &SystemFolder<'_, R>,
    ) -> io::Result<RegionMarks> {
        let mut marks = BTreeMap::new(rt.alloc());
        for listed in list_folder(rt, folder.own_path())? {
            let Listed { name, region: _ } = listed;
            match folder.mark(rt.alloc(), name.as_str()) {
                Ok(Some(mark)) => {
                    marks.insert(name, mark)?;
                }
                Err(error) if error.kind() == ErrorKind::OutOfMemory => return Err(error),
                _ => {}
            }
        }
        Ok(RegionMarks { marks })
    }

    /// Whether what has a name now is what had it then.
    fn is_kept<R: Files + AllocGlobal + Clone + Drop>(
        &self,
        alloc: Global,
        folder: &SystemFolder<'_, R>,
        name: &String,
    ) -> io::Result<bool> {
        let now = folder.mark(alloc, name.as_str())?;
        Ok(now.as_ref() == self.marks.get(name))
    }

    /// Refuses to replace a file that was written, came or went since.
    pub(crate) fn check<R: Files + AllocGlobal + Clone + Drop>(
        &self,
        alloc: Global,
        folder: &SystemFolder<'_, R>,
        names: &[String],
    ) -> Result<(), RefusedStep> {
        for name in names {
            if !self.is_kept(alloc, folder, name)? {
                return Err(RefusedStep {
                    name: name.clone().ok(),
                    error: io::Error::new(ErrorKind::InvalidData, CHANGED),
                });
            }
        }
        Ok(())
    }
}

/// What is to be as it was when a folder was opened, just before files of these names are replaced there.
#[derive(Clone, Copy)]
pub(crate) struct Watched<'a> {
    pub(crate) marks: &'a RegionMarks,
    pub(crate) names: &'a [String],
    /// Whether the game may have the world open.
    pub(crate) in_use: bool,
}

impl<'a> Watched<'a> {
    /// Refuses to replace the files where one was written, came or went since, or where the game has the world open that they are of.
    pub(crate) fn look<R: Files + AllocGlobal + Clone + Drop>(
        &self,
        rt: &R,
        folder: &SystemFolder<'_, R>,
    ) -> Result<(), RefusedStep> {
        if !self.in_use {
            ask_game(rt, folder.own_path())?;
        }
        self.marks.check(rt.alloc(), folder, self.names)
    }
}
