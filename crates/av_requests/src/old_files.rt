//! The files of a folder beside those that would take their names.
ghost use Rattle.std.specs.Prelude.{IfErr, IfOk, List, Option, ℕ};
ghost use Rattle.av_changes.specs.Changes.{AreChangesOf};
ghost use Rattle.av_folders.specs.Folders.{IsFolderFault};
ghost use Rattle.av_requests.specs.Olds.{AreUnreadOlds, IsUnreadOld};

use av_changes::{Change, add_change};
use av_folders::reading::read_regular;
use av_region_files::{RegionFile, region_name};
use av_reports::failure::Failure;
use av_types::RegionPos;
use std::alloc::{AllocError, Global};
use std::fs;
use std::io::{self, ErrorKind};
use std::path::Path;
use std::rt::Files;

/// The path of a region's file in a folder.
fn path_of(alloc: Global, folder: &str, region: RegionPos) -> Result<String, AllocError> {
    let name = region_name(alloc, region)?;
    Ok(Path::new(folder).join(alloc, name.as_str())?.into_string())
}

/// The bytes of a file, where it is there.
fn read_present<R: Files + AllocGlobal>(rt: &R, path: &str) -> io::Result<Option<Vec<u8>>> {
    match read_regular(rt, path) {
        Ok(bytes) => Ok(Some(bytes)),
        Err(error) if error.kind() == ErrorKind::NotFound => Ok(None),
        Err(error) => Err(error),
    }
}

/// The bytes of a region's file of a folder, where it is there.
fn read_old<R: Files + AllocGlobal>(
    rt: &R,
    folder: &str,
    region: RegionPos,
) -> Result<Option<Vec<u8>>, Failure>
    ensures { IfErr result (λ e. IsUnreadOld region e.fault) }
{
    let path = path_of(rt.alloc(), folder, region)?;
    match read_present(rt, path.as_str()) {
        Ok(bytes) => Ok(bytes),
        Err(error) => {
            let name = region_name(rt.alloc(), region)?;
            Err(Failure::of_device(rt.alloc(), error, name.as_str(), path.as_str()))
        }
    }
}

/// What files would change in a folder, in their order.
///
/// # Errors
/// `Device` with the name of the first file that is there and can't be read, without the folder's; and want of memory.
pub fn changes_in<R: Files + AllocGlobal>(
    rt: &R,
    folder: &str,
    files: &[RegionFile],
) -> Result<Vec<Change>, Failure>
    ensures ok { IfOk result (λ changes. (olds : List (Option (List ℕ)))
        × AreChangesOf files.now olds changes.items) }
    ensures err { IfErr result (λ e. AreUnreadOlds files.now e.fault) }
{
    let mut changes = Vec::new(rt.alloc());
    for file in files {
        let old = read_old(rt, folder, file.pos)?;
        add_change(rt.alloc(), &mut changes, file, old.as_deref())?;
    }
    Ok(changes)
}

/// Looks whether a folder is there. The error is `Device` with its name, or want of memory.
pub fn look_for<R: Files + AllocGlobal>(rt: &R, folder: &str) -> Result<(), Failure>
    ensures { IfErr result (λ e. IsFolderFault folder.now e.fault) }
{
    let error = match fs::metadata(rt, folder) {
        Ok(found) if found.is_dir() => return Ok(()),
        Ok(_) => ErrorKind::NotADirectory.into(),
        Err(error) => error,
    };
    Err(Failure::of_device(rt.alloc(), error, folder, folder))
}
