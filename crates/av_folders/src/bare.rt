//! Folders without region files.
ghost use Rattle.std.specs.Prelude.{None, OnOk, Some, option_map};
ghost use Rattle.std.specs.Io.KnownBytes.{Appends};
ghost use Rattle.av_reports.specs.Output.{line};
ghost use Rattle.av_folders.specs.Bare.{bare_text};

use std::io::Write;
use std::path::{Path, PathBuf};
use std::rt::Files;
use std::{fs, io};

fn write_none<E: Write>(err: &mut E, folder: &str) -> io::Result<()>
    ensures { OnOk result (Appends (E.contents err.old) (E.contents err.new)
        (line (bare_text folder.now None))) }
{
    writeln!(err, "{folder} has no region files")
}

fn write_inner<E: Write>(err: &mut E, folder: &str, inner: &str) -> io::Result<()>
    ensures { OnOk result (Appends (E.contents err.old) (E.contents err.new)
        (line (bare_text folder.now (Some inner.now)))) }
{
    writeln!(err, "{folder} has no region files, but {inner} is there")
}

/// Writes that a folder has no region files, and the folder in it that may have been meant.
pub fn write_bare<E: Write>(err: &mut E, folder: &str, inner: Option<&str>) -> io::Result<()>
    ensures { OnOk result (Appends (E.contents err.old) (E.contents err.new)
        (line (bare_text folder.now (option_map (λ t. t.now) inner.entry)))) }
{
    match inner {
        None => write_none(err, folder),
        Some(inner) => write_inner(err, folder, inner),
    }
}

/// The folder `region` in a folder, as that of a world has one, where it is there.
fn inner_folder<R: Files + AllocGlobal>(rt: &R, folder: &str) -> Option<PathBuf> {
    let inner = Path::new(folder).join(rt.alloc(), "region").ok()?;
    let found = fs::metadata(rt, inner.as_path()).ok()?;
    if found.is_dir() { Some(inner) } else { None }
}

/// Says that a folder has no region files, as well as that can be written.
pub(crate) fn note_bare<R: Files + AllocGlobal, E: Write>(rt: &R, folder: &str, err: &mut E) {
    let _ = match inner_folder(rt, folder) {
        Some(inner) => write_bare(err, folder, Some(inner.as_str())),
        None => write_bare(err, folder, None),
    };
}
