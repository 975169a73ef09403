//! Region files that a run leaves out.
ghost use Rattle.std.specs.Prelude.{◌≡◌, ◌++◌, [], ◌∷◌, Contains, IfErr, IfNone, IfOk, IfSome, List, OnOk, map, string_bytes};
ghost use Rattle.std.specs.List.{All};
ghost use Rattle.std.specs.Io.KnownBytes.{Appends};
ghost use Rattle.std.specs.Str.{bytes_eq};
ghost use Rattle.av_region_files.specs.declared.files.RegionFile.{RegionFile};
ghost use Rattle.av_folders.specs.Folders.{IsUnreadFolder};
ghost use Rattle.av_requests.specs.Skipping.{AreOthers, IsFirstNoSkip, IsNoSkip, IsSkipped, is_among, names_of, others, skipped_text};

use av_folders::{LockFiles, read_folder, read_readable};
use av_region_files::{RegionFile, region_name};
use av_reports::failure::{Failure, UnreadFile};
use av_reports::manner::Manner;
use av_reports::names::region_of_name;
use av_reports::output::{FAULT, report_fault};
use av_types::Fault;
use std::alloc::{AllocError, Global};
use std::fs;
use std::io::{self, ErrorKind, Write};
use std::path::Path;
use std::rt::Files;

/// Why a file can't be skipped.
#[derive(Debug, Drop)]
pub enum NoSkip<'a> {
    /// Memory ran out.
    Memory,
    /// No region's file has that name.
    Unnamed(&'a str),
    /// The folder has no such file.
    Missing(&'a str),
}

impl<'a> From<AllocError> for NoSkip<'a> {
    ghost use Rattle.std.specs.Prelude.{◌≡◌};
    ghost use Rattle.av_requests.specs.declared.skipping.NoSkip.TheVariants.{Memory};

    ghost from_gives = { λ _ e. e ≡ Memory };

    fn from(_: AllocError) -> NoSkip<'a> {
        NoSkip::Memory
    }
}

/// Whether a file of that name can be skipped: it is a region's, and in the folder. What else is wrong with a folder, its reading tells.
fn judge_skip<'a, R: Files + AllocGlobal>(
    rt: &R,
    folder: &str,
    name: &'a str,
) -> Result<(), NoSkip<'a>>
    ensures ok { OnOk result (IsSkipped name.now) }
    ensures err { IfErr result (IsNoSkip name.entry) }
{
    if region_of_name(rt.alloc(), name)?.is_none() {
        return Err(NoSkip::Unnamed(name));
    }
    let path = Path::new(folder).join(rt.alloc(), name)?;
    match fs::symlink_metadata(rt, path.as_path()) {
        Err(error) if error.kind() == ErrorKind::NotFound => Err(NoSkip::Missing(name)),
        _ => Ok(()),
    }
}

/// Whether the files of these names can be skipped. The first that can't be is answered.
pub fn judge_skips<'a, R: Files + AllocGlobal>(
    rt: &R,
    folder: &str,
    names: &[&'a str],
) -> Result<(), NoSkip<'a>>
    ensures ok { OnOk result (All (λ n. IsSkipped n.now) names.now) }
    ensures err { IfErr result (IsFirstNoSkip names.now) }
{
    for name in names {
        judge_skip(rt, folder, *name)?;
    }
    Ok(())
}

/// Says why a file can't be skipped, as well as that can be written, and answers the status.
pub fn report_skip<E: Write>(err: &mut E, refusal: &NoSkip<'_>) -> u8
    ensures { result ≡ FAULT }
{
    let _ = match refusal {
        NoSkip::Memory => return report_fault(err, &Fault::OutOfMemory),
        NoSkip::Unnamed(name) => writeln!(
            err,
            "--skip {name}: the name of a region's file is r.X.Z.mca"
        ),
        NoSkip::Missing(name) => writeln!(err, "--skip {name}: the folder has no such file"),
    };
    FAULT
}

/// Whether two names are the same.
fn is_same(a: &str, b: &str) -> bool
    ensures { result ≡ bytes_eq a.now b.now }
{
    a == b
}

/// Whether a name is among others.
fn is_among(names: &[&str], name: &str) -> bool
    ensures { result ≡ is_among names.now name.now }
{
    names.iter().any(|other| is_same(*other, name))
}

fn write_skipped<E: Write>(err: &mut E, name: &str) -> io::Result<()>
    ensures { OnOk result (Appends (E.contents err.old) (E.contents err.new)
        (skipped_text name.now)) }
{
    writeln!(
        err,
        "{name} is skipped: it counts as not there and stays as it is"
    )
}

/// Adds a file to those that are kept, or says that it is skipped.
fn keep<E: Write>(
    alloc: Global,
    kept: &mut Vec<RegionFile>,
    file: RegionFile,
    skip: &[&str],
    err: &mut E,
) -> Result<(), AllocError>
    ensures { OnOk result ((before : List RegionFile) → names_of kept.old.items ≡ others skip.now (names_of before)
        → names_of kept.new.items ≡ others skip.now (names_of (before ++ file ∷ []))) }
{
    let name = region_name(alloc, file.pos)?;
    if is_among(skip, name.as_str()) {
        let _ = write_skipped(err, name.as_str());
        return Ok(());
    }
    Ok(kept.push(file)?)
}

/// The files that are not skipped.
fn keep_others<E: Write>(
    alloc: Global,
    files: Vec<RegionFile>,
    skip: &[&str],
    err: &mut E,
) -> Result<Vec<RegionFile>, AllocError>
    ensures { IfOk result (λ kept. names_of kept.items ≡ others skip.now (names_of files.items)) }
{
    let mut kept = Vec::new(alloc);
    for file in files {
        keep(alloc, &mut kept, file, skip, err)?;
    }
    Ok(kept)
}

/// The first file that could not be read and is not skipped.
fn first_unread<E: Write>(unread: Vec<UnreadFile>, skip: &[&str], err: &mut E) -> Option<UnreadFile>
    ensures none { IfNone result (others skip.now (map (λ u. string_bytes u.name) unread.items)
        ≡ []) }
    ensures one { IfSome result (λ u. Contains unread.items u) }
{
    for file in unread {
        if !is_among(skip, file.name.as_str()) {
            return Some(file);
        }
        let _ = write_skipped(err, file.name.as_str());
    }
    None
}

/// The region files of a folder but those that are skipped, where some are.
fn read_unskipped<R: LockFiles + Eprint + AllocGlobal + Clone + Drop, E: Write>(
    rt: &R,
    folder: &str,
    skip: &[&str],
    manner: Manner,
    err: &mut E,
) -> Result<Vec<RegionFile>, Failure>
    ensures read { IfOk result (λ files. AreOthers skip.now files.items) }
    ensures unread { IfErr result (λ e. IsUnreadFolder folder.now e.fault) }
{
    let read = read_readable(rt, folder, manner, err)?;
    match first_unread(read.unread, skip, err) {
        Some(unread) => Err(Failure::from(unread)),
        None => Ok(keep_others(rt.alloc(), read.files, skip, err)?),
    }
}

/// The region files of a folder but those of these names, each of which is said on standard error.
///
/// # Errors
/// `Device` with the folder's name as it was given, where it can't be listed, or with the name of the first file
/// that is not skipped and can't be read, without the folder's; and want of memory.
pub fn read_others<R: LockFiles + Eprint + AllocGlobal + Clone + Drop, E: Write>(
    rt: &R,
    folder: &str,
    skip: &[&str],
    manner: Manner,
    err: &mut E,
) -> Result<Vec<RegionFile>, Failure>
    ensures read { IfOk result (λ files. AreOthers skip.now files.items) }
    ensures unread { IfErr result (λ e. IsUnreadFolder folder.now e.fault) }
{
    if skip.is_empty() {
        return read_folder(rt, folder, manner, err);
    }
    read_unskipped(rt, folder, skip, manner, err)
}
