//! The command `check`: what is wrong with the region files of a folder.
ghost use Rattle.std.specs.Prelude.{◌≤◌, IfErr, IfOk, option_map};
ghost use Rattle.av_commands.specs.Tables.{IsHeightBy};
ghost use Rattle.av_folders.specs.Folders.{IsFolderRead};
ghost use Rattle.av_queries.specs.CheckCommand.{HasChecked, HasSurveyed, IsUnreadCheck};

use av_commands::checking::{Counts, findings, write_counts, write_unread};
use av_commands::tables::read_height;
use av_folders::{FolderFiles, LockFiles, read_readable};
use av_reports::failure::Failure;
use av_reports::manner::{Manner, Progress};
use av_reports::output::{FAULT, REFUSED};
use av_reports::reasons::report_failure;
use av_survey::{Finding, count_chunks, survey};
use av_types::{Fault, Height};
use std::alloc::Global;
use std::io::{Input, Write};

/// What `check` reads: the world's height, by the block table, and then the folder's region files.
fn read_inputs<R: LockFiles + Input + Eprint + AllocGlobal + Clone + Drop, E: Write>(
    rt: &R,
    folder: &str,
    table: Option<&str>,
    manner: Manner,
    err: &mut E,
) -> Result<(Height, FolderFiles), Failure>
    ensures height { IfOk result (λ read. IsHeightBy (option_map (λ t. t.now) table.entry) read.0) }
    ensures folder { IfOk result (λ read. IsFolderRead read.1) }
    ensures unread { IfErr result (λ e. IsUnreadCheck folder.now
        (option_map (λ t. t.now) table.entry) e.fault) }
{
    let height = read_height(rt, table)?;
    Ok((height, read_readable(rt, folder, manner, err)?))
}

/// Says how much was looked at and found, where it is asked how far it is, as well as that can be written.
fn note_counts<E: Write>(
    files: usize,
    chunks: u64,
    surveyed: &Result<Vec<Finding>, Fault>,
    progress: Progress,
    err: &mut E,
) {
    if progress == Progress::Silent {
        return;
    }
    if let Ok(found) = surveyed {
        let findings = found.len();
        let _ = write_counts(
            err,
            Counts {
                files,
                chunks,
                findings,
            },
        );
    }
}

/// Says which files of a folder could not be read, and lists what is wrong with those that were.
fn survey_files<O: Write, E: Write>(
    alloc: Global,
    height: Height,
    read: FolderFiles,
    manner: Manner,
    out: &mut O,
    err: &mut E,
) -> u8
    ensures { HasSurveyed height read (O.contents out.old) (O.contents out.new) result }
{
    let is_whole = read.unread.is_empty();
    let files = read.files.len();
    let chunks = count_chunks(read.files.as_slice());
    let _ = write_unread(alloc, err, read.unread, manner.explains);
    let surveyed = survey(alloc, read.files, height);
    let status = findings(&surveyed, out, err);
    note_counts(files, chunks, &surveyed, manner.progress, err);
    if is_whole { status } else { FAULT }
}

/// Runs `check`.
pub fn run_check<R: LockFiles + Input + Eprint + AllocGlobal + Clone + Drop, O: Write, E: Write>(
    rt: &R,
    folder: &str,
    table: Option<&str>,
    manner: Manner,
    out: &mut O,
    err: &mut E,
) -> u8
    ensures status { result ≤ REFUSED }
    ensures ran { HasChecked (option_map (λ t. t.now) table.entry) (O.contents out.old)
        (O.contents out.new) result }
{
    match read_inputs(rt, folder, table, manner, err) {
        Ok((height, read)) => survey_files(rt.alloc(), height, read, manner, out, err),
        Err(failure) => report_failure(rt.alloc(), err, &failure, manner.explains),
    }
}
