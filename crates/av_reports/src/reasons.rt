//! What is said of a failure behind its fault's line: where, why, and what can be done.
ghost use Rattle.std.specs.Prelude.{◌≡◌, ◌++◌, OnOk, codes, map, string_bytes};
ghost use Rattle.std.specs.Io.KnownBytes.{Appends};
ghost use Rattle.av_reports.specs.Output.{line};
ghost use Rattle.av_reports.specs.Reasons.{TellsFailure, reason_lines};

use crate::failure::{Failure, Reason};
use crate::output::{FAULT, write_fault};
use crate::table_trouble::Trouble;
use av_types::{ChunkPos, Fault, RegionPos};
use std::alloc::{AllocError, Global};
use std::io::{self, ErrorKind, Write};

/// What can be done where the system answers an error of this kind.
fn device_advice(kind: ErrorKind) -> Option<&'static str> {
    match kind {
        ErrorKind::NotFound => Some(
            "nothing has that name: is it spelled right, and does each link on the way lead to something?",
        ),
        ErrorKind::PermissionDenied => Some(
            "`ls -ld` shows who may: call it as that user, or let this one in by chmod or chown",
        ),
        ErrorKind::StorageFull | ErrorKind::QuotaExceeded => {
            Some("make room there, of which `df` says how much there is, and call it again")
        }
        ErrorKind::ReadOnlyFilesystem => {
            Some("nothing can be written there: take another folder, or mount it for writing")
        }
        ErrorKind::IsADirectory => Some("a folder has that name, where a file is wanted"),
        ErrorKind::NotADirectory => Some("a file has that name, where a folder is wanted"),
        _ => None,
    }
}

/// Why a file or folder failed, and what can be done.
fn device_lines(alloc: Global, path: &str, error: &io::Error) -> Result<Vec<String>, AllocError> {
    let mut lines = Vec::new(alloc);
    lines.push(format!(in alloc; "{path}: {error}")?)?;
    if let Some(advice) = device_advice(error.kind()) {
        lines.push(String::from_str(alloc, advice)?)?;
    }
    Ok(lines)
}

/// What is wrong with a table.
fn table_lines(alloc: Global, path: &str, trouble: &Trouble) -> Result<Vec<String>, AllocError> {
    let text = trouble.text.as_str();
    let where_and_why = match trouble.line {
        Some(line) => format!(in alloc; "{path}, line {line}: {text}")?,
        None => format!(in alloc; "{path}: {text}")?,
    };
    let mut lines = Vec::new(alloc);
    lines.push(where_and_why)?;
    Ok(lines)
}

/// Which file or chunk has a fault, and how the others are found.
fn chunk_lines(
    alloc: Global,
    region: RegionPos,
    chunk: Option<ChunkPos>,
) -> Result<Vec<String>, AllocError> {
    let RegionPos { x, z } = region;
    let whereabouts = match chunk {
        Some(ChunkPos { x: cx, z: cz }) => format!(in alloc; "r.{x}.{z}.mca, chunk {cx} {cz}")?,
        None => format!(in alloc; "r.{x}.{z}.mca")?,
    };
    let mut lines = Vec::new(alloc);
    lines.push(whereabouts)?;
    lines.push(String::from_str(
        alloc,
        "`anvilwater check --in DIR` lists each file and chunk that has a fault",
    )?)?;
    Ok(lines)
}

/// Which chunk is too large to be written, and how the others are run.
fn too_large_lines(alloc: Global, chunk: ChunkPos) -> Result<Vec<String>, AllocError> {
    let ChunkPos { x: cx, z: cz } = chunk;
    let RegionPos { x, z } = chunk.region();
    let mut lines = Vec::new(alloc);
    lines.push(format!(in alloc;
        "r.{x}.{z}.mca, chunk {cx} {cz}: with its light it has more than 1044475 bytes"
    )?)?;
    lines.push(format!(in alloc;
        "with --skip r.{x}.{z}.mca its file stays as it is and counts as not there"
    )?)?;
    Ok(lines)
}

/// Which count is out of its limits.
fn count_line(alloc: Global, reason: &Option<Reason>) -> Result<String, AllocError> {
    match reason {
        Some(Reason::Workers(workers)) => {
            format!(in alloc; "--workers is {workers}, and 1 to 8 can work")
        }
        Some(Reason::Ticks(ticks)) => {
            format!(in alloc; "--ticks is {ticks}, and 1000000 at most are run")
        }
        _ => String::from_str(
            alloc,
            "there are more region files than 1024: take a part of them at a time",
        ),
    }
}

/// The one line on a count.
fn count_lines(alloc: Global, reason: &Option<Reason>) -> Result<Vec<String>, AllocError> {
    let mut lines = Vec::new(alloc);
    lines.push(count_line(alloc, reason)?)?;
    Ok(lines)
}

/// What is said of a failure, line by line. Nothing, where memory runs out.
fn lines_of(alloc: Global, failure: &Failure) -> Vec<String> {
    let lines = match &failure.reason {
        Some(Reason::Device { path, error }) => device_lines(alloc, path.as_str(), error),
        Some(Reason::Table { path, trouble }) => table_lines(alloc, path.as_str(), trouble),
        Some(Reason::Chunk { region, chunk }) => chunk_lines(alloc, *region, *chunk),
        Some(Reason::Edit(trouble)) => trouble.lines(alloc),
        Some(Reason::TooLarge(chunk)) => too_large_lines(alloc, *chunk),
        reason if failure.fault == Fault::BadCount => count_lines(alloc, reason),
        _ => Ok(Vec::new(alloc)),
    };
    match lines {
        Ok(lines) => lines,
        Err(_) => Vec::new(alloc),
    }
}

fn write_reason<E: Write>(err: &mut E, reason: &str) -> io::Result<()>
    ensures { OnOk result (Appends (E.contents err.old) (E.contents err.new)
        (line (codes "  " ++ reason.now))) }
{
    writeln!(err, "  {reason}")
}

/// Writes lines that two spaces begin.
pub fn write_reasons<E: Write>(err: &mut E, reasons: &[String]) -> io::Result<()>
    ensures { OnOk result (Appends (E.contents err.old) (E.contents err.new)
        (reason_lines (map string_bytes reasons.now))) }
{
    for reason in reasons {
        write_reason(err, reason.as_str())?;
    }
    Ok(())
}

/// Writes a fault's line, and behind it, where that is asked for, what is known of the failure.
pub fn write_failure<E: Write>(
    alloc: Global,
    err: &mut E,
    failure: &Failure,
    explains: bool,
) -> io::Result<()>
    ensures { OnOk result (TellsFailure explains failure.now.fault (E.contents err.old)
        (E.contents err.new)) }
{
    write_fault(err, &failure.fault)?;
    if explains {
        let lines = lines_of(alloc, failure);
        return write_reasons(err, lines.as_slice());
    }
    Ok(())
}

/// The same, as well as it can be written. The answer is the status.
pub fn report_failure<E: Write>(alloc: Global, err: &mut E, failure: &Failure, explains: bool) -> u8
    ensures { result ≡ FAULT }
{
    let _ = write_failure(alloc, err, failure, explains);
    FAULT
}
