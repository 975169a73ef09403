//! Why a run was refused, looked for once it was.
ghost use Rattle.std.specs.Prelude.{◌≡◌};

use crate::requests::Request;
use crate::skipping::read_others;
use av_commands::tables::read_height;
use av_folders::LockFiles;
use av_reports::device::read_file;
use av_reports::edit_trouble::{EditTrouble, edit_cause};
use av_reports::failure::{Failure, Reason};
use av_reports::manner::{Manner, Progress};
use av_survey::{Finding, survey};
use av_types::{Fault, MOST_TICKS, MOST_WORKERS};
use av_words::STANDARD_INPUT;
use std::io::{self, Input};
use std::rt::Files;

/// The count that is out of its limits, where it is not that of the files.
fn count_cause(request: Request<'_>) -> Option<Reason> {
    if request.workers < 1 || MOST_WORKERS < request.workers {
        Some(Reason::Workers(request.workers))
    } else if request.ticks > MOST_TICKS {
        Some(Reason::Ticks(request.ticks))
    } else {
        None
    }
}

/// The line of the edits that is refused, where the fault is of one.
fn edits_cause<R: Files + AllocGlobal>(
    rt: &R,
    request: Request<'_>,
    fault: &Fault,
) -> Option<Reason> {
    let (line, cause) = edit_cause(fault, request.ticks)?;
    let path = request.edits?;
    if path == STANDARD_INPUT {
        let trouble = EditTrouble::new(rt.alloc(), "standard input", None, line, cause).ok()?;
        return Some(Reason::Edit(trouble));
    }
    let text = read_file(rt, path).ok()?;
    let trouble = EditTrouble::new(rt.alloc(), path, Some(text.as_slice()), line, cause).ok()?;
    Some(Reason::Edit(trouble))
}

/// What is wrong with the table.
fn table_cause<R: Files + Input + AllocGlobal>(rt: &R, request: Request<'_>) -> Option<Reason> {
    let table = request.table?;
    let text = read_file(rt, table).ok()?;
    Reason::of_table(rt.alloc(), table, text.as_slice())
}

/// The first finding with a fault of that number.
fn first_with(found: &[Finding], number: u8) -> Option<Reason> {
    for finding in found {
        if finding.fault.number() == number {
            return Some(Reason::Chunk {
                region: finding.region,
                chunk: finding.chunk,
            });
        }
    }
    None
}

/// The first file or chunk with a fault, where one has it by itself.
fn chunk_cause<R: LockFiles + Input + Eprint + AllocGlobal + Clone + Drop>(
    rt: &R,
    request: Request<'_>,
    fault: &Fault,
) -> Option<Reason> {
    let manner = Manner {
        progress: Progress::Silent,
        explains: false,
    };
    let height = read_height(rt, request.table).ok()?;
    let files = read_others(rt, request.input, request.skip, manner, &mut io::sink()).ok()?;
    let found = survey(rt.alloc(), files, height).ok()?;
    first_with(found.as_slice(), fault.number())
}

/// The failure of a run with a fault. Its reason is looked for where it is asked for, and what needs the table only where that can be
/// read again.
pub fn failure_of_run<R: LockFiles + Input + Eprint + AllocGlobal + Clone + Drop>(
    rt: &R,
    request: Request<'_>,
    fault: Fault,
    explains: bool,
) -> Failure
    ensures { result.fault ≡ fault }
{
    let reason = match &fault {
        _ if !explains => None,
        Fault::BadCount => count_cause(request),
        Fault::ChunkTooLarge(chunk) => Some(Reason::TooLarge(*chunk)),
        Fault::BadEdit(_) | Fault::EditTick(_) | Fault::EditOutside(_) => {
            edits_cause(rt, request, &fault)
        }
        _ if request.table == Some(STANDARD_INPUT) => None,
        Fault::BadTable => table_cause(rt, request),
        Fault::OutOfMemory | Fault::Device(_) => None,
        _ => chunk_cause(rt, request, &fault),
    };
    Failure { fault, reason }
}
