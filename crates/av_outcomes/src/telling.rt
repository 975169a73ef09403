//! What is told of a run, and the program's status.
ghost use Rattle.std.specs.Prelude.{OnOk};
ghost use Rattle.std.specs.Io.KnownBytes.{Appends};
ghost use Rattle.av_reports.specs.Output.{line};
ghost use Rattle.av_outcomes.specs.Telling.{HasCounts, HasReported, HasTold, strict_text, uncovered_text};

use av_answers::{Outcome, Ran};
use av_changes::{Change, WOULD_CHANGE, write_changes};
use av_reports::failure::Failure;
use av_reports::output::{FAULT, report_output};
use av_reports::reasons::report_failure;
use std::alloc::Global;
use std::io::{self, Write};

/// Writes the counts of a run, or why they could not be written, and answers the program's status.
fn write_counts<O: Write, E: Write>(outcome: &Outcome, out: &mut O, err: &mut E) -> u8
    ensures { HasCounts outcome.now.chunks outcome.now.turns (O.contents out.old)
        (O.contents out.new) result }
{
    let chunks = outcome.chunks;
    let turns = outcome.turns;
    match writeln!(out, "chunks {chunks} turns {turns}") {
        Ok(()) => 0,
        Err(error) => report_output(err, &error),
    }
}

/// Writes how many states have no row in the table of a run.
fn write_uncovered<E: Write>(err: &mut E, without_row: u32) -> io::Result<()>
    ensures { OnOk result (Appends (E.contents err.old) (E.contents err.new)
        (line (uncovered_text without_row))) }
{
    writeln!(
        err,
        "{without_row} states have no row in the table and count as full and dark: `anvilwater states` lists them"
    )
}

/// Writes why nothing was run where each state is to have a row.
fn write_strict<E: Write>(err: &mut E, without_row: u32) -> io::Result<()>
    ensures { OnOk result (Appends (E.contents err.old) (E.contents err.new)
        (line (strict_text without_row))) }
{
    writeln!(
        err,
        "{without_row} states have no row in the table, and --strict wants one: `anvilwater states` lists them"
    )
}

/// Says how many states have no row, where some have none, as well as that can be written.
fn note_uncovered<E: Write>(err: &mut E, without_row: u32) {
    if without_row > 0 {
        let _ = write_uncovered(err, without_row);
    }
}

/// Writes `chunks C turns T`, how many chunks were loaded and how many entries taken, and on standard error how many states have no
/// row; or why there was no run. The answer is the program's status: 0; 1 where nothing was run, and where the line could not be
/// written.
pub fn report<O: Write, E: Write>(
    alloc: Global,
    ran: &Result<Ran, Failure>,
    explains: bool,
    out: &mut O,
    err: &mut E,
) -> u8
    ensures { HasReported ran.now (O.contents out.old) (O.contents out.new) result }
{
    match ran {
        Ok(
            Ran::Done {
                outcome,
                without_row,
            },
        ) => {
            note_uncovered(err, *without_row);
            write_counts(outcome, out, err)
        }
        Ok(Ran::Uncovered(without_row)) => {
            let _ = write_strict(err, *without_row);
            FAULT
        }
        Err(failure) => report_failure(alloc, err, failure, explains),
    }
}

/// A run that was not written, and what it would change.
#[derive(Drop)]
pub struct Foreseen {
    pub ran: Ran,
    pub changes: Vec<Change>,
}

/// Writes what a run would change, and then what is told of a run.
pub fn tell<O: Write, E: Write>(
    alloc: Global,
    foreseen: Foreseen,
    explains: bool,
    out: &mut O,
    err: &mut E,
) -> u8
    ensures { HasTold foreseen (O.contents out.old) (O.contents out.new) result }
{
    let Foreseen { ran, changes } = foreseen;
    match write_changes(out, changes.as_slice(), WOULD_CHANGE) {
        Ok(()) => report(alloc, &Ok(ran), explains, out, err),
        Err(error) => report_output(err, &error),
    }
}
