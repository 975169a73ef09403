//! A run from files to files, which may ask for a row for each state.
ghost use Rattle.std.specs.Prelude.{◌≡◌, ◌≢◌, ◌&&◌, nat_lt, IfOk, IfErr, map};
ghost use Rattle.av_types.specs.declared.fault.Fault.TheVariants.{OutOfMemory};
ghost use Rattle.av_state.specs.Table.{states};
ghost use Rattle.av_rules.specs.Tables.{table_of};
ghost use Rattle.av_image.specs.Views.{file_in};
ghost use Rattle.av_answers.specs.Answer.{IsRunAnswer};
ghost use Rattle.av_run.specs.Input.{IsInputAnswer, IsInputFault};
ghost use Rattle.av_answers.specs.Checked.{IsCheckedAnswer, without_row};
ghost use Rattle.av_run.specs.Counted.{IsCountedInput};

use crate::counts::{are_counts_good, are_few};
use crate::input::{Input, load_new, read_rules, with_edits};
use crate::runs::finish;
use av_answers::{Outcome, Ran};
use av_crew::Gate;
use av_region_files::RegionFile;
use av_rules::Rules;
use av_state::StateTable;
use av_types::Fault;
use std::alloc::Global;
use std::sync::Wait;
use std::thread::Threads;

/// What a run begins with, and how many states of its files have no row.
#[derive(Drop)]
pub(crate) struct CountedInput {
    pub(crate) input: Input,
    pub(crate) without_row: u32,
}

/// How many states have no row.
fn count_without_row(rules: &Rules, table: &StateTable) -> u32
    ensures { result ≡ without_row (table_of rules.now) (states table.now) }
{
    let mut count = 0;
    for number in 0..table.len() {
        count += u32::from(!rules.has_row(table.state(number as u16)));
    }
    count
}

/// What a run of few ticks and files begins with, and how many states of its files have no row.
fn read_counted(
    rt: &(impl Threads + Sync),
    alloc: Global,
    files: Vec<RegionFile>,
    table: &[u8],
    edits: &[u8],
    ticks: u32,
) -> Result<CountedInput, Fault>
    ensures ok { IfOk result (IsCountedInput (map file_in files.items) table.now edits.now ticks) }
    ensures err { IfErr result (λ e. e ≢ OutOfMemory
        → IsInputFault (map file_in files.items) table.now edits.now ticks e) }
{
    let rules = read_rules(alloc, table)?;
    let loaded = load_new(rt, alloc, files, &rules)?;
    let without_row = count_without_row(&rules, &loaded.table);
    let input = with_edits(alloc, loaded, &rules, edits, ticks)?;
    Ok(CountedInput { input, without_row })
}

/// What a run begins with, from its files, its block table and its edits, in this order.
///
/// # Errors
/// `BadCount` where there are more than 1,000,000 ticks or 1,024 files, and then no other. Else the first of the faults of
/// the table, the files and the edits, as `run` has them; `OutOfMemory` may stand in place of any.
pub fn read_input(
    rt: &(impl Threads + Sync),
    alloc: Global,
    files: Vec<RegionFile>,
    table: &[u8],
    edits: &[u8],
    ticks: u32,
) -> Result<Input, Fault>
    ensures { IsInputAnswer (map file_in files.items) table.now edits.now ticks result }
{
    if !are_few(files.as_slice(), ticks) {
        return Err(Fault::BadCount);
    }
    let counted = read_counted(rt, alloc, files, table, edits, ticks)?;
    Ok(counted.input)
}

/// Whether some states have no row where each is to have one.
fn is_refused(strict: bool, without_row: u32) -> bool
    ensures { result ≡ (strict && nat_lt 0 without_row) }
{
    strict && without_row > 0
}

/// Runs as `run` does, of the same. Where `strict` asks for a row of the table for each state of the loaded chunks' palettes,
/// and some have none, nothing is run: there are no files, and the answer says how many. The states that only edits bring are
/// not counted.
///
/// # Errors
/// Those of `run`. Where some states have no row and each is to have one, only those of the input.
pub fn run_checked<R: Threads + Wait + Sync, G: Gate + Sync>(
    rt: &R,
    alloc: Global,
    files: Vec<RegionFile>,
    table: &[u8],
    edits: &[u8],
    ticks: u32,
    workers: u32,
    strict: bool,
    gate: &G,
) -> Result<Ran, Fault>
    ensures { IsCheckedAnswer (map file_in files.items) table.now edits.now ticks workers strict
        result }
{
    if !are_counts_good(files.as_slice(), ticks, workers) {
        return Err(Fault::BadCount);
    }
    let read = read_counted(rt, alloc, files, table, edits, ticks)?;
    if is_refused(strict, read.without_row) {
        return Ok(Ran::Uncovered(read.without_row));
    }
    let without_row = read.without_row;
    let outcome = finish(rt, alloc, read.input, ticks, workers, gate)?;
    Ok(Ran::Done {
        outcome,
        without_row,
    })
}

/// Runs edits and water over the world of region files, lights it, and answers the files that it is written as. `table`
/// is a block table, `edits` are lines of edits, and `workers` is how many threads turn blocks at most, the calling one
/// among them; the answer is the same for each number of them. One worker's blocks, and in a tick those of few entries, are
/// turned by the calling thread on the world itself; else the workers turn the tick's groups. Where `gate` watches, all
/// ticks are turned in parts. It is told of each part before and after its turns. A refused run hands out nothing.
///
/// # Errors
/// The first of these: `BadCount` where there are not 1 to 8 workers, or more than 1,000,000 ticks or 1,024 files;
/// `BadTable` where the table is none; `RegionRange` and then `RepeatedRegion` of the list of files; the first fault of the
/// files by (z, x) of their regions, of each `ShortHeader` before those of its chunks by index, of a chunk the
/// least-numbered one from `BadLocation` to `TooManyStates`; the fault of the first line of edits that has one, `BadEdit`,
/// `EditTick`, `EditOutside` or `TooManyStates`; `ChunkTooLarge` for the first chunk that does not fit its file when all is
/// done. `OutOfMemory` may stand in place of any.
pub fn run<R: Threads + Wait + Sync, G: Gate + Sync>(
    rt: &R,
    alloc: Global,
    files: Vec<RegionFile>,
    table: &[u8],
    edits: &[u8],
    ticks: u32,
    workers: u32,
    gate: &G,
) -> Result<Outcome, Fault>
    ensures { IsRunAnswer (map file_in files.items) table.now edits.now ticks workers result }
{
    match run_checked(rt, alloc, files, table, edits, ticks, workers, false, gate)? {
        Ran::Done {
            outcome,
            without_row: _,
        } => Ok(outcome),
        Ran::Uncovered(_) => unreachable!(),
    }
}
