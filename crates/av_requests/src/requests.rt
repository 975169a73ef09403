//! What a run is asked for, and what it reads.
ghost use Rattle.std.specs.Prelude.{◌≤◌, IfErr, IfOk};
ghost use Rattle.av_requests.specs.Requests.{IsReadBy, IsRequestOf, IsUnreadRun, IsWorkersBy};

use crate::skipping::read_others;
use av_commands::tables::read_table;
use av_commands::texts::read_text_or;
use av_folders::LockFiles;
use av_region_files::RegionFile;
use av_reports::failure::Failure;
use av_reports::manner::Manner;
use av_types::MOST_WORKERS;
use av_words::RunWords;
use std::io::{Input, Write};
use std::thread::{self, Threads};

/// What a run is asked for.
#[derive(Clone, Copy, Drop)]
pub struct Request<'a> {
    /// The folder whose region files are read.
    pub input: &'a str,
    /// The folder that they are written to.
    pub output: &'a str,
    /// The file of the block table, which is that of the program where none is named.
    pub table: Option<&'a str>,
    /// The file of the edits. There are none where none is named.
    pub edits: Option<&'a str>,
    pub ticks: u32,
    /// How many threads turn blocks.
    pub workers: u32,
    /// The names of region files that count as not there.
    pub skip: &'a [&'a str],
    /// Whether nothing is run where a state of the world has no row in the table.
    pub strict: bool,
    /// Whether it is no matter that the game has the world open.
    pub in_use: bool,
    /// Whether it is run also where a run that was cut off is finished first.
    pub again: bool,
}

/// How many processors there are, up to the most workers, or 1 where that can't be told.
fn processors<R: Threads>(rt: &R) -> u32
    ensures least { 1 ≤ result }
    ensures most { result ≤ 8 }
{
    match thread::available_parallelism(rt) {
        Ok(processors) => processors.get().min(MOST_WORKERS as usize) as u32,
        Err(_) => 1,
    }
}

/// How many workers a run has: as many as it is given, or one for each processor.
fn workers_of<R: Threads>(rt: &R, given: Option<u32>) -> u32
    ensures { IsWorkersBy given result }
{
    match given {
        Some(workers) => workers,
        None => processors(rt),
    }
}

/// What the words of a run ask for.
pub fn request_of<'a, R: Threads>(rt: &R, words: &'a RunWords<'a>) -> Request<'a>
    ensures { IsRequestOf words.now result }
{
    Request {
        input: words.input,
        output: words.output,
        table: words.table,
        edits: words.edits,
        ticks: words.ticks,
        workers: workers_of(rt, words.workers),
        skip: words.skip.as_slice(),
        strict: words.strict,
        in_use: words.in_use,
        again: words.again,
    }
}

/// What `run` reads.
#[derive(Drop)]
pub struct Inputs {
    pub table: Vec<u8>,
    pub edits: Vec<u8>,
    pub files: Vec<RegionFile>,
}

/// What `run` reads: the table, the edits, and then the folder.
pub fn read_inputs<R: LockFiles + Input + Eprint + AllocGlobal + Clone + Drop, E: Write>(
    rt: &R,
    request: Request<'_>,
    manner: Manner,
    err: &mut E,
) -> Result<Inputs, Failure>
    ensures read { IfOk result (IsReadBy request.entry) }
    ensures unread { IfErr result (λ e. IsUnreadRun request.entry e.fault) }
{
    let table = read_table(rt, request.table)?;
    let edits = read_text_or(rt, request.edits, "")?;
    let files = read_others(rt, request.input, request.skip, manner, err)?;
    Ok(Inputs {
        table,
        edits,
        files,
    })
}
