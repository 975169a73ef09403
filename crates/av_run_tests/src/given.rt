//! Runs of flat worlds, and what they must answer.
use crate::gates::Holding;
use av_codec::block_at;
use av_crew::{Gate, NoGate};
use av_image_tests::flat::Block::Water;
use av_image_tests::flat::{Block, Flat, Waiting, flat_region};
use av_run::{Outcome, RegionFile, run};
use av_types::{Fault, Height, Pos, RegionPos, Wet};
use std::alloc::{AllocError, Global};
use std::process::Abort;
use std::sync::Wait;
use std::test::Fail;
use std::thread::Threads;

/// The rows of stone and glowstone.
const ROWS: &str = r#"
[[block]]
name = "minecraft:stone"
open = false
floor = true
opacity = 15
emission = 0
[[block]]
name = "minecraft:glowstone"
open = false
floor = true
opacity = 15
emission = 15
"#;

/// A table of stone and glowstone that begins with these lines.
pub fn table_with(alloc: Global, head: &str) -> Result<Vec<u8>, AllocError> {
    let mut text = Vec::from_slice(alloc, head.as_bytes())?;
    text.extend_from_slice(ROWS.as_bytes())?;
    Ok(text)
}

/// What a run is given beside its files.
#[derive(Clone, Copy, Drop)]
pub struct Given<'a> {
    pub table: &'a [u8],
    pub edits: &'a str,
    pub ticks: u32,
    pub workers: u32,
}

/// A run with a gate. All runs of these tests go through this call.
pub fn run_gated<G: Gate + Sync>(
    rt: &(impl Threads + Wait + Sync),
    alloc: Global,
    files: Vec<RegionFile>,
    given: Given<'_>,
    gate: &G,
) -> Result<Outcome, Fault> {
    let Given {
        table,
        edits,
        ticks,
        workers,
    } = given;
    run(
        rt,
        alloc,
        files,
        table,
        edits.as_bytes(),
        ticks,
        workers,
        gate,
    )
}

/// A run without a gate.
pub fn run_files(
    rt: &(impl Threads + Wait + Sync),
    alloc: Global,
    files: Vec<RegionFile>,
    given: Given<'_>,
) -> Result<Outcome, Fault> {
    run_gated(rt, alloc, files, given, &NoGate)
}

/// The file of the region (0, 0).
pub fn one_region(alloc: Global, bytes: Vec<u8>) -> Result<Vec<RegionFile>, AllocError> {
    let mut files = Vec::new(alloc);
    let pos = RegionPos { x: 0, z: 0 };
    files.push(RegionFile { pos, bytes })?;
    Ok(files)
}

/// A run of the region (0, 0).
pub fn run_region(
    rt: &(impl Threads + Wait + Sync),
    alloc: Global,
    bytes: Vec<u8>,
    given: Given<'_>,
) -> Result<Outcome, Fault> {
    run_files(rt, alloc, one_region(alloc, bytes)?, given)
}

/// The one file of an outcome.
pub fn only_file(outcome: Outcome) -> Result<Vec<u8>, Fail> {
    let mut files = outcome.files;
    let file = files.pop().ok_or("no file")?;
    if !files.is_empty() {
        return Err("more than one file".into());
    }
    Ok(file.bytes)
}

/// The file of the region (0, 0) after a run with 2 workers.
pub fn file_after(
    rt: &(impl Threads + Wait + Sync),
    alloc: Global,
    bytes: Vec<u8>,
    edits: &str,
    ticks: u32,
) -> Result<Vec<u8>, Fail> {
    let table = table_with(alloc, "version = 1")?;
    let given = Given {
        table: table.as_slice(),
        edits,
        ticks,
        workers: 2,
    };
    only_file(run_region(rt, alloc, bytes, given)?)
}

pub fn at(x: i32, y: i32, z: i32) -> Pos {
    Pos { x, y, z }
}

/// A flat world of the game's height.
pub fn flat<'a>(blocks: &'a [(Pos, Block)], entries: &'a [Waiting]) -> Flat<'a> {
    Flat {
        height: Height::game(),
        blocks,
        entries,
    }
}

/// A block of water at y 64.
pub fn wet(x: i32, z: i32, level: u8) -> (Pos, Block) {
    (at(x, 64, z), Water(level))
}

/// An entry at y 64 that is due in 5 ticks, of flowing water.
pub fn flows(x: i32, z: i32) -> Waiting {
    (at(x, 64, z), 5, false)
}

/// The same of a source.
pub fn springs(x: i32, z: i32) -> Waiting {
    (at(x, 64, z), 5, true)
}

/// The ticks of a run, the chunks and the entries that were taken.
pub type Counts = (u32, u64, u128);

/// The chunks, the turns and the file of a run of a region whose ticks are worked off in parts, since its gate watches.
fn run_in_parts(
    rt: &(impl Threads + Wait + Sync),
    alloc: Global,
    bytes: Vec<u8>,
    given: Given<'_>,
) -> Result<(u64, u128, Vec<u8>), Fail> {
    let gate = Holding::of(true, 0);
    let outcome = run_gated(rt, alloc, one_region(alloc, bytes)?, given, &gate)?;
    Ok((outcome.chunks, outcome.turns, only_file(outcome)?))
}

/// A run of flat chunks with these edits, under a table, is written as those, by each number of workers.
pub fn expect_by(
    rt: &(impl Abort + Threads + Wait + Sync),
    alloc: Global,
    head: &str,
    before: Flat<'_>,
    edits: &str,
    counts: Counts,
    after: Flat<'_>,
) -> Result<(), Fail> {
    let (ticks, chunks, turns) = counts;
    let table = table_with(alloc, head)?;
    let bytes = flat_region(alloc, before, chunks)?;
    let file = flat_region(alloc, after, chunks)?;
    for workers in [1, 2, 3, 5, 8] {
        let given = Given {
            table: table.as_slice(),
            edits,
            ticks,
            workers,
        };
        let found = run_in_parts(rt, alloc, bytes.clone()?, given)?;
        assert_eq!(rt; (found.0, found.1), (chunks, turns), "after {edits}");
        assert!(rt; found.2 == file, "{workers} workers after {edits}");
    }
    Ok(())
}

/// The same under a table of version 1.
pub fn expect(
    rt: &(impl Abort + Threads + Wait + Sync),
    alloc: Global,
    before: Flat<'_>,
    edits: &str,
    counts: Counts,
    after: Flat<'_>,
) -> Result<(), Fail> {
    expect_by(rt, alloc, "version = 1", before, edits, counts, after)
}

/// The file of one flat chunk after a run with these edits.
pub fn run_edits(
    rt: &(impl Threads + Wait + Sync),
    alloc: Global,
    edits: &str,
    ticks: u32,
) -> Result<Vec<u8>, Fail> {
    let bytes = flat_region(alloc, flat(&[], &[]), 1)?;
    file_after(rt, alloc, bytes, edits, ticks)
}

/// The water at a loaded block of the region (0, 0).
pub fn wet_at(alloc: Global, bytes: &[u8], pos: Pos) -> Result<Wet, Fail> {
    let region = RegionPos { x: 0, z: 0 };
    let state = block_at(alloc, bytes, region, pos, Height::game())?.ok_or("not loaded")?;
    Ok(state.wet())
}
