//! Water that is poured into a region.
use crate::dice::Dice;
use crate::digest::Digest;
use crate::jobs::{only, ran};
use crate::pool::Pool;
use crate::regions::{Country, Drawn, region};
use crate::tables::TABLE;
use anyhow::Result;
use av_types::RegionPos;
use std::alloc::{AllocError, Global};
use std::sync::Wait;
use std::thread::Threads;

const SOURCE: &str = "minecraft:water[level=0]";

/// What is set now and then in place of a source.
const OTHERS: [&str; 4] = [
    "minecraft:stone",
    "minecraft:torch",
    "minecraft:air",
    "minecraft:glass",
];

/// A region with no lamps above the ground.
fn land(alloc: Global, seed: u32, side: u32) -> Result<Drawn, AllocError> {
    let pool = Pool::new(alloc, seed)?;
    let here = RegionPos { x: 0, z: 0 };
    region(alloc, &pool, seed, here, side, Country::Empty)
}

/// A line of edits.
fn put_edit(
    edits: &mut String,
    tick: u32,
    x: u32,
    y: u32,
    z: u32,
    state: &str,
) -> Result<(), AllocError> {
    let alloc = *edits.allocator();
    let line = format!(in alloc; "{tick} {x} {y} {z} {state}\n")?;
    edits.push_str(line.as_str())
}

/// Sources anywhere above the ground, high ones too, which grow together; now and then another state.
fn flood_edits(
    alloc: Global,
    seed: u32,
    free: &[bool],
    side: u32,
    count: u32,
    ticks: u32,
) -> Result<String, AllocError> {
    let mut dice = Dice::new(seed, 3);
    let mut edits = String::new(alloc);
    let width = (16 * side.min(32)).max(1);
    for _ in 0..count {
        let (x, z) = (dice.below(width), dice.below(width));
        let high = if dice.below(16) == 0 { 48 } else { 6 };
        let y = 88 + dice.below(high);
        let tick = 1 + dice.below((ticks / 2).max(1));
        let state = if dice.below(8) == 0 {
            OTHERS[(dice.roll() % 4) as usize]
        } else {
            SOURCE
        };
        if is_free(free, x, z) {
            put_edit(&mut edits, tick, x, y, z, state)?;
        }
    }
    Ok(edits)
}

/// Whether the chunk of a column is loaded.
fn is_free(free: &[bool], x: u32, z: u32) -> bool {
    let index = (z / 16 % 32 * 32 + x / 16 % 32) as usize;
    index < free.len() && free[index]
}

/// Pours water into a region with so many edits. The line has the digest of the written file.
pub(crate) fn flood<R: Threads + Wait + Sync>(
    rt: &R,
    alloc: Global,
    seed: u32,
    side: u32,
    count: u32,
    ticks: u32,
    workers: u32,
) -> Result<String> {
    let Drawn { file, loaded: free } = land(alloc, seed, side)?;
    let edits = flood_edits(alloc, seed, free.as_slice(), side, count, ticks)?;
    let mut digest = Digest::default();
    let files = only(alloc, file)?;
    let _written = ran(
        rt,
        alloc,
        files,
        TABLE,
        edits.as_str(),
        ticks,
        workers,
        &mut digest,
    )?;
    let sum = digest.sum;
    Ok(format!(in alloc; "flood {sum}")?)
}

/// A lake of so many blocks a side, in the middle of a chunk.
fn put_lake(
    edits: &mut String,
    tick: u32,
    x: u32,
    z: u32,
    width: u32,
    state: &str,
) -> Result<(), AllocError> {
    for row in 0..width {
        for step in 0..width {
            let (x, z) = (
                x.wrapping_add(5).wrapping_add(step),
                z.wrapping_add(5).wrapping_add(row),
            );
            put_edit(edits, tick, x, 92, z, state)?;
        }
    }
    Ok(())
}

/// In every second chunk along x and z a lake, which comes and goes every 40 ticks.
fn lake_edits(
    alloc: Global,
    seed: u32,
    free: &[bool],
    side: u32,
    ticks: u32,
) -> Result<String, AllocError> {
    let mut dice = Dice::new(seed, 4);
    let mut edits = String::new(alloc);
    let across = side.min(32) / 2;
    for index in 0..256u32 {
        let (x, z) = (index % 16 * 32, index / 16 * 32);
        if index % 16 < across && index / 16 < across && is_free(free, x, z) {
            put_tides(&mut edits, &mut dice, x, z, ticks)?;
        }
    }
    Ok(edits)
}

/// A lake that comes and goes, in so many ticks.
fn put_tides(
    edits: &mut String,
    dice: &mut Dice,
    x: u32,
    z: u32,
    ticks: u32,
) -> Result<(), AllocError> {
    let width = 2 + dice.below(4);
    let mut tick = 1 + dice.below(ticks.min(40).max(1));
    let mut is_there = false;
    for _ in 0..ticks / 40 + 1 {
        if tick <= ticks {
            is_there = !is_there;
            let state = if is_there { SOURCE } else { "minecraft:air" };
            put_lake(edits, tick, x, z, width, state)?;
        }
        tick = tick.saturating_add(40);
    }
    Ok(())
}

/// Lakes that spread at once, in so many ticks and, from the files that were written, in as many more. The line has the
/// digest of the files of both runs.
pub(crate) fn lakes<R: Threads + Wait + Sync>(
    rt: &R,
    alloc: Global,
    seed: u32,
    side: u32,
    ticks: u32,
    workers: u32,
) -> Result<String> {
    let Drawn { file, loaded: free } = land(alloc, seed, side)?;
    let edits = lake_edits(alloc, seed, free.as_slice(), side, ticks)?;
    let mut digest = Digest::default();
    let files = only(alloc, file)?;
    let written = ran(
        rt,
        alloc,
        files,
        TABLE,
        edits.as_str(),
        ticks,
        workers,
        &mut digest,
    )?;
    let _again = ran(rt, alloc, written, TABLE, "", ticks, workers, &mut digest)?;
    let sum = digest.sum;
    Ok(format!(in alloc; "lakes {sum}")?)
}
