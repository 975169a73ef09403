//! Inputs that are allowed and seldom seen: many states, long tables, palettes with a state twice, long lists of ticks.
ghost use Rattle.std.specs.Prelude.{◌<◌, ◌≤◌};

use crate::chunks::{put_start, put_tick};
use crate::dice::Dice;
use crate::digest::Digest;
use crate::documents::{COMPOUND, put_byte, put_end, put_head, put_list, put_longs};
use crate::jobs::{only, ran};
use crate::packed::{bits_of, packed};
use crate::regions::RegionWriter;
use crate::states::put_state_text;
use crate::tables::{TABLE, long_table};
use anyhow::Result;
use av_run::RegionFile;
use av_types::{ChunkPos, RegionPos};
use std::alloc::{AllocError, Global};
use std::sync::Wait;
use std::thread::Threads;

const HERE: RegionPos = RegionPos { x: 0, z: 0 };

const CHUNK: ChunkPos = ChunkPos { x: 0, z: 0 };

/// The most entries of a palette.
const MOST: u32 = 4096;

/// A region file with one chunk.
fn file_of(alloc: Global, document: &[u8]) -> Result<RegionFile, AllocError> {
    let mut writer = RegionWriter::new(alloc, 2_000_000)?;
    writer.append(0, document)?;
    Ok(writer.file(HERE))
}

/// The state of a number: those below a count have names of their own.
fn put_numbered(out: &mut Vec<u8>, number: u32) -> Result<(), AllocError> {
    let alloc = *out.allocator();
    let text = format!(in alloc; "m:s{number}")?;
    put_state_text(out, text.as_bytes())
}

/// An index for each place: most are the place itself, so that the palette is used whole.
fn indices(alloc: Global, count: u32, dice: &mut Dice) -> Result<Vec<u16>, AllocError>
    requires few { count ≤ 4096 }
    requires some { 0 < count }
{
    let mut all = Vec::with_capacity(alloc, 4096)?;
    for place in 0..MOST {
        let index = if dice.below(4) == 0 {
            dice.below(count)
        } else {
            place % count
        };
        all.push((index % 4096) as u16)?;
    }
    Ok(all)
}

/// A section whose palette has states from a first one on, and one of them twice where that is wanted.
fn put_section(
    out: &mut Vec<u8>,
    dice: &mut Dice,
    y: u32,
    first: u32,
    count: u32,
    is_twice: bool,
) -> Result<(), AllocError>
    requires few { count ≤ 4096 }
    requires some { 0 < count }
{
    let alloc = *out.allocator();
    put_byte(out, b"Y", (y % 256) as u8)?;
    put_head(out, COMPOUND, b"block_states")?;
    put_list(out, b"palette", COMPOUND, count as usize)?;
    for number in 0..count {
        let number = if is_twice && number == count / 2 {
            0
        } else {
            number
        };
        put_numbered(out, first.wrapping_add(number))?;
    }
    if count > 1 {
        let indices = indices(alloc, count, dice)?;
        let longs = packed(alloc, indices.as_slice(), bits_of(count as usize))?;
        put_longs(out, b"data", longs.as_slice())?;
    }
    put_end(out)?;
    put_end(out)
}

/// A chunk whose sections have so many states together.
fn chunk_of_states(
    alloc: Global,
    dice: &mut Dice,
    states: u32,
    is_twice: bool,
) -> Result<Vec<u8>, AllocError> {
    let mut out = Vec::with_capacity(alloc, 1_000_000)?;
    put_start(&mut out, CHUNK, b"full")?;
    let sections = (states / MOST).min(12) + 1;
    put_list(&mut out, b"sections", COMPOUND, sections as usize)?;
    for y in 0..sections {
        let first = y * MOST;
        let count = states.saturating_sub(first).max(1).min(MOST);
        put_section(&mut out, dice, y, first, count, is_twice)?;
    }
    put_end(&mut out)?;
    Ok(out)
}

/// A chunk with so many scheduled ticks of water, each of another time.
fn chunk_of_ticks(alloc: Global, dice: &mut Dice, count: u32) -> Result<Vec<u8>, AllocError> {
    let mut out = Vec::with_capacity(alloc, 1_000_000)?;
    let count = count.min(12_000);
    put_start(&mut out, CHUNK, b"full")?;
    put_list(&mut out, b"sections", COMPOUND, 0)?;
    put_list(&mut out, b"fluid_ticks", COMPOUND, count as usize)?;
    let turned = dice.below(256);
    for number in 0..count {
        let place = number ^ turned;
        let (x, y, z) = (place % 16, place / 256, place / 16 % 16);
        put_tick(
            &mut out,
            b"minecraft:water",
            (x % 16) as i32,
            (y % 256) as i32,
            (z % 16) as i32,
            (number + 1) as i32,
        )?;
    }
    put_end(&mut out)?;
    Ok(out)
}

/// So many edits, each of another state, in four sections.
fn edits_of_states(alloc: Global, dice: &mut Dice, count: u32) -> Result<String, AllocError> {
    let mut edits = String::new(alloc);
    for number in 0..count {
        let (x, y, z) = (dice.below(16), dice.below(64), dice.below(16));
        let line = format!(in alloc; "1 {x} {y} {z} minecraft:e{number}\n")?;
        edits.push_str(line.as_str())?;
    }
    Ok(edits)
}

/// Runs each of the inputs, of a size from 1 on. The line has the digest of all written files.
pub(crate) fn run_all<R: Threads + Wait + Sync>(
    rt: &R,
    alloc: Global,
    seed: u32,
    size: u32,
) -> Result<String> {
    let mut dice = Dice::new(seed, 5);
    let dice = &mut dice;
    let mut digest = Digest::default();
    let size = size.min(16_000);
    let table = long_table(alloc, size)?;

    // many states under a table of as many rows
    let chunk = chunk_of_states(alloc, dice, size, false)?;
    let files = only(alloc, file_of(alloc, chunk.as_slice())?)?;
    ran(rt, alloc, files, table.as_str(), "", 0, 1, &mut digest)?;

    // palettes in which a state stands twice, in a chunk near the largest that a region holds
    let chunk = chunk_of_states(alloc, dice, 3 * size, true)?;
    let files = only(alloc, file_of(alloc, chunk.as_slice())?)?;
    ran(rt, alloc, files, TABLE, "", 0, 1, &mut digest)?;

    // edits, each of another state
    let chunk = chunk_of_states(alloc, dice, 40, false)?;
    let files = only(alloc, file_of(alloc, chunk.as_slice())?)?;
    let edits = edits_of_states(alloc, dice, 2 * size)?;
    ran(rt, alloc, files, TABLE, edits.as_str(), 1, 1, &mut digest)?;

    // a long list of scheduled ticks
    let chunk = chunk_of_ticks(alloc, dice, size)?;
    let files = only(alloc, file_of(alloc, chunk.as_slice())?)?;
    ran(rt, alloc, files, TABLE, "", size, 4, &mut digest)?;

    let sum = digest.sum;
    Ok(format!(in alloc; "awkward {sum}")?)
}
