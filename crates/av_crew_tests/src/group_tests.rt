//! Ticks in groups: of many entries, for a gate that doesn't watch.
use crate::crews::{contents, crew_ran};
use av_crew::NoGate;
use av_serial_tests::runs::{edits_and_kinds, world_of};
use av_types::{ChunkPos, Entry, Fault, Pos};
use std::alloc::{AllocError, Global};
use std::process::Abort;
use std::sync::Wait;
use std::test::Fail;
use std::thread::Threads;

/// The z of rows of sources, 32 in each, in two chunks by three.
const ROWS: [i32; 13] = [0, 7, 8, 15, 16, 17, 23, 24, 31, 32, 33, 40, 47];

/// How many sources stand in two chunks by three.
const IN_ONE: usize = 416;

/// Two chunks by three at each of three places, with six chunks between them. A group of one place waits for none of another.
fn chunks_of(alloc: Global) -> Result<Vec<ChunkPos>, AllocError> {
    let mut chunks = Vec::new(alloc);
    for number in 0..18 {
        let column = number % 6;
        chunks.push(ChunkPos {
            x: 8 * (column / 2) + column % 2,
            z: number / 6,
        })?;
    }
    Ok(chunks)
}

/// A source waits at each block of the rows. Those of every second column are turned later than the others.
fn sources_of(alloc: Global, spread: bool) -> Result<Vec<Entry>, AllocError> {
    let mut entries = Vec::new(alloc);
    for number in 0..3 * IN_ONE {
        let column = (number % 32) as i32;
        let pos = Pos {
            x: 128 * (number / IN_ONE) as i32 + column,
            y: 64,
            z: ROWS[number % IN_ONE / 32],
        };
        let priority = if spread { column % 2 } else { 0 };
        entries.push(Entry {
            pos,
            due: 1,
            priority,
        })?;
    }
    Ok(entries)
}

/// How many entries so many ticks take on so many workers in these chunks, with a source at the block of each entry, and what stands
/// then.
fn after<R: Threads + Wait + Sync + Abort>(
    rt: &R,
    alloc: Global,
    chunks: &[ChunkPos],
    entries: &[Entry],
    ticks: u32,
    workers: u32,
) -> Result<(u128, Vec<Option<u16>>, Vec<Entry>), Fault> {
    let mut blocks = Vec::new(alloc);
    for entry in entries {
        blocks.push(entry.pos)?;
    }
    let world = world_of(alloc, chunks, blocks.as_slice(), entries)?;
    let (_, kinds) = edits_and_kinds(alloc, 1, &world, "", 0)?;
    let after = crew_ran(rt, alloc, world, &kinds, &[], ticks, workers, &NoGate)?;
    let (numbers, waiting) = contents(alloc, &after.world)?;
    Ok((after.count, numbers, waiting))
}

/// The same of the sources in rows.
fn after_rows<R: Threads + Wait + Sync + Abort>(
    rt: &R,
    alloc: Global,
    spread: bool,
    ticks: u32,
    workers: u32,
) -> Result<(u128, Vec<Option<u16>>, Vec<Entry>), Fault> {
    let chunks = chunks_of(alloc)?;
    let entries = sources_of(alloc, spread)?;
    after(
        rt,
        alloc,
        chunks.as_slice(),
        entries.as_slice(),
        ticks,
        workers,
    )
}

/// How many of some numbers are those of water.
fn wet_of(numbers: &[Option<u16>]) -> usize {
    numbers
        .iter()
        .filter(|number| matches!(number, Some(1..=9)))
        .count()
}

/// In tick 1 each source is turned, and water comes to twelve rows beside: to 1, 6 and 9, 14 and 18, 22 and 25, 30 and 34, 39 and 41,
/// and 46.
#[test]
fn one_tick_of_many_groups(rt: HostRuntime) -> Result<(), Fail> {
    for workers in [1, 2, 3, 5, 8] {
        let (count, numbers, _) = after_rows(&rt, rt.alloc(), false, 1, workers)?;
        assert_eq!(rt; count, 1248, "{workers} workers");
        assert_eq!(rt;
            wet_of(numbers.as_slice()),
            1248 + 3 * 12 * 32,
            "{workers} workers"
        );
    }
    Ok(())
}

/// Any number of workers leaves the blocks, and the entries in the order, that one leaves.
#[test]
fn groups_leave_what_one_worker_leaves(rt: HostRuntime) -> Result<(), Fail> {
    for spread in [false, true] {
        let (count, numbers, waiting) = after_rows(&rt, rt.alloc(), spread, 11, 1)?;
        for workers in [2, 3, 8] {
            let (others, left, entries) = after_rows(&rt, rt.alloc(), spread, 11, workers)?;
            assert_eq!(rt; others, count, "{workers} workers");
            assert!(rt; left.as_slice() == numbers.as_slice(), "{workers} workers");
            assert!(rt;
                entries.as_slice() == waiting.as_slice(),
                "{workers} workers"
            );
        }
    }
    Ok(())
}

/// Ten rows of sources in each of two chunks. They are turned by turns: one of the first chunk, one of the second, and so on.
fn by_turns(alloc: Global) -> Result<Vec<Entry>, AllocError> {
    let mut entries = Vec::new(alloc);
    for number in 0..320 {
        let place = number / 2;
        let pos = Pos {
            x: 160 * (number % 2) + place % 16,
            y: 64,
            z: place / 16,
        };
        entries.push(Entry {
            pos,
            due: 1,
            priority: number,
        })?;
    }
    Ok(entries)
}

/// Each source is a group of its own then, and water comes to a row beside in each chunk.
#[test]
fn places_that_come_by_turns(rt: HostRuntime) -> Result<(), Fail> {
    let alloc = rt.alloc();
    let entries = by_turns(alloc)?;
    let chunks = [ChunkPos { x: 0, z: 0 }, ChunkPos { x: 10, z: 0 }];
    for workers in [1, 2, 8] {
        let (count, numbers, _) = after(&rt, alloc, &chunks, entries.as_slice(), 1, workers)?;
        assert_eq!(rt; count, 320, "{workers} workers");
        assert_eq!(rt;
            wet_of(numbers.as_slice()),
            320 + 2 * 16,
            "{workers} workers"
        );
    }
    Ok(())
}
