//! Jobs that can only be done at once, shown by gates that wait for each other, and ticks without jobs, by gates that count them.
ghost use Rattle.std.specs.Prelude.{IfOk};
ghost use Rattle.av_world_tests.specs.Flat.{IsPlain};

use crate::crews::{contents, crew_ran, flat_crew_ran};
use crate::gates::{Counting, Expecting, Holding, Meeting, Watching};
use av_crew::{Gate, NoGate, Step};
use av_serial_tests::runs::{edits_and_kinds, world_of};
use av_types::{ChunkPos, Entry, Fault, Pos};
use av_world::World;
use av_world_tests::reads::entries_in;
use std::alloc::{AllocError, Global};
use std::process::Abort;
use std::sync::Wait;
use std::test::Fail;
use std::thread::Threads;

/// Four chunks in a row.
const ROW: [ChunkPos; 4] = [
    ChunkPos { x: 0, z: 0 },
    ChunkPos { x: 1, z: 0 },
    ChunkPos { x: 2, z: 0 },
    ChunkPos { x: 3, z: 0 },
];

/// A source in the middle of each of them.
const FOUR: &str = "1 8 64 8 minecraft:water[level=0]
1 24 64 8 minecraft:water[level=0]
1 40 64 8 minecraft:water[level=0]
1 56 64 8 minecraft:water[level=0]";

/// A source in the first of them.
const ONE: &str = "1 8 64 8 minecraft:water[level=0]";

/// Sources in the first two of them.
const TWO: &str = "1 8 64 8 minecraft:water[level=0]\n1 24 64 8 minecraft:water[level=0]";

/// Four workers have four jobs at once.
#[test]
fn four_jobs_meet(rt: HostRuntime) -> Result<(), Fail> {
    let gate = Meeting::of(4);
    let after = flat_crew_ran(&rt, rt.alloc(), &ROW, FOUR, 6, 4, &gate)?;
    assert_eq!(rt; after.count, 4);
    assert_eq!(rt; gate.counts(), (4, 0));
    Ok(())
}

/// While one worker is held at any of four jobs, the other one does the three others.
#[test]
fn one_worker_does_three_jobs(rt: HostRuntime) -> Result<(), Fail> {
    for job in 0..4 {
        let gate = Holding::of(job, 3);
        let after = flat_crew_ran(&rt, rt.alloc(), &ROW, FOUR, 6, 2, &gate)?;
        assert_eq!(rt; after.count, 4);
        assert_eq!(rt; gate.counts(), (3, 0), "job {job}");
    }
    Ok(())
}

/// The turns of a job are done in its own sections: before those of one job, the other one's are done.
#[test]
fn a_job_is_turned_while_another_waits(rt: HostRuntime) -> Result<(), Fail> {
    for job in 0..2 {
        let gate = Watching::of(job);
        let chunks = [ROW[0], ROW[1]];
        let after = flat_crew_ran(&rt, rt.alloc(), &chunks, TWO, 6, 2, &gate)?;
        assert_eq!(rt; after.count, 2);
        assert_eq!(rt; gate.counts(), (1, 1, 0), "job {job}");
    }
    Ok(())
}

/// The entries of two parts of one chunk come into its list by their makers' places, also where the later part is done first.
#[test]
fn entries_go_by_their_makers(rt: HostRuntime) -> Result<(), Fail> {
    let lines = "1 8 72 8 minecraft:water[level=0]\n1 8 40 8 minecraft:water[level=0]";
    let gate = Holding::of(0, 1);
    let after = flat_crew_ran(&rt, rt.alloc(), &[ROW[0]], lines, 6, 2, &gate)?;
    assert_eq!(rt; after.count, 2);
    assert_eq!(rt; gate.counts(), (1, 0));
    let list = entries_in(rt.alloc(), &after.world, ROW[0])?;
    assert_eq!(rt; list.len(), 4);
    for (entry, y) in list.iter().zip(&[71, 72, 39, 40]) {
        let want = Entry {
            pos: Pos { x: 8, y: *y, z: 8 },
            due: 11,
            priority: 0,
        };
        assert_eq!(rt; *entry, want);
    }
    Ok(())
}

/// Sources that wait for a tick, at this y and z and at each x of some ranges.
fn waiting(
    alloc: Global,
    ranges: &[(i32, i32)],
    y: i32,
    z: i32,
    due: i64,
) -> Result<Vec<Entry>, AllocError> {
    let mut entries = Vec::new(alloc);
    for (from, to) in ranges {
        for x in *from..*to {
            entries.push(Entry {
                pos: Pos { x, y, z },
                due,
                priority: 0,
            })?;
        }
    }
    Ok(entries)
}

/// The row of chunks with a source at each of these entries.
fn with_sources(alloc: Global, entries: &[Entry]) -> Result<World, Fault>
    ensures { IfOk result IsPlain }
{
    let mut sources = Vec::new(alloc);
    for entry in entries {
        sources.push(entry.pos)?;
    }
    world_of(alloc, &ROW, sources.as_slice(), entries)
}

/// How many of some numbers are those of water.
fn wet_of(numbers: &[Option<u16>]) -> usize {
    let mut wet = 0usize;
    for number in numbers {
        if let Some(1..=9) = number {
            wet = wet.wrapping_add(1);
        }
    }
    wet
}

/// One tick of sources in a row of chunks.
#[derive(Clone, Copy, Drop)]
struct RowTick<'a> {
    ranges: &'a [(i32, i32)],
    workers: u32,
    /// How many entries it takes, and how many blocks of water there are then.
    count: u128,
    wet: usize,
}

/// How many jobs a gate is told of, which watches or not.
fn told<R: Threads + Wait + Sync + Abort>(
    rt: &R,
    alloc: Global,
    watching: bool,
    row: RowTick<'_>,
) -> Result<u64, Fault> {
    let gate = Counting::of(watching);
    let entries = waiting(alloc, row.ranges, 64, 8, 1)?;
    let world = with_sources(alloc, entries.as_slice())?;
    let (_, kinds) = edits_and_kinds(alloc, 1, &world, "", 0)?;
    let after = crew_ran(rt, alloc, world, &kinds, &[], 1, row.workers, &gate)?;
    assert_eq!(rt; after.count, row.count);
    let (numbers, _) = contents(alloc, &after.world)?;
    assert_eq!(rt; wet_of(numbers.as_slice()), row.wet);
    Ok(gate.count())
}

/// Twenty entries of one part. Each source has water to its north and south, and the last one to its east.
const FEW: RowTick<'static> = RowTick {
    ranges: &[(0, 20)],
    workers: 8,
    count: 20,
    wet: 61,
};

/// Sixty-four entries of one part, from one end to the other.
const LONG: RowTick<'static> = RowTick {
    ranges: &[(0, 64)],
    workers: 8,
    count: 64,
    wet: 192,
};

/// Forty entries of two parts.
const TWO_ROWS: RowTick<'static> = RowTick {
    ranges: &[(0, 20), (44, 64)],
    workers: 2,
    count: 40,
    wet: 122,
};

/// The same with one worker.
const ALONE: RowTick<'static> = RowTick {
    workers: 1,
    ..TWO_ROWS
};

/// Thirty-nine entries of two parts, of which one has 26.
const LOPSIDED: RowTick<'static> = RowTick {
    ranges: &[(0, 13), (37, 63)],
    workers: 2,
    count: 39,
    wet: 120,
};

/// Thirty-eight, of which one part has 25.
const UNEVEN: RowTick<'static> = RowTick {
    ranges: &[(0, 13), (37, 62)],
    workers: 2,
    count: 38,
    wet: 117,
};

/// A gate that watches is told of each part, whatever it costs.
#[test]
fn a_watching_gate_is_told_of_each_part(rt: HostRuntime) -> Result<(), Fail> {
    let alloc = rt.alloc();
    for (row, parts) in [
        (FEW, 1),
        (LONG, 1),
        (TWO_ROWS, 2),
        (ALONE, 2),
        (LOPSIDED, 2),
        (UNEVEN, 2),
    ] {
        assert_eq!(rt; told(&rt, alloc, true, row)?, parts);
    }
    Ok(())
}

/// Another one is told of none.
#[test]
fn another_gate_is_told_of_no_part(rt: HostRuntime) -> Result<(), Fail> {
    let alloc = rt.alloc();
    for row in [FEW, LONG, TWO_ROWS, ALONE, LOPSIDED, UNEVEN] {
        assert_eq!(rt; told(&rt, alloc, false, row)?, 0);
    }
    Ok(())
}

/// So many ticks of a flat chunk, of which the gate must be told by these numbers of ticks that are done.
fn expect_told<R: Threads + Wait + Sync + Abort>(
    rt: &R,
    alloc: Global,
    lines: &str,
    all: u32,
    workers: u32,
    told: &[u32],
) -> Result<(), Fault> {
    let mut steps = Vec::new(alloc);
    for done in told {
        steps.push(Step::Ticks { done: *done, all })?;
    }
    let gate = Expecting::of(steps.as_slice());
    flat_crew_ran(rt, alloc, &[ROW[0]], lines, all, workers, &gate)?;
    assert_eq!(rt; gate.counts(), (told.len(), 0));
    Ok(())
}

/// A gate watches if it does not say otherwise, and the one that does nothing does not.
#[test]
fn a_gate_watches_if_it_says_no_other(rt: HostRuntime) -> Result<(), Fail> {
    assert!(rt; Meeting::of(1).watches());
    assert!(rt; !NoGate.watches());
    Ok(())
}

/// A source is set in tick 1, and turned in tick 6; what it wakes is due in tick 11. So of ten ticks the first and the sixth
/// are told of, and at the end that all are done; of six ticks the last one once; and where nothing is to be done, the end.
#[test]
fn a_gate_is_told_of_the_ticks_that_do_something(rt: HostRuntime) -> Result<(), Fail> {
    for workers in [1, 2] {
        expect_told(&rt, rt.alloc(), ONE, 10, workers, &[1, 6, 10])?;
        expect_told(&rt, rt.alloc(), ONE, 6, workers, &[1, 6])?;
        expect_told(&rt, rt.alloc(), "", 10, workers, &[10])?;
        expect_told(&rt, rt.alloc(), "", 0, workers, &[0])?;
    }
    Ok(())
}
