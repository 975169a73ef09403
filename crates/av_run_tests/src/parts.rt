//! Runs whose ticks are worked off in parts, by each number of workers and also while a part is held. The files after these runs
//! are worked out by hand, byte for byte.
use crate::gates::Holding;
use crate::given::{Given, at, flat, one_region, only_file, run_gated, table_with};
use av_image_tests::flat::Block::Water;
use av_image_tests::flat::{Block, Waiting, flat_region};
use av_types::Pos;
use std::alloc::{AllocError, Global};
use std::process::Abort;
use std::sync::Wait;
use std::test::Fail;
use std::thread::Threads;

/// Sources that are set in tick 1, and what there is after tick 6, in which they are turned: each of them once, in so many
/// parts.
#[derive(Drop)]
struct Worked {
    chunks: u64,
    turns: u128,
    parts: u64,
    edits: String,
    blocks: Vec<(Pos, Block)>,
    woken: Vec<Waiting>,
}

impl Worked {
    /// No source yet.
    fn new(alloc: Global, chunks: u64, turns: u128, parts: u64) -> Worked {
        Worked {
            chunks,
            turns,
            parts,
            edits: String::new(alloc),
            blocks: Vec::new(alloc),
            woken: Vec::new(alloc),
        }
    }

    /// An edit sets a source.
    fn set(&mut self, source: Pos) -> Result<(), AllocError> {
        let alloc = *self.edits.allocator();
        let Pos { x, y, z } = source;
        let line = format!(in alloc; "1 {x} {y} {z} minecraft:water[level=0]\n")?;
        self.edits.push_str(line.as_str())?;
        self.blocks.push((source, Water(0)))?;
        Ok(())
    }

    /// A block is set by a turn.
    fn flow(&mut self, pos: Pos, level: u8) -> Result<(), AllocError> {
        self.blocks.push((pos, Water(level)))?;
        self.woken.push((pos, 5, false))?;
        Ok(())
    }

    /// A source is woken by what its turn sets.
    fn wake(&mut self, source: Pos) -> Result<(), AllocError> {
        self.woken.push((source, 5, true))?;
        Ok(())
    }

    /// A source in the air, whose turn sets the block below.
    fn fall(&mut self, source: Pos) -> Result<(), AllocError> {
        self.set(source)?;
        let Pos { x, y, z } = source;
        self.flow(at(x, y.wrapping_sub(1), z), 8)?;
        self.wake(source)
    }

    /// A source on the ground, whose turn sets its sides: north, south, west and east.
    fn spread(&mut self, source: Pos) -> Result<(), AllocError> {
        self.set(source)?;
        let Pos { x, y, z } = source;
        self.flow(at(x, y, z.wrapping_sub(1)), 1)?;
        self.wake(source)?;
        self.flow(at(x, y, z.wrapping_add(1)), 1)?;
        self.flow(at(x.wrapping_sub(1), y, z), 1)?;
        self.flow(at(x.wrapping_add(1), y, z), 1)
    }
}

/// A source in each of two sections of one chunk. The upper one is set first, and so its entries come first.
fn one_of_each_part(alloc: Global) -> Result<Worked, AllocError> {
    let mut worked = Worked::new(alloc, 1, 2, 2);
    worked.fall(at(8, 72, 8))?;
    worked.fall(at(8, 40, 8))?;
    Ok(worked)
}

/// A source in the middle of each of four chunks.
fn one_of_each_chunk(alloc: Global) -> Result<Worked, AllocError> {
    let mut worked = Worked::new(alloc, 4, 4, 4);
    for x in [8, 24, 40, 56] {
        worked.spread(at(x, 64, 8))?;
    }
    Ok(worked)
}

/// Eighteen sources in each of two sections of one chunk. They are set by turns, so the entries of the one part stand between
/// those of the other. None has water beside it.
fn two_parts_of_a_chunk(alloc: Global) -> Result<Worked, AllocError> {
    let mut worked = Worked::new(alloc, 1, 36, 2);
    for x in [0, 3, 6, 9, 12, 15] {
        for z in [2, 7, 12] {
            worked.fall(at(x, 72, z))?;
            worked.fall(at(x, 40, z))?;
        }
    }
    Ok(worked)
}

/// Ten sources on the ground and ten in the air of each of two chunks, whose reaches stay in them, and no side of one is a side
/// of another.
fn parts_of_two_chunks(alloc: Global) -> Result<Worked, AllocError> {
    let mut worked = Worked::new(alloc, 2, 40, 2);
    for x in [5, 8, 21, 24] {
        for z in [1, 4, 7, 10, 13] {
            worked.spread(at(x, 64, z))?;
            worked.fall(at(x, 72, z))?;
        }
    }
    Ok(worked)
}

/// Six ticks with so many workers and a gate turn each source once, and leave this file.
fn expect_file(
    rt: &(impl Abort + Threads + Wait + Sync),
    alloc: Global,
    worked: &Worked,
    workers: u32,
    gate: &Holding,
    file: &[u8],
) -> Result<(), Fail> {
    let table = table_with(alloc, "version = 1")?;
    let given = Given {
        table: table.as_slice(),
        edits: worked.edits.as_str(),
        ticks: 6,
        workers,
    };
    let dry = flat_region(alloc, flat(&[], &[]), worked.chunks)?;
    let outcome = run_gated(rt, alloc, one_region(alloc, dry)?, given, gate)?;
    let counts = (outcome.chunks, outcome.turns);
    assert_eq!(rt; counts, (worked.chunks, worked.turns), "{workers} workers");
    let after = only_file(outcome)?;
    assert!(rt; after.as_slice() == file, "{workers} workers");
    Ok(())
}

/// How many jobs a gate is told of: where it watches one for each part, and else none.
fn jobs_of(worked: &Worked, watching: bool) -> u64 {
    if watching { worked.parts } else { 0 }
}

/// So many workers leave the file that was worked out. Where there are several, one of them is held at the first job until the
/// others are done.
fn expect_with(
    rt: &(impl Abort + Threads + Wait + Sync),
    alloc: Global,
    worked: &Worked,
    workers: u32,
    watching: bool,
    file: &[u8],
) -> Result<(), Fail> {
    let jobs = jobs_of(worked, watching);
    let others = if workers > 1 {
        jobs.saturating_sub(1)
    } else {
        0
    };
    let gate = Holding::of(watching, others);
    expect_file(rt, alloc, worked, workers, &gate, file)?;
    assert_eq!(rt; gate.counts(), (jobs, 0), "{workers} workers");
    Ok(())
}

/// One, two, three and eight workers leave the file that was worked out, for a gate that watches and for one that doesn't.
fn expect_worked(
    rt: &(impl Abort + Threads + Wait + Sync),
    alloc: Global,
    worked: &Worked,
) -> Result<(), Fail> {
    let after = flat(worked.blocks.as_slice(), worked.woken.as_slice());
    let file = flat_region(alloc, after, worked.chunks)?;
    for workers in [1, 2, 3, 8] {
        for watching in [false, true] {
            expect_with(rt, alloc, worked, workers, watching, file.as_slice())?;
        }
    }
    Ok(())
}

#[test]
fn few_entries(rt: HostRuntime) -> Result<(), Fail> {
    expect_worked(&rt, rt.alloc(), &one_of_each_part(rt.alloc())?)?;
    expect_worked(&rt, rt.alloc(), &one_of_each_chunk(rt.alloc())?)
}

#[test]
fn many_entries(rt: HostRuntime) -> Result<(), Fail> {
    expect_worked(&rt, rt.alloc(), &two_parts_of_a_chunk(rt.alloc())?)?;
    expect_worked(&rt, rt.alloc(), &parts_of_two_chunks(rt.alloc())?)
}
