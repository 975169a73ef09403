//! Ticks of a flat region in which many lakes spread at once.
ghost use Rattle.av_world_tests.specs.Flat.{IsPlain};

use anyhow::Result;
use av_crew::NoGate;
use av_crew_tests::crews::crew_ran;
use av_edits::Edit;
use av_rules::Kinds;
use av_serial_tests::runs::{After, edits_and_kinds, run_edits, world_of};
use av_types::{ChunkPos, Fault, Pos};
use av_world::World;
use av_world_tests::flat::SOURCE;
use std::alloc::{AllocError, Global};
use std::rt::Clock;
use std::sync::Wait;
use std::thread::Threads;
use std::time::Instant;

/// The numbers of air and of a source.
const AIR: u16 = 0;

/// All chunks of a region.
fn region_chunks(alloc: Global) -> Result<Vec<ChunkPos>, AllocError> {
    let mut chunks = Vec::new(alloc);
    for z in 0..32 {
        for x in 0..32 {
            chunks.push(ChunkPos { x, z })?;
        }
    }
    Ok(chunks)
}

/// Where a lake is: 100 are on the ground and 100 at the bottom of the world, each in every third chunk along x and z, so
/// that no two share a section.
fn lake(index: u32) -> Pos {
    Pos {
        x: (index % 10 * 48 + 8) as i32,
        y: if index < 100 { 64 } else { -64 },
        z: (index / 10 % 10 * 48 + 8) as i32,
    }
}

/// A row of a lake in a tick: so many blocks along x, which become a source or air.
fn push_row(
    edits: &mut Vec<Edit>,
    first: Pos,
    width: i32,
    tick: u32,
    number: u16,
) -> Result<(), AllocError> {
    for x in 0..width {
        let pos = Pos {
            x: first.x.wrapping_add(x),
            ..first
        };
        edits.push(Edit {
            line: 1,
            tick,
            pos,
            number,
        })?;
    }
    Ok(())
}

/// A lake in a tick: so many rows.
fn push_lake(
    edits: &mut Vec<Edit>,
    middle: Pos,
    width: i32,
    tick: u32,
    number: u16,
) -> Result<(), AllocError> {
    let first = middle.z.wrapping_sub(width / 2);
    for z in 0..width {
        let row = Pos {
            x: middle.x.wrapping_sub(width / 2),
            y: middle.y,
            z: first.wrapping_add(z),
        };
        push_row(edits, row, width, tick, number)?;
    }
    Ok(())
}

/// In each lake its sources, which are there, taken away and there again.
fn lake_edits(alloc: Global, width: i32) -> Result<Vec<Edit>, AllocError> {
    let mut edits = Vec::new(alloc);
    for index in 0..200 {
        for (tick, number) in [(1, SOURCE), (41, AIR), (71, SOURCE)] {
            push_lake(&mut edits, lake(index), width, tick, number)?;
        }
    }
    Ok(edits)
}

/// The ticks on so many workers, or by the tick of one thread where there are none.
fn run_lakes<R: Threads + Wait + Sync>(
    rt: &R,
    alloc: Global,
    world: World,
    kinds: &Kinds,
    edits: &[Edit],
    ticks: u32,
    workers: u32,
) -> Result<After, Fault>
    requires { IsPlain world }
{
    if workers == 0 {
        return run_edits(alloc, world, kinds, edits, ticks);
    }
    crew_ran(rt, alloc, world, kinds, edits, ticks, workers, &NoGate)
}

/// Ticks of lakes of so many sources along x and as many along z. The line has the number of turns, and how many
/// microseconds the ticks alone took.
pub(crate) fn tick_lakes<R: Threads + Wait + Sync + Clock>(
    rt: &R,
    alloc: Global,
    width: i32,
    ticks: u32,
    workers: u32,
) -> Result<String> {
    let chunks = region_chunks(alloc)?;
    let world = world_of(alloc, chunks.as_slice(), &[], &[])?;
    let (_, kinds) = edits_and_kinds(alloc, 1, &world, "", 0)?;
    let edits = lake_edits(alloc, width)?;
    let start = Instant::now(rt)?;
    let after = run_lakes(rt, alloc, world, &kinds, edits.as_slice(), ticks, workers)?;
    let took = start.elapsed(rt)?.as_micros();
    let turns = after.count;
    Ok(format!(in alloc; "turns {turns} us {took}")?)
}
