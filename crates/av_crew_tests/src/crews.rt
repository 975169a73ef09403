//! Flat worlds after ticks on several workers, and what stands in them.
ghost use Rattle.std.specs.Prelude.{◌<◌};
ghost use Rattle.av_world_tests.specs.Flat.{IsPlain};

use av_cells::Cells;
use av_crew::{Gate, run_ticks, tick};
use av_edits::Edit;
use av_rules::Kinds;
use av_serial_tests::runs::{After, all_fit, edits_and_kinds, world_of};
use av_types::{ChunkPos, Entry, Fault, Pos};
use av_world::World;
use av_world_tests::reads::entries_in;
use std::alloc::Global;
use std::sync::Wait;
use std::thread::Threads;

/// Ticks 1 to `ticks` of a world on so many workers.
pub fn crew_run<R: Threads + Wait + Sync, G: Gate + Sync>(
    rt: &R,
    alloc: Global,
    world: &mut World,
    kinds: &Kinds,
    edits: &[Edit],
    ticks: u32,
    workers: u32,
    gate: &G,
) -> Result<u128, Fault>
    requires { IsPlain world.old }
{
    if kinds.count() < 11 {
        return Err(Fault::BadTable);
    }
    if !all_fit(world, kinds, edits) {
        return Err(Fault::EditOutside(0));
    }
    run_ticks(rt, alloc, world, kinds, edits, ticks, workers, gate)
}

/// Tick 1 of a world on so many workers.
pub fn crew_tick<R: Threads + Wait + Sync, G: Gate + Sync>(
    rt: &R,
    world: &mut World,
    kinds: &Kinds,
    edits: &[Edit],
    workers: u32,
    gate: &G,
) -> Result<u64, Fault>
    requires { IsPlain world.old }
{
    if kinds.count() < 11 {
        return Err(Fault::BadTable);
    }
    if !all_fit(world, kinds, edits) {
        return Err(Fault::EditOutside(0));
    }
    tick(rt, world, kinds, 1, edits, workers, gate)
}

/// Why a broken world's tick and run are refused on so many workers.
pub fn broken_refusals<R: Threads + Wait + Sync, G: Gate + Sync>(
    rt: &R,
    alloc: Global,
    world: &mut World,
    kinds: &Kinds,
    edits: &[Edit],
    workers: u32,
    gate: &G,
) -> Result<(Option<Fault>, Option<Fault>), Fault> {
    if !world.broken() {
        return Err(Fault::BadCount);
    }
    let ticked = tick(rt, world, kinds, 1, edits, workers, gate).err();
    if !world.broken() {
        return Err(Fault::BadCount);
    }
    let ran = run_ticks(rt, alloc, world, kinds, edits, 6, workers, gate).err();
    Ok((ticked, ran))
}

/// A world after ticks 1 to `ticks` on so many workers.
pub fn crew_ran<R: Threads + Wait + Sync, G: Gate + Sync>(
    rt: &R,
    alloc: Global,
    mut world: World,
    kinds: &Kinds,
    edits: &[Edit],
    ticks: u32,
    workers: u32,
    gate: &G,
) -> Result<After, Fault>
    requires { IsPlain world }
{
    let count = crew_run(rt, alloc, &mut world, kinds, edits, ticks, workers, gate)?;
    Ok(After { world, count })
}

/// A flat world after ticks 1 to `ticks` on so many workers, with the edits of a text.
pub fn flat_crew_ran<R: Threads + Wait + Sync, G: Gate + Sync>(
    rt: &R,
    alloc: Global,
    chunks: &[ChunkPos],
    lines: &str,
    ticks: u32,
    workers: u32,
    gate: &G,
) -> Result<After, Fault> {
    let world = world_of(alloc, chunks, &[], &[])?;
    let (edits, kinds) = edits_and_kinds(alloc, 1, &world, lines, ticks)?;
    crew_ran(
        rt,
        alloc,
        world,
        &kinds,
        edits.as_slice(),
        ticks,
        workers,
        gate,
    )
}

/// The numbers of the blocks at y 61 to 68 of a chunk, by y, z and x.
fn numbers_in(world: &World, chunk: ChunkPos, found: &mut Vec<Option<u16>>) -> Result<(), Fault> {
    for index in 0..2048u32 {
        found.push(world.number_at(block_of(chunk, index)))?;
    }
    Ok(())
}

/// A block of a chunk at y 61 to 68.
fn block_of(chunk: ChunkPos, index: u32) -> Pos
    requires { index < 2048 }
{
    Pos {
        x: chunk.x.wrapping_mul(16).wrapping_add((index % 16) as i32),
        y: (index / 256) as i32 + 61,
        z: chunk
            .z
            .wrapping_mul(16)
            .wrapping_add((index / 16 % 16) as i32),
    }
}

/// The numbers of blocks, and entries.
pub type Contents = (Vec<Option<u16>>, Vec<Entry>);

/// What stands in a world: the numbers of the blocks at y 61 to 68, and the entries, chunk by chunk.
pub fn contents(alloc: Global, world: &World) -> Result<Contents, Fault> {
    let mut numbers = Vec::new(alloc);
    let mut entries = Vec::new(alloc);
    for chunk in world.positions() {
        numbers_in(world, *chunk, &mut numbers)?;
        entries.append(&mut entries_in(alloc, world, *chunk)?)?;
    }
    Ok((numbers, entries))
}
