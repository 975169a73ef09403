//! Ticks on several workers by hand, on chunks with stone at y 63 and air elsewhere.
use crate::crews::{
    Contents, broken_refusals, contents, crew_ran, crew_run, crew_tick, flat_crew_ran,
};
use crate::gates::Counting;
use av_cells::Cells;
use av_crew::{Gate, NoGate};
use av_edits::Edit;
use av_rules::Kinds;
use av_serial_tests::runs::{edits_and_kinds, flat_ran, world_of};
use av_types::{ChunkPos, Entry, Fault, Pos};
use av_world::World;
use av_world_tests::reads::entries_in;
use std::alloc::Global;
use std::process::Abort;
use std::sync::Wait;
use std::test::Fail;
use std::thread::Threads;

/// Four chunks in a row.
const ROW: [ChunkPos; 4] = [
    ChunkPos { x: 0, z: 0 },
    ChunkPos { x: 1, z: 0 },
    ChunkPos { x: 2, z: 0 },
    ChunkPos { x: 3, z: 0 },
];

/// A source in the middle of each of them.
const FOUR: &str = "1 8 64 8 minecraft:water[level=0]
1 24 64 8 minecraft:water[level=0]
1 40 64 8 minecraft:water[level=0]
1 56 64 8 minecraft:water[level=0]";

const W: &str = "1 8 64 8 minecraft:water[level=0]";

/// An entry of the same block.
const WAITING: Entry = Entry {
    pos: Pos { x: 8, y: 64, z: 8 },
    due: 1,
    priority: 0,
};

/// The source at `middle` of a chunk spread to its four sides, and these five blocks wait.
fn expect_spread(
    rt: &impl Abort,
    alloc: Global,
    world: &World,
    chunk: ChunkPos,
    middle: i32,
) -> Result<(), Fault> {
    let (west, east) = (middle.wrapping_sub(1), middle.wrapping_add(1));
    let spread = [
        (middle, 7, 2),
        (middle, 8, 1),
        (middle, 9, 2),
        (west, 8, 2),
        (east, 8, 2),
    ];
    let list = entries_in(alloc, world, chunk)?;
    assert_eq!(rt; list.len(), 5);
    for (entry, (x, z, number)) in list.iter().zip(&spread) {
        let pos = Pos {
            x: *x,
            y: 64,
            z: *z,
        };
        let want = Entry {
            pos,
            due: 11,
            priority: 0,
        };
        assert_eq!(rt; *entry, want);
        assert_eq!(rt; world.number_at(pos), Some(*number));
    }
    Ok(())
}

/// The sources of four chunks in a row spread, and all that stands there is this.
fn expect_four(
    rt: &impl Abort,
    alloc: Global,
    world: &World,
    want: &Contents,
) -> Result<(), Fault> {
    for (chunk, middle) in ROW.iter().zip(&[8, 24, 40, 56]) {
        expect_spread(rt, alloc, world, *chunk, *middle)?;
    }
    assert!(rt; contents(alloc, world)? == *want);
    Ok(())
}

/// Four sources spread by any number of workers, with a gate.
fn expect_four_with<R: Threads + Wait + Sync + Abort, G: Gate + Sync>(
    rt: &R,
    alloc: Global,
    gate: &G,
) -> Result<(), Fault> {
    let serial = contents(alloc, &flat_ran(alloc, &ROW, FOUR, 6)?.world)?;
    for workers in [1, 2, 3, 8] {
        let after = flat_crew_ran(rt, alloc, &ROW, FOUR, 6, workers, gate)?;
        assert_eq!(rt; after.count, 4);
        expect_four(rt, alloc, &after.world, &serial)?;
    }
    Ok(())
}

/// Four parts, which are worked off where a gate watches; else the world itself is turned.
#[test]
fn four_sources_spread(rt: HostRuntime) -> Result<(), Fail> {
    let alloc = rt.alloc();
    expect_four_with(&rt, alloc, &NoGate)?;
    let gate = Counting::of(true);
    expect_four_with(&rt, alloc, &gate)?;
    assert_eq!(rt; gate.count(), 16);
    Ok(())
}

/// A source at (8, 64, 8) in tick 1 was not set, and the one entry that waits is still there.
fn expect_untouched(rt: &impl Abort, alloc: Global, world: &World) -> Result<(), Fault> {
    assert_eq!(rt; world.number_at(WAITING.pos), Some(0));
    let list = entries_in(alloc, world, ROW[0])?;
    assert_eq!(rt; list.as_slice(), [WAITING].as_slice());
    Ok(())
}

/// With so many workers a tick is refused, and nothing is done.
fn expect_no_tick<R: Threads + Wait + Sync + Abort>(
    rt: &R,
    alloc: Global,
    kinds: &Kinds,
    edits: &[Edit],
    workers: u32,
) -> Result<(), Fault> {
    let mut world = world_of(alloc, &ROW, &[], &[WAITING])?;
    let fault = crew_tick(rt, &mut world, kinds, edits, workers, &NoGate).err();
    assert!(rt; fault == Some(Fault::BadCount));
    expect_untouched(rt, alloc, &world)
}

/// With so many workers a run is refused, and nothing is done.
fn expect_no_run<R: Threads + Wait + Sync + Abort>(
    rt: &R,
    alloc: Global,
    kinds: &Kinds,
    edits: &[Edit],
    workers: u32,
) -> Result<(), Fault> {
    let mut world = world_of(alloc, &ROW, &[], &[WAITING])?;
    let fault = crew_run(rt, alloc, &mut world, kinds, edits, 6, workers, &NoGate).err();
    assert!(rt; fault == Some(Fault::BadCount));
    expect_untouched(rt, alloc, &world)
}

/// With other numbers of workers than 1 to 8 nothing is done.
#[test]
fn other_numbers_of_workers_are_refused(rt: HostRuntime) -> Result<(), Fail> {
    let alloc = rt.alloc();
    let flat = world_of(alloc, &ROW, &[], &[])?;
    let (edits, kinds) = edits_and_kinds(alloc, 1, &flat, W, 1)?;
    for workers in [0, 9, 4294967295] {
        expect_no_tick(&rt, alloc, &kinds, &edits, workers)?;
        expect_no_run(&rt, alloc, &kinds, &edits, workers)?;
    }
    Ok(())
}

/// A broken world's tick and run are refused for this fault by so many workers.
fn expect_refused<R: Threads + Wait + Sync + Abort>(
    rt: &R,
    alloc: Global,
    world: &mut World,
    kinds: &Kinds,
    edits: &[Edit],
    workers: u32,
    fault: &Fault,
) -> Result<(), Fault> {
    let (ticked, ran) = broken_refusals(rt, alloc, world, kinds, edits, workers, &NoGate)?;
    assert!(rt; ticked.as_ref() == Some(fault));
    assert!(rt; ran.as_ref() == Some(fault));
    Ok(())
}

/// A broken world refuses ticks and stays as it is. A wrong number of workers is judged before.
#[test]
fn a_broken_world_refuses(rt: HostRuntime) -> Result<(), Fail> {
    let alloc = rt.alloc();
    let mut world = world_of(alloc, &ROW, &[], &[WAITING])?;
    let (edits, kinds) = edits_and_kinds(alloc, 1, &world, W, 1)?;
    world.give_up();
    for workers in [1, 4, 8] {
        expect_refused(
            &rt,
            alloc,
            &mut world,
            &kinds,
            &edits,
            workers,
            &Fault::Broken,
        )?;
    }
    for workers in [0, 9] {
        expect_refused(
            &rt,
            alloc,
            &mut world,
            &kinds,
            &edits,
            workers,
            &Fault::BadCount,
        )?;
    }
    expect_untouched(&rt, alloc, &world)?;
    Ok(())
}

/// Ticks without parts start no thread, and a million of them are soon over.
#[test]
fn idle_ticks_are_soon_over(rt: HostRuntime) -> Result<(), Fail> {
    let after = flat_crew_ran(&rt, rt.alloc(), &ROW, "", 1000000, 8, &NoGate)?;
    assert_eq!(rt; after.count, 0);
    Ok(())
}

/// The same with an entry in the last of them.
#[test]
fn idle_ticks_come_before_the_last(rt: HostRuntime) -> Result<(), Fail> {
    let alloc = rt.alloc();
    let entry = Entry {
        pos: Pos { x: 8, y: 64, z: 8 },
        due: 1000000,
        priority: 0,
    };
    let world = world_of(alloc, &ROW, &[], &[entry])?;
    let (_, kinds) = edits_and_kinds(alloc, 1, &world, "", 0)?;
    let after = crew_ran(&rt, alloc, world, &kinds, &[], 1000000, 8, &NoGate)?;
    assert_eq!(rt; after.count, 1);
    Ok(())
}
