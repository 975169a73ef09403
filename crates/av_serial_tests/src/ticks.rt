//! Ticks by hand: their entries, their order, and what is refused.
use crate::runs::{After, applied, edits_and_kinds, flat_ran, ran, ticked, turned, world_of};
use crate::tests::{
    EAST, ORIGIN, W, WetBlock, at, entry, expect_after, expect_list, expect_water, sides, spread,
    waiting,
};
use av_serial::{apply, run_ticks, tick};
use av_types::{ChunkPos, Entry, Fault};
use av_world::World;
use av_world_tests::reads::water_in;
use std::alloc::Global;
use std::process::Abort;
use std::test::Fail;

/// Overdue entries are turned by their own time, so that of tick -3 first. Of two entries of a block the first counts.
#[test]
fn overdue_entries_are_turned_first(rt: HostRuntime) -> Result<(), Fail> {
    let (west, east) = (at(4, 64, 4), at(8, 64, 8));
    let entries = [entry(west, 1), entry(east, -3), entry(east, 9)];
    let world = world_of(rt.alloc(), &[ORIGIN], &[west, east], &entries)?;
    let after = ran(rt.alloc(), 1, world, "", 1)?;
    assert_eq!(rt; after.count, 2);
    let want = [
        (8, 64, 7),
        (8, 64, 8),
        (8, 64, 9),
        (7, 64, 8),
        (9, 64, 8),
        (4, 64, 3),
        (4, 64, 4),
        (4, 64, 5),
        (3, 64, 4),
        (5, 64, 4),
    ];
    expect_list(&rt, &after.world, ORIGIN, 6, &want);
    Ok(())
}

/// Entries that were taken are turned as they are given, also one of a later tick.
#[test]
fn taken_entries_are_turned_as_given(rt: HostRuntime) -> Result<(), Fail> {
    let alloc = rt.alloc();
    let (west, east) = (at(4, 64, 4), at(8, 64, 8));
    let world = world_of(alloc, &[ORIGIN], &[west, east], &[])?;
    let (_, kinds) = edits_and_kinds(alloc, 1, &world, "", 0)?;
    let world = turned(world, &kinds, 1, &[entry(east, 9), entry(west, 1)])?;
    let want = [
        (8, 64, 7),
        (8, 64, 8),
        (8, 64, 9),
        (7, 64, 8),
        (9, 64, 8),
        (4, 64, 3),
        (4, 64, 4),
        (4, 64, 5),
        (3, 64, 4),
        (5, 64, 4),
    ];
    expect_list(&rt, &world, ORIGIN, 6, &want);
    assert_eq!(rt; sides(&world, 64), [Some(2); 4]);
    assert_eq!(rt; water_in(alloc, &world)?.len(), 10);
    Ok(())
}

/// A source at (8, 64, 8) after some ticks, with an entry of it that was there before, due in tick 100.
fn late(alloc: Global, ticks: u32) -> Result<After, Fault> {
    let world = world_of(alloc, &[ORIGIN], &[], &[entry(at(8, 64, 8), 100)])?;
    let lines = "1 8 64 8 minecraft:water[level=0]\n50 8 64 8 minecraft:water[level=0]";
    ran(alloc, 1, world, lines, ticks)
}

/// An entry far in the future hides its block from each waking until it leaves.
#[test]
fn a_late_entry_hides_its_block(rt: HostRuntime) -> Result<(), Fail> {
    let before = late(rt.alloc(), 99)?;
    expect_after(&rt, rt.alloc(), &before, waiting(100))?;
    Ok(())
}

/// Its turn is then as any.
#[test]
fn a_late_entry_leaves(rt: HostRuntime) -> Result<(), Fail> {
    let after = late(rt.alloc(), 100)?;
    expect_after(&rt, rt.alloc(), &after, spread(105))?;
    Ok(())
}

/// An entry that is due in this very tick hides its block from an edit of this tick, since entries leave after the edits.
#[test]
fn an_entry_due_now_hides_its_block(rt: HostRuntime) -> Result<(), Fail> {
    let alloc = rt.alloc();
    let world = world_of(alloc, &[ORIGIN], &[], &[entry(at(8, 64, 8), 1)])?;
    let after = ran(alloc, 1, world, W, 1)?;
    expect_after(&rt, alloc, &after, spread(6))?;
    Ok(())
}

/// A million ticks of dry chunks with these entries take so many of them.
fn expect_idle(
    rt: &impl Abort,
    alloc: Global,
    entries: &[Entry],
    count: u128,
) -> Result<(), Fault> {
    let chunks = [
        ORIGIN,
        EAST,
        ChunkPos { x: 5, z: -7 },
        ChunkPos { x: -40, z: 33 },
    ];
    let world = world_of(alloc, &chunks, &[], entries)?;
    let after = ran(alloc, 1, world, "", 1000000)?;
    assert_eq!(rt; after.count, count);
    expect_water(rt, alloc, &after.world, &[])
}

/// Ticks in which nothing is to be done are soon over, and an entry of a dry block is turned and counted in its tick.
#[test]
fn idle_ticks_are_soon_over(rt: HostRuntime) -> Result<(), Fail> {
    expect_idle(&rt, rt.alloc(), &[], 0)?;
    for (due, count) in [(1000000, 1), (1000001, 0)] {
        expect_idle(&rt, rt.alloc(), &[entry(at(8, 64, 8), due)], count)?;
    }
    Ok(())
}

/// Eleven ticks of a source, one by one: the world, and how many entries each took.
fn ticked_one_by_one(alloc: Global) -> Result<(World, Vec<u64>), Fault> {
    let world = world_of(alloc, &[ORIGIN], &[], &[])?;
    let (edits, kinds) = edits_and_kinds(alloc, 1, &world, W, 11)?;
    ticked(alloc, world, &kinds, edits.as_slice(), 11)
}

/// The water after eleven ticks of a source in one run.
fn water_of_a_run(alloc: Global) -> Result<Vec<WetBlock>, Fault> {
    let run = flat_ran(alloc, &[ORIGIN], W, 11)?;
    water_in(alloc, &run.world)
}

/// Single ticks do what a run of them does: 1 entry is taken in tick 6, and 5 in tick 11.
#[test]
fn ticks_one_by_one(rt: HostRuntime) -> Result<(), Fail> {
    let (world, counts) = ticked_one_by_one(rt.alloc())?;
    assert_eq!(rt;
        counts.as_slice(),
        [0, 0, 0, 0, 0, 1, 0, 0, 0, 0, 5].as_slice()
    );
    let water = water_of_a_run(rt.alloc())?;
    expect_water(&rt, rt.alloc(), &world, water.as_slice())?;
    Ok(())
}

/// The one edit of a source, applied in tick 3.
fn source_applied(rt: &impl Abort, alloc: Global) -> Result<World, Fault> {
    let world = world_of(alloc, &[ORIGIN], &[], &[])?;
    let (edits, kinds) = edits_and_kinds(alloc, 1, &world, W, 1)?;
    assert_eq!(rt; edits.len(), 1);
    applied(world, &kinds, 3, &edits[0])
}

/// An edit is applied in the tick that the call names: its entry is due five ticks later.
#[test]
fn an_edit_is_applied(rt: HostRuntime) -> Result<(), Fail> {
    let world = source_applied(&rt, rt.alloc())?;
    expect_water(&rt, rt.alloc(), &world, &[(8, 64, 8, 0)])?;
    expect_list(&rt, &world, ORIGIN, 8, &[(8, 64, 8)]);
    Ok(())
}

/// A broken world refuses edits and ticks, and stays as it is.
#[test]
fn a_broken_world_refuses(rt: HostRuntime) -> Result<(), Fail> {
    let alloc = rt.alloc();
    let mut world = world_of(alloc, &[ORIGIN], &[], &[entry(at(8, 64, 8), 1)])?;
    let (edits, kinds) = edits_and_kinds(alloc, 1, &world, W, 1)?;
    assert_eq!(rt; edits.len(), 1);
    world.give_up();
    let edits = edits.as_slice();
    assert!(rt; apply(&mut world, &kinds, 1, &edits[0]).err() == Some(Fault::Broken));
    assert!(rt; tick(&mut world, &kinds, 1, edits).err() == Some(Fault::Broken));
    assert!(rt; run_ticks(alloc, &mut world, &kinds, edits, 9).err() == Some(Fault::Broken));
    expect_list(&rt, &world, ORIGIN, 1, &[(8, 64, 8)]);
    expect_water(&rt, alloc, &world, &[])?;
    Ok(())
}
