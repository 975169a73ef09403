//! Worlds by hand.
ghost use Rattle.std.specs.Prelude.{IfOk};
ghost use Rattle.av_world_tests.specs.Flat.{IsPlain};

use crate::flat::{SOURCE, STONE, stone_table};
use crate::reads::list_of;
use crate::worlds::{flat_world, made_of, put, wait, wait_all};
use av_cells::Cells;
use av_rules::{Kinds, Rules};
use av_types::{ChunkPos, Entry, Fault, Height, Pos};
use av_world::World;
use std::alloc::Global;
use std::process::Abort;
use std::test::Fail;

pub(crate) const FIRST: ChunkPos = ChunkPos { x: 0, z: 0 };

pub(crate) const EAST: ChunkPos = ChunkPos { x: 1, z: 0 };

pub(crate) const SOUTH: ChunkPos = ChunkPos { x: 0, z: 1 };

pub(crate) fn at(x: i32, y: i32, z: i32) -> Pos {
    Pos { x, y, z }
}

fn chunk(x: i32, z: i32) -> ChunkPos {
    ChunkPos { x, z }
}

pub(crate) fn entry(pos: Pos, due: i64, priority: i32) -> Entry {
    Entry { pos, due, priority }
}

pub(crate) fn kinds(alloc: Global) -> Result<Kinds, Fault> {
    let rules = Rules::read(alloc, b"version = 1")?;
    Kinds::new(alloc, stone_table(alloc)?, &rules)
}

/// The entries of a chunk's list are these, in order.
pub(crate) fn expect_list(rt: &impl Abort, world: &World, chunk: ChunkPos, want: &[Entry]) {
    assert_eq!(rt; list_of(world, chunk), want, "the list of {chunk:?}");
}

/// Each of these chunks has its place among them.
fn expect_places(rt: &impl Abort, world: &World, chunks: &[ChunkPos]) {
    assert_eq!(rt; world.positions(), chunks);
    for (index, at) in chunks.iter().enumerate() {
        assert_eq!(rt; world.index_of(*at), Some(index));
    }
}

/// None of these chunks is there.
fn expect_absent(rt: &impl Abort, world: &World, chunks: &[ChunkPos]) {
    for at in chunks {
        assert_eq!(rt; world.index_of(*at), None);
    }
}

/// Chunks stand by z and then by x, in whatever order they came.
#[test]
fn chunks_stand_by_z_and_then_by_x(rt: HostRuntime) -> Result<(), Fail> {
    let came = [EAST, SOUTH, chunk(-1, 0), chunk(0, -1), FIRST];
    let world = flat_world(rt.alloc(), Height::game(), came.as_slice())?;
    let want = [chunk(0, -1), chunk(-1, 0), FIRST, EAST, SOUTH];
    expect_places(&rt, &world, want.as_slice());
    expect_absent(&rt, &world, &[chunk(1, 1), chunk(0, -2), chunk(32, 0)]);
    assert!(rt; !world.broken());
    Ok(())
}

/// Entries of SOUTH come to the second of its chunks alone.
#[test]
fn chunks_are_taken_in_order(rt: HostRuntime) -> Result<(), Fail> {
    let mut world = flat_world(rt.alloc(), Height::game(), &[SOUTH, FIRST])?;
    wait(&mut world, entry(at(0, 64, 16), 9, 0))?;
    let chunks = world.into_chunks();
    let waiting: Vec<usize> = chunks
        .iter()
        .map(|chunk| chunk.ticks.len())
        .collect(rt.alloc())?;
    assert_eq!(rt; waiting.as_slice(), [0usize, 1].as_slice());
    Ok(())
}

/// Blocks with their numbers, in a world of the chunks (0, 0) and (-1, 0). What is not loaded has none.
pub(crate) fn numbers() -> [(Pos, Option<u16>); 17] {
    [
        (at(0, -64, 0), Some(0)),
        (at(0, -65, 0), None),
        (at(15, 319, 15), Some(0)),
        (at(0, 320, 0), None),
        (at(16, 64, 0), None),
        (at(-17, 64, 0), None),
        (at(0, 64, 16), None),
        (at(0, 64, -1), None),
        (at(7, 63, 9), Some(STONE)),
        (at(-16, 63, 0), Some(STONE)),
        (at(7, 62, 9), Some(0)),
        (at(15, 64, 3), Some(SOURCE)),
        (at(-1, 64, 3), Some(0)),
        (at(3, 64, 15), Some(0)),
        (at(15, 48, 3), Some(0)),
        (at(-16, -64, 15), Some(9)),
        (at(0, -64, 15), Some(0)),
    ]
}

/// Each of these blocks has its number.
pub(crate) fn expect_numbers(rt: &impl Abort, world: &World, blocks: &[(Pos, Option<u16>)]) {
    for (pos, want) in blocks {
        assert_eq!(rt; world.number_at(*pos), *want, "{pos:?}");
    }
}

/// Blocks are those of the chunks within the height, and each is read from its own chunk and section.
#[test]
fn blocks_are_those_of_the_chunks(rt: HostRuntime) -> Result<(), Fail> {
    let mut world = flat_world(rt.alloc(), Height::game(), &[FIRST, chunk(-1, 0)])?;
    put(&mut world, at(15, 64, 3), SOURCE)?;
    put(&mut world, at(-16, -64, 15), 9)?;
    expect_numbers(&rt, &world, numbers().as_slice());
    Ok(())
}

/// Whether a block of the first chunk is loaded, at each of four heights.
fn loaded_at(world: &World, heights: [i32; 4]) -> [bool; 4] {
    let [below, low, high, above] = heights;
    [
        world.loaded(at(5, below, 5)),
        world.loaded(at(5, low, 5)),
        world.loaded(at(5, high, 5)),
        world.loaded(at(5, above, 5)),
    ]
}

/// Of four heights a world has the two in the middle, its lowest and its highest. It has the stone of y 63, or not.
fn expect_height(
    rt: &impl Abort,
    alloc: Global,
    height: Height,
    heights: [i32; 4],
    has_stone: bool,
) -> Result<(), Fault> {
    let world = flat_world(alloc, height, &[FIRST])?;
    assert_eq!(rt; world.height(), height);
    assert_eq!(rt; loaded_at(&world, heights), [false, true, true, false]);
    assert_eq!(rt; world.number_at(at(5, 63, 5)).is_some(), has_stone);
    Ok(())
}

/// A world has the sections of its height, however low, high, few or many.
#[test]
fn a_world_has_its_height(rt: HostRuntime) -> Result<(), Fail> {
    let one = Height {
        min_section: 3,
        sections: 1,
    };
    expect_height(&rt, rt.alloc(), one, [47, 48, 63, 64], true)?;
    let most = Height {
        min_section: -64,
        sections: 64,
    };
    expect_height(&rt, rt.alloc(), most, [-1025, -1024, -1, 0], false)?;
    let last = Height {
        min_section: 63,
        sections: 1,
    };
    expect_height(&rt, rt.alloc(), last, [1007, 1008, 1023, 1024], false)?;
    Ok(())
}

/// An entry at y 64.
fn low(x: i32, z: i32, due: i64, priority: i32) -> Entry {
    entry(at(x, 64, z), due, priority)
}

/// Entries of three chunks: four of the first, two in the east and two in the south.
fn eight() -> [Entry; 8] {
    [
        low(0, 0, 6, -5),
        low(1, 0, 5, 0),
        low(2, 0, 5, 0),
        low(3, 0, 7, 0),
        low(16, 0, 5, 0),
        low(17, 0, 5, -1),
        low(0, 16, 5, 0),
        low(1, 16, -3, 2),
    ]
}

/// Three chunks in which these entries wait.
fn eight_entries(alloc: Global) -> Result<World, Fault>
    ensures { IfOk result IsPlain }
{
    let [a, b, c, late, d, e, f, g] = eight();
    let mut world = flat_world(alloc, Height::game(), &[SOUTH, EAST, FIRST])?;
    wait_all(&mut world, &[a, d, f, late, b, e, g, c])?;
    Ok(world)
}

/// Each in its chunk's list, in the order in which they came, and one of a block at most.
#[test]
fn entries_wait_in_their_chunks_lists(rt: HostRuntime) -> Result<(), Fail> {
    let [a, b, c, late, _, _, f, g] = eight();
    let mut world = eight_entries(rt.alloc())?;
    assert!(rt; !wait(&mut world, entry(a.pos, 1, 0))?);
    expect_list(&rt, &world, FIRST, &[a, late, b, c]);
    expect_list(&rt, &world, SOUTH, &[f, g]);
    assert_eq!(rt; world.soonest(), 0);
    Ok(())
}

/// Entries leave by their time, then by priority, the lower first, then by the chunk's z, its x, and place in the list.
#[test]
fn entries_leave_in_order(rt: HostRuntime) -> Result<(), Fail> {
    let [a, b, c, late, d, e, f, g] = eight();
    let mut world = eight_entries(rt.alloc())?;
    let due = world.take_due(6)?;
    assert_eq!(rt; due.as_slice(), [g, e, b, c, d, f, a].as_slice());
    let waits = (
        world.pending(a.pos),
        world.pending(g.pos),
        world.pending(late.pos),
    );
    assert_eq!(rt; waits, (false, false, true));
    Ok(())
}

/// Those that are due can be asked for, in that order, and stay where they are until they are told to leave.
#[test]
fn due_entries_stay_until_they_leave(rt: HostRuntime) -> Result<(), Fail> {
    let [a, b, c, late, d, e, f, g] = eight();
    let mut world = eight_entries(rt.alloc())?;
    let due = world.due(6)?;
    assert_eq!(rt; due.as_slice(), [g, e, b, c, d, f, a].as_slice());
    expect_list(&rt, &world, FIRST, &[a, late, b, c]);
    assert!(rt; world.pending(a.pos));
    world.leave_due(6);
    expect_list(&rt, &world, FIRST, &[late]);
    expect_list(&rt, &world, SOUTH, &[]);
    assert!(rt; !world.pending(a.pos));
    Ok(())
}

/// One that is due later stays.
#[test]
fn a_later_entry_stays(rt: HostRuntime) -> Result<(), Fail> {
    let [_, _, _, late, _, _, _, _] = eight();
    let mut world = eight_entries(rt.alloc())?;
    let _ = world.take_due(6)?;
    expect_list(&rt, &world, FIRST, &[late]);
    expect_list(&rt, &world, EAST, &[]);
    expect_list(&rt, &world, SOUTH, &[]);
    assert_eq!(rt; world.soonest(), 7);
    assert_eq!(rt; world.take_due(6)?.len(), 0);
    Ok(())
}

/// Two chunks, in which an entry waits, and to which others were appended.
fn appended(alloc: Global, waiting: Entry, entries: &[Entry]) -> Result<World, Fault> {
    let mut world = flat_world(alloc, Height::game(), &[FIRST, EAST])?;
    wait(&mut world, waiting)?;
    let made = made_of(alloc, &world, entries)?;
    world.append(made.as_slice())?;
    Ok(world)
}

/// Each of these entries waits.
fn expect_pending(rt: &impl Abort, world: &World, entries: &[Entry]) {
    for entry in entries {
        assert!(rt; world.pending(entry.pos));
    }
}

/// Entries that turns made come to the ends of their chunks' lists, in the order given.
#[test]
fn entries_are_appended_in_order(rt: HostRuntime) -> Result<(), Fail> {
    let here = entry(at(5, 64, 5), 100, 0);
    let a = entry(at(9, 64, 9), 6, 0);
    let b = entry(at(20, 64, 1), 6, 0);
    let c = entry(at(1, 64, 1), 6, 0);
    let d = entry(at(16, 64, 1), 6, 0);
    let world = appended(rt.alloc(), here, &[a, b, c, d])?;
    expect_list(&rt, &world, FIRST, &[here, a, c]);
    expect_list(&rt, &world, EAST, &[b, d]);
    expect_pending(&rt, &world, &[here, a, b, c, d]);
    assert!(rt; !world.pending(at(2, 64, 1)));
    Ok(())
}

/// The first chunk, in which an entry waits.
pub(crate) fn one_waiting(alloc: Global, entry: Entry) -> Result<World, Fault>
    ensures { IfOk result IsPlain }
{
    let mut world = flat_world(alloc, Height::game(), &[FIRST])?;
    wait(&mut world, entry)?;
    Ok(world)
}

/// Each call that changes a broken world is refused for that.
fn expect_refusals(rt: &impl Abort, world: &mut World) {
    assert!(rt; world.take_due(5).err() == Some(Fault::Broken));
    assert!(rt; world.append(&[]).err() == Some(Fault::Broken));
    assert!(rt; world.carve(&[]).err() == Some(Fault::Broken));
}

/// A broken world refuses each call that changes it, and stays as it is.
#[test]
fn a_broken_world_refuses(rt: HostRuntime) -> Result<(), Fail> {
    let here = entry(at(8, 64, 8), 1, 0);
    let mut world = one_waiting(rt.alloc(), here)?;
    world.give_up();
    expect_refusals(&rt, &mut world);
    let state = (
        world.broken(),
        world.loaded(at(8, 64, 8)),
        world.number_at(at(8, 63, 8)),
    );
    assert_eq!(rt; state, (true, true, Some(STONE)));
    expect_list(&rt, &world, FIRST, &[here]);
    Ok(())
}
