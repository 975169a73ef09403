//! Chunks that are lent and taken back, by hand.
ghost use Rattle.std.specs.Prelude.{◌≡◌, ◌<◌, true, All, IfOk, length};
ghost use Rattle.av_world.specs.Index.{slot};
ghost use Rattle.av_world.specs.Views.{positions_of};
ghost use Rattle.av_world_tests.specs.Flat.{IsPlain};

use crate::flat::{SOURCE, STONE};
use crate::tests::{EAST, FIRST, SOUTH, at, expect_list, expect_numbers};
use crate::worlds::{flat_world, put, wait};
use av_cells::Cells;
use av_types::{ChunkPos, Entry, Fault, Height, Pos};
use av_world::World;
use std::alloc::Global;
use std::process::Abort;
use std::test::Fail;

/// Whether a chunk is there.
fn is_there(world: &World, at: ChunkPos) -> bool
    ensures { result ≡ true → slot (positions_of world.now) at < length (positions_of world.now) }
{
    match world.index_of(at) {
        Some(_) => true,
        None => false,
    }
}

/// Whether each of these chunks is there.
fn are_there(world: &World, chunks: &[ChunkPos]) -> bool
    ensures { result ≡ true → All (λ c. slot (positions_of world.now) c
        < length (positions_of world.now)) chunks.now }
{
    for at in chunks {
        if !is_there(world, *at) {
            return false;
        }
    }
    true
}

/// Lends a chunk, where it is there.
fn lend_one(world: &mut World, at: ChunkPos) -> Result<World, Fault> {
    if !is_there(world, at) {
        return Err(Fault::EditOutside(0));
    }
    let lent = world.lend(&[at])?;
    Ok(lent)
}

/// Lends two chunks, where they are there and not the same.
fn lend_two(world: &mut World, a: ChunkPos, b: ChunkPos) -> Result<World, Fault> {
    if !is_there(world, a) {
        return Err(Fault::EditOutside(0));
    }
    if !is_there(world, b) {
        return Err(Fault::EditOutside(0));
    }
    if a == b {
        return Err(Fault::BadCount);
    }
    let lent = world.lend(&[a, b])?;
    Ok(lent)
}

/// Takes a lent world back, where its chunks are there and its height is the same.
fn take_back(world: &mut World, lent: World) -> Result<(), Fault> {
    if world.height() != lent.height() {
        return Err(Fault::BadCount);
    }
    if !are_there(world, lent.positions()) {
        return Err(Fault::EditOutside(0));
    }
    world.take_back(lent);
    Ok(())
}

/// Sets a loaded block of a lent world, and wakes none.
fn set_lent(lent: &mut World, pos: Pos, number: u16) -> Result<(), Fault> {
    if !lent.loaded(pos) {
        return Err(Fault::EditOutside(0));
    }
    lent.prepare_set(pos, number)?;
    lent.set(pos, number);
    Ok(())
}

/// Adds an entry of a loaded block of a lent world, and says whether it did.
fn wait_lent(lent: &mut World, entry: Entry) -> Result<bool, Fault> {
    if !lent.loaded(entry.pos) {
        return Err(Fault::EditOutside(0));
    }
    lent.prepare_set(entry.pos, 0)?;
    Ok(lent.add(entry))
}

/// An entry of FIRST, and one of EAST, which waits at the source.
const HERE: Entry = Entry {
    pos: Pos { x: 8, y: 64, z: 8 },
    due: 5,
    priority: 0,
};

const AT_SOURCE: Entry = Entry {
    pos: Pos { x: 20, y: 64, z: 5 },
    due: 7,
    priority: 0,
};

/// Another entry of EAST, and one of SOUTH. They come while the chunks are lent.
const LATER: Entry = Entry {
    pos: Pos {
        x: 31,
        y: 64,
        z: 15,
    },
    due: 3,
    priority: 0,
};

const SOUTHERN: Entry = Entry {
    pos: Pos { x: 3, y: 64, z: 18 },
    due: 9,
    priority: 0,
};

/// FIRST, EAST with a source, and SOUTH. In the first two an entry waits.
fn three_chunks(alloc: Global) -> Result<World, Fault>
    ensures { IfOk result IsPlain }
{
    let mut world = flat_world(alloc, Height::game(), &[FIRST, EAST, SOUTH])?;
    put(&mut world, AT_SOURCE.pos, SOURCE)?;
    wait(&mut world, HERE)?;
    wait(&mut world, AT_SOURCE)?;
    Ok(world)
}

/// Each of these blocks is loaded, or is not.
fn expect_loaded(rt: &impl Abort, world: &World, blocks: &[(Pos, bool)]) {
    for (pos, want) in blocks {
        assert_eq!(rt; world.loaded(*pos), *want, "{pos:?}");
    }
}

/// These entries wait in FIRST, EAST and SOUTH, in order.
fn expect_lists(rt: &impl Abort, world: &World, first: &[Entry], east: &[Entry], south: &[Entry]) {
    expect_list(rt, world, FIRST, first);
    expect_list(rt, world, EAST, east);
    expect_list(rt, world, SOUTH, south);
}

/// A world has all of `three_chunks`, as they were made.
fn expect_unchanged(rt: &impl Abort, world: &World) {
    assert_eq!(rt; world.positions(), [FIRST, EAST, SOUTH].as_slice());
    let numbers = [
        (HERE.pos, Some(0)),
        (at(8, 63, 8), Some(STONE)),
        (AT_SOURCE.pos, Some(SOURCE)),
        (at(20, 63, 5), Some(STONE)),
        (SOUTHERN.pos, Some(0)),
        (at(3, 63, 18), Some(STONE)),
    ];
    expect_numbers(rt, world, numbers.as_slice());
    expect_lists(rt, world, &[HERE], &[AT_SOURCE], &[]);
    let waits = (world.pending(HERE.pos), world.pending(AT_SOURCE.pos));
    assert_eq!(rt; waits, (true, true));
}

/// Lent chunks are a world of their own, by z and then by x, with their blocks and entries.
#[test]
fn lent_chunks_are_a_world_of_their_own(rt: HostRuntime) -> Result<(), Fail> {
    let mut world = three_chunks(rt.alloc())?;
    let lent = lend_two(&mut world, SOUTH, EAST)?;
    assert_eq!(rt; lent.positions(), [EAST, SOUTH].as_slice());
    let numbers = [
        (AT_SOURCE.pos, Some(SOURCE)),
        (at(20, 63, 5), Some(STONE)),
        (SOUTHERN.pos, Some(0)),
        (at(3, 63, 18), Some(STONE)),
        (HERE.pos, None),
        (at(8, 63, 8), None),
    ];
    expect_numbers(&rt, &lent, numbers.as_slice());
    expect_lists(&rt, &lent, &[], &[AT_SOURCE], &[]);
    let state = (lent.height(), lent.broken(), lent.pending(AT_SOURCE.pos));
    assert_eq!(rt; state, (Height::game(), false, true));
    Ok(())
}

/// What a broken world lends is broken too, and refuses what a broken world refuses.
#[test]
fn a_broken_world_lends_a_broken_part(rt: HostRuntime) -> Result<(), Fail> {
    let mut world = three_chunks(rt.alloc())?;
    world.give_up();
    let mut lent = lend_one(&mut world, EAST)?;
    assert_eq!(rt; (world.broken(), lent.broken()), (true, true));
    assert!(rt; lent.take_due(7).err() == Some(Fault::Broken));
    expect_numbers(&rt, &lent, &[(AT_SOURCE.pos, Some(SOURCE))]);
    expect_lists(&rt, &lent, &[], &[AT_SOURCE], &[]);
    Ok(())
}

/// In the world that lent them, chunks keep their places, but neither blocks nor entries. The others are as before.
#[test]
fn lent_chunks_are_out(rt: HostRuntime) -> Result<(), Fail> {
    let mut world = three_chunks(rt.alloc())?;
    let _ = lend_two(&mut world, SOUTH, EAST)?;
    assert_eq!(rt; world.positions(), [FIRST, EAST, SOUTH].as_slice());
    let blocks = [
        (HERE.pos, true),
        (at(0, -64, 0), true),
        (at(15, 319, 15), true),
        (AT_SOURCE.pos, false),
        (at(16, -64, 0), false),
        (at(31, 319, 15), false),
        (SOUTHERN.pos, false),
        (at(0, -64, 16), false),
        (at(15, 319, 31), false),
    ];
    expect_loaded(&rt, &world, blocks.as_slice());
    expect_lists(&rt, &world, &[HERE], &[], &[]);
    let here = (world.number_at(at(8, 63, 8)), world.pending(HERE.pos));
    assert_eq!(rt; here, (Some(STONE), true));
    Ok(())
}

/// Blocks of both chunks are set and entries added.
fn change_both(lent: &mut World) -> Result<(), Fault> {
    set_lent(lent, LATER.pos, 2)?;
    set_lent(lent, SOUTHERN.pos, 9)?;
    wait_lent(lent, LATER)?;
    wait_lent(lent, SOUTHERN)?;
    Ok(())
}

/// Chunks come back as the lent world has them then, and the others are as before.
#[test]
fn lent_chunks_come_back_as_they_are(rt: HostRuntime) -> Result<(), Fail> {
    let mut world = three_chunks(rt.alloc())?;
    let mut lent = lend_two(&mut world, SOUTH, EAST)?;
    change_both(&mut lent)?;
    take_back(&mut world, lent)?;
    assert_eq!(rt; world.positions(), [FIRST, EAST, SOUTH].as_slice());
    let numbers = [
        (at(8, 63, 8), Some(STONE)),
        (HERE.pos, Some(0)),
        (AT_SOURCE.pos, Some(SOURCE)),
        (LATER.pos, Some(2)),
        (SOUTHERN.pos, Some(9)),
        (at(3, 63, 18), Some(STONE)),
    ];
    expect_numbers(&rt, &world, numbers.as_slice());
    expect_lists(&rt, &world, &[HERE], &[AT_SOURCE, LATER], &[SOUTHERN]);
    Ok(())
}

/// A chunk that came back may be lent again. Where nothing was changed, the world is as before.
#[test]
fn a_chunk_is_lent_twice(rt: HostRuntime) -> Result<(), Fail> {
    let mut world = three_chunks(rt.alloc())?;
    for _ in 0..2 {
        let lent = lend_one(&mut world, EAST)?;
        assert_eq!(rt; lent.positions(), [EAST].as_slice());
        assert_eq!(rt; lent.number_at(AT_SOURCE.pos), Some(SOURCE));
        expect_lists(&rt, &lent, &[], &[AT_SOURCE], &[]);
        take_back(&mut world, lent)?;
        expect_unchanged(&rt, &world);
    }
    Ok(())
}

/// A world takes chunks back that it never lent. What stood there is gone, and is not left there by what is lent afterwards.
#[test]
fn a_chunk_comes_from_another_world(rt: HostRuntime) -> Result<(), Fail> {
    let mut world = three_chunks(rt.alloc())?;
    let other = flat_world(rt.alloc(), Height::game(), &[EAST])?;
    take_back(&mut world, other)?;
    expect_numbers(&rt, &world, &[(AT_SOURCE.pos, Some(0))]);
    expect_lists(&rt, &world, &[HERE], &[], &[]);
    let _ = lend_one(&mut world, EAST)?;
    let blocks = [(AT_SOURCE.pos, false), (at(20, 63, 5), false)];
    expect_loaded(&rt, &world, blocks.as_slice());
    expect_lists(&rt, &world, &[HERE], &[], &[]);
    Ok(())
}

/// A world comes back, and then another. A block of each is loaded from then on.
fn take_both(
    rt: &impl Abort,
    world: &mut World,
    first: (World, Pos),
    second: (World, Pos),
) -> Result<(), Fault> {
    let (sooner, a) = first;
    let (later, b) = second;
    expect_loaded(rt, world, &[(a, false), (b, false)]);
    take_back(world, sooner)?;
    expect_loaded(rt, world, &[(a, true), (b, false)]);
    take_back(world, later)?;
    expect_loaded(rt, world, &[(a, true), (b, true)]);
    Ok(())
}

/// Worlds that were lent one after the other come back in either order.
#[test]
fn lent_worlds_come_back_in_any_order(rt: HostRuntime) -> Result<(), Fail> {
    let mut world = three_chunks(rt.alloc())?;
    let east = lend_one(&mut world, EAST)?;
    let south = lend_one(&mut world, SOUTH)?;
    take_both(
        &rt,
        &mut world,
        (east, AT_SOURCE.pos),
        (south, SOUTHERN.pos),
    )?;
    expect_unchanged(&rt, &world);
    let east = lend_one(&mut world, EAST)?;
    let south = lend_one(&mut world, SOUTH)?;
    take_both(
        &rt,
        &mut world,
        (south, SOUTHERN.pos),
        (east, AT_SOURCE.pos),
    )?;
    expect_unchanged(&rt, &world);
    Ok(())
}

/// The chunk of which each block has negative x and z.
const BEHIND: ChunkPos = ChunkPos { x: -1, z: -1 };

/// A chunk at negative coordinates is lent and comes back.
#[test]
fn a_chunk_behind_the_origin_is_lent(rt: HostRuntime) -> Result<(), Fail> {
    let mut world = flat_world(rt.alloc(), Height::game(), &[FIRST, BEHIND])?;
    put(&mut world, at(-1, 64, -1), SOURCE)?;
    let mut lent = lend_two(&mut world, FIRST, BEHIND)?;
    assert_eq!(rt; lent.positions(), [BEHIND, FIRST].as_slice());
    set_lent(&mut lent, at(-16, 64, -16), 9)?;
    take_back(&mut world, lent)?;
    let numbers = [
        (at(-1, 64, -1), Some(SOURCE)),
        (at(-16, 64, -16), Some(9)),
        (at(0, 64, 0), Some(0)),
        (at(15, 63, 15), Some(STONE)),
        (at(-17, 64, -16), None),
    ];
    expect_numbers(&rt, &world, numbers.as_slice());
    Ok(())
}
