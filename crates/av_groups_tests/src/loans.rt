//! Ticks in groups by hand, on chunks with stone at y 63 and air elsewhere. What is lent waits until all that is ready is lent too, and
//! then the one that was lent for last is turned and taken back: the reverse of the order of lending.
ghost use Rattle.std.specs.Prelude.{◌<◌, IfOk};
ghost use Rattle.av_world_tests.specs.Flat.{IsPlain};

use crate::cuts::entry;
use crate::turns::turned_in_groups;
use av_cells::Cells;
use av_rules::Kinds;
use av_serial_tests::runs::{edits_and_kinds, turned, world_of};
use av_types::{ChunkPos, Entry, Fault, Pos};
use av_world::World;
use av_world_tests::reads::{list_of, number_at};
use std::alloc::Global;
use std::process::Abort;
use std::test::Fail;

/// Three chunks of a row, two of which are neighbours, and south of each another one.
const CHUNKS: [ChunkPos; 6] = [
    ChunkPos { x: 0, z: 0 },
    ChunkPos { x: 3, z: 0 },
    ChunkPos { x: 4, z: 0 },
    ChunkPos { x: 0, z: 1 },
    ChunkPos { x: 3, z: 1 },
    ChunkPos { x: 4, z: 1 },
];

/// How many blocks a chunk of the game's height has.
const BLOCKS: u32 = 98304;

/// The blocks of a chunk.
fn block_of(chunk: ChunkPos, index: u32) -> Pos
    requires { index < 98304 }
{
    Pos {
        x: chunk.x.wrapping_mul(16).wrapping_add((index % 16) as i32),
        y: (index / 256) as i32 - 64,
        z: chunk
            .z
            .wrapping_mul(16)
            .wrapping_add((index / 16 % 16) as i32),
    }
}

/// Two worlds have the same blocks and the same list in a chunk.
fn expect_same_chunk(rt: &impl Abort, one: &World, other: &World, chunk: ChunkPos) {
    assert_eq!(rt; list_of(one, chunk), list_of(other, chunk));
    for index in 0..BLOCKS {
        let block = block_of(chunk, index);
        assert_eq!(rt; one.number_at(block), other.number_at(block));
    }
}

/// Two worlds are the same.
fn expect_same(rt: &impl Abort, one: &World, other: &World) {
    assert_eq!(rt; one.positions(), other.positions());
    for chunk in one.positions() {
        expect_same_chunk(rt, one, other, *chunk);
    }
}

/// The chunks with a source at each of these entries.
fn with_sources(alloc: Global, sources: &[Entry]) -> Result<World, Fault>
    ensures { IfOk result IsPlain }
{
    let mut at = Vec::new(alloc);
    for source in sources {
        at.push(source.pos)?;
    }
    world_of(alloc, &CHUNKS, at.as_slice(), &[])
}

/// The kinds of air, water and stone.
fn kinds_for(alloc: Global, world: &World) -> Result<Kinds, Fault> {
    let (_, kinds) = edits_and_kinds(alloc, 1, world, "", 0)?;
    Ok(kinds)
}

/// The chunks with these sources after a turn of each of these entries in tick 1, in groups, of which `room` may be lent at once,
/// and that are lent in this order: each behind the number of those that were taken back before. One turn after the other leaves
/// the same.
fn expect_turned_in(
    rt: &impl Abort,
    alloc: Global,
    room: usize,
    sources: &[Entry],
    entries: &[Entry],
    want: &[(usize, usize)],
) -> Result<World, Fault> {
    let world = with_sources(alloc, sources)?;
    let kinds = kinds_for(alloc, &world)?;
    let (left, told) = turned_in_groups(alloc, world, &kinds, 1, entries, room)?;
    assert_eq!(rt; told.as_slice(), want);
    let serial = turned(with_sources(alloc, sources)?, &kinds, 1, entries)?;
    expect_same(rt, &left, &serial);
    Ok(left)
}

/// The same where all groups may be lent at once.
fn expect_turned(
    rt: &impl Abort,
    alloc: Global,
    sources: &[Entry],
    entries: &[Entry],
    want: &[(usize, usize)],
) -> Result<World, Fault> {
    expect_turned_in(rt, alloc, entries.len(), sources, entries, want)
}

/// A block at y 64, by its x and z.
type Column = (i32, i32);

/// Blocks have a number.
fn expect_numbers(rt: &impl Abort, world: &World, number: u16, columns: &[Column]) {
    for (x, z) in columns {
        let block = Pos {
            x: *x,
            y: 64,
            z: *z,
        };
        assert_eq!(rt; number_at(world, block), Some(number), "({x}, 64, {z})");
    }
}

/// A chunk's entries are of these blocks, in this order, and due in tick 6.
fn expect_list(rt: &impl Abort, world: &World, chunk: ChunkPos, columns: &[Column]) {
    let list = list_of(world, chunk);
    assert_eq!(rt; list.len(), columns.len());
    for (one, (x, z)) in list.iter().zip(columns) {
        let want = Entry {
            due: 6,
            ..entry(*x, *z)
        };
        assert_eq!(rt; *one, want);
    }
}

/// Two sources in the middle of chunks, and two that share a chunk each with one of those: the second and the fourth group
/// touch the chunks of the first and the third.
fn four() -> [Entry; 4] {
    [entry(8, 8), entry(8, 16), entry(72, 8), entry(72, 16)]
}

/// The blocks at distance 1 of the four sources.
const AROUND: [Column; 16] = [
    (8, 7),
    (7, 8),
    (9, 8),
    (8, 9),
    (8, 15),
    (7, 16),
    (9, 16),
    (8, 17),
    (72, 7),
    (71, 8),
    (73, 8),
    (72, 9),
    (72, 15),
    (71, 16),
    (73, 16),
    (72, 17),
];

/// What waits then, for each chunk. The turn of a source wakes those to its north, itself, and those to its south, west and east,
/// and the entries of the second group come behind those of the first.
const LISTS: [&[Column]; 6] = [
    &[(8, 7), (8, 8), (8, 9), (7, 8), (9, 8), (8, 15)],
    &[],
    &[(72, 7), (72, 8), (72, 9), (71, 8), (73, 8), (72, 15)],
    &[(8, 16), (8, 17), (7, 16), (9, 16)],
    &[],
    &[(72, 16), (72, 17), (71, 16), (73, 16)],
];

/// At first groups 0 and 2 are lent for, which share no chunk with earlier ones. Group 3 is lent for once group 2 is taken back,
/// and group 1, which waits for group 0, at the end. None is lent for twice.
#[test]
fn groups_wait_for_those_whose_chunks_they_share(rt: HostRuntime) -> Result<(), Fail> {
    let want = [(0, 0), (0, 2), (1, 3), (3, 1)];
    let sources = four();
    let world = expect_turned(&rt, rt.alloc(), &sources, &sources, &want)?;
    expect_numbers(&rt, &world, 1, &[(8, 8), (8, 16), (72, 8), (72, 16)]);
    expect_numbers(&rt, &world, 2, &AROUND);
    for (chunk, list) in CHUNKS.iter().zip(&LISTS) {
        expect_list(&rt, &world, *chunk, list);
    }
    Ok(())
}

/// Where one group may be lent at once, group 2 is not lent for before group 0 is back, and group 1, which then waits for none, comes
/// before it.
#[test]
fn no_more_groups_are_lent_at_once_than_may_be(rt: HostRuntime) -> Result<(), Fail> {
    let want = [(0, 0), (1, 1), (2, 2), (3, 3)];
    let sources = four();
    expect_turned_in(&rt, rt.alloc(), 1, &sources, &sources, &want)?;
    Ok(())
}

/// A source, another one that shares its chunk, and the block south of the first source are three groups. All of them touch a
/// chunk, and each waits for the one before. The last one turns water that the first made: it spreads to distance 2.
#[test]
fn a_group_turns_what_those_before_it_made(rt: HostRuntime) -> Result<(), Fail> {
    let (first, second, south) = (entry(8, 8), entry(8, 16), entry(8, 9));
    let entries = [first, second, south];
    let want = [(0, 0), (1, 1), (2, 2)];
    let world = expect_turned(&rt, rt.alloc(), &[first, second], &entries, &want)?;
    expect_numbers(&rt, &world, 2, &[(8, 9)]);
    expect_numbers(&rt, &world, 3, &[(8, 10), (7, 9), (9, 9)]);
    Ok(())
}

/// Sources in the middle of two neighbours, the eastern one first, and one at the corner where four chunks meet. The third group waits
/// for the western chunk first, and when that is back, for the eastern one.
#[test]
fn a_group_waits_for_each_of_its_chunks(rt: HostRuntime) -> Result<(), Fail> {
    let sources = [entry(72, 8), entry(56, 8), entry(64, 16)];
    let want = [(0, 0), (0, 1), (2, 2)];
    let world = expect_turned(&rt, rt.alloc(), &sources, &sources, &want)?;
    expect_numbers(&rt, &world, 2, &[(64, 15), (63, 16), (65, 16), (64, 17)]);
    Ok(())
}

/// While the only group is lent for there is nothing to lend, and then all is done.
#[test]
fn a_group_is_lent_for_once(rt: HostRuntime) -> Result<(), Fail> {
    let source = [entry(8, 8)];
    let world = expect_turned(&rt, rt.alloc(), &source, &source, &[(0, 0)])?;
    expect_numbers(&rt, &world, 2, &[(8, 7), (7, 8), (9, 8), (8, 9)]);
    Ok(())
}

/// Without entries all is done at once.
#[test]
fn nothing_is_lent_without_groups(rt: HostRuntime) -> Result<(), Fail> {
    let world = expect_turned(&rt, rt.alloc(), &[entry(8, 8)], &[], &[])?;
    expect_numbers(&rt, &world, 0, &[(8, 7), (7, 8), (9, 8), (8, 9)]);
    Ok(())
}

/// What is due has left all lists before the first turn. The source in the north sets the block next to the other one, whose entry is
/// due too and of a later group: so that one is woken then, before the blocks that its own turn makes. What is due later stays.
#[test]
fn what_is_due_has_left_before_the_first_turn(rt: HostRuntime) -> Result<(), Fail> {
    let alloc = rt.alloc();
    let (north, south) = (entry(8, 15), entry(9, 16));
    let late = Entry {
        due: 6,
        ..entry(4, 4)
    };
    let sources = [north.pos, south.pos];
    let world = world_of(alloc, &CHUNKS, &sources, &[late, north, south])?;
    let kinds = kinds_for(alloc, &world)?;
    let (left, _) = turned_in_groups(alloc, world, &kinds, 1, &[north, south], 2)?;
    let here = [(4, 4), (8, 14), (8, 15), (7, 15), (9, 15)];
    expect_list(&rt, &left, CHUNKS[0], &here);
    let next = [(8, 16), (9, 16), (9, 17), (10, 16)];
    expect_list(&rt, &left, CHUNKS[3], &next);
    Ok(())
}
