//! Water by hand, on one or two chunks with stone at y 63 and air elsewhere. Stone is shut and a floor.
use crate::runs::{After, flat_ran, ran, world_of};
use av_types::{ChunkPos, Entry, Fault, Pos};
use av_world::World;
use av_world_tests::flat::STONE;
use av_world_tests::reads::{list_of, number_at, water_in};
use std::alloc::Global;
use std::process::Abort;
use std::test::Fail;

pub(crate) const ORIGIN: ChunkPos = ChunkPos { x: 0, z: 0 };

pub(crate) const EAST: ChunkPos = ChunkPos { x: 1, z: 0 };

/// A source in tick 1.
pub(crate) const W: &str = "1 8 64 8 minecraft:water[level=0]";

pub(crate) fn at(x: i32, y: i32, z: i32) -> Pos {
    Pos { x, y, z }
}

pub(crate) fn entry(pos: Pos, due: i64) -> Entry {
    Entry {
        pos,
        due,
        priority: 0,
    }
}

/// A block of water with its x, y, z and level.
pub(crate) type WetBlock = (i32, i32, i32, u16);

/// A block by its x, y and z.
pub(crate) type Coordinates = (i32, i32, i32);

/// Exactly these blocks are water, each of a level, by y, z and x.
pub(crate) fn expect_water(
    rt: &impl Abort,
    alloc: Global,
    world: &World,
    want: &[WetBlock],
) -> Result<(), Fault> {
    let water = water_in(alloc, world)?;
    assert_eq!(rt; water.as_slice(), want);
    Ok(())
}

/// A chunk's entries are of these blocks, in this order, all due in one tick.
pub(crate) fn expect_list(
    rt: &impl Abort,
    world: &World,
    chunk: ChunkPos,
    due: i64,
    want: &[Coordinates],
) {
    let list = list_of(world, chunk);
    assert_eq!(rt; list.len(), want.len());
    for (one, (x, y, z)) in list.iter().zip(want) {
        assert_eq!(rt; *one, entry(at(*x, *y, *z), due));
    }
}

/// What is there after some ticks: how many entries were taken, the blocks of water, and those of the entries of the
/// chunk at the origin, which are all due in one tick.
#[derive(Clone, Copy, Drop)]
pub(crate) struct Want<'a> {
    count: u128,
    water: &'a [WetBlock],
    due: i64,
    list: &'a [Coordinates],
}

/// A world after some ticks has this.
pub(crate) fn expect_after(
    rt: &impl Abort,
    alloc: Global,
    after: &After,
    want: Want<'_>,
) -> Result<(), Fault> {
    assert_eq!(rt; after.count, want.count);
    expect_list(rt, &after.world, ORIGIN, want.due, want.list);
    expect_water(rt, alloc, &after.world, want.water)
}

/// The chunk at the origin has this after so many ticks, with the edits of a text.
fn expect_ran(
    rt: &impl Abort,
    alloc: Global,
    lines: &str,
    ticks: u32,
    want: Want<'_>,
) -> Result<(), Fault> {
    let after = flat_ran(alloc, &[ORIGIN], lines, ticks)?;
    expect_after(rt, alloc, &after, want)
}

/// How many entries are taken in the chunk at the origin, with the edits of a text.
fn count_after(alloc: Global, lines: &str, ticks: u32) -> Result<u128, Fault> {
    Ok(flat_ran(alloc, &[ORIGIN], lines, ticks)?.count)
}

/// The number of a block of the chunk at the origin after so many ticks, with the edits of a text.
fn number_after(alloc: Global, lines: &str, ticks: u32, pos: Pos) -> Result<Option<u16>, Fault> {
    let after = flat_ran(alloc, &[ORIGIN], lines, ticks)?;
    Ok(number_at(&after.world, pos))
}

/// Exactly these blocks of the chunk at the origin are water after so many ticks, with the edits of a text.
fn expect_water_after(
    rt: &impl Abort,
    alloc: Global,
    lines: &str,
    ticks: u32,
    want: &[WetBlock],
) -> Result<(), Fault> {
    let after = flat_ran(alloc, &[ORIGIN], lines, ticks)?;
    expect_water(rt, alloc, &after.world, want)
}

/// The blocks that a source at (8, 64, 8) and its four sides wake, in order.
const FIVE: [Coordinates; 5] = [(8, 64, 7), (8, 64, 8), (8, 64, 9), (7, 64, 8), (9, 64, 8)];

/// The source and its four sides.
const SPREAD: [WetBlock; 5] = [
    (8, 64, 7, 1),
    (7, 64, 8, 1),
    (8, 64, 8, 0),
    (9, 64, 8, 1),
    (8, 64, 9, 1),
];

/// A source at (8, 64, 8) that waits until a tick.
pub(crate) fn waiting(due: i64) -> Want<'static> {
    Want {
        count: 0,
        water: &[(8, 64, 8, 0)],
        due,
        list: &[(8, 64, 8)],
    }
}

/// The same after its turn: its sides are wet, and these five blocks wait.
pub(crate) fn spread(due: i64) -> Want<'static> {
    Want {
        count: 1,
        water: &SPREAD,
        due,
        list: &FIVE,
    }
}

/// Water goes a block farther every five ticks, and its level grows by one.
#[test]
fn a_source_spreads(rt: HostRuntime) -> Result<(), Fail> {
    let alloc = rt.alloc();
    expect_ran(&rt, alloc, W, 5, waiting(6))?;
    expect_ran(&rt, alloc, W, 6, spread(11))?;
    assert_eq!(rt; count_after(alloc, W, 11)?, 6);
    Ok(())
}

/// A source that waits for nothing is set to the state that it has: it wakes, and so it spreads.
#[test]
fn a_block_that_is_set_to_its_state_wakes(rt: HostRuntime) -> Result<(), Fail> {
    let alloc = rt.alloc();
    let world = world_of(alloc, &[ORIGIN], &[at(8, 64, 8)], &[])?;
    let after = ran(alloc, 1, world, W, 6)?;
    expect_after(&rt, alloc, &after, spread(11))?;
    Ok(())
}

/// Each block of water is at y 64, and its level is its distance from (8, 64, 8).
fn expect_distances(rt: &impl Abort, water: &[WetBlock]) {
    for (x, y, z, level) in water {
        assert_eq!(rt; *y, 64);
        let distance = x.abs_diff(8).saturating_add(z.abs_diff(8));
        assert_eq!(rt; u32::from(*level), distance, "({x}, 64, {z})");
    }
}

/// After 36 ticks all blocks within distance 7 are wet, each of its distance as level.
#[test]
fn a_source_ends_at_distance_seven(rt: HostRuntime) -> Result<(), Fail> {
    let late = flat_ran(rt.alloc(), &[ORIGIN], W, 36)?;
    let water = water_in(rt.alloc(), &late.world)?;
    assert_eq!(rt; water.len(), 113);
    expect_distances(&rt, water.as_slice());
    Ok(())
}

/// Water that lost its source dries. The lines may stand in any order.
#[test]
fn water_dries(rt: HostRuntime) -> Result<(), Fail> {
    let alloc = rt.alloc();
    let dry = Want {
        count: 6,
        water: &[],
        due: 0,
        list: &[],
    };
    let source_first = "1 8 64 8 minecraft:water[level=0]\n7 8 64 8 minecraft:air";
    expect_ran(&rt, alloc, source_first, 11, dry)?;
    let air_first = "7 8 64 8 minecraft:air\n1 8 64 8 minecraft:water[level=0]";
    expect_ran(&rt, alloc, air_first, 11, dry)?;
    Ok(())
}

/// The edits of a tick go by their lines: the later of two of one block stays.
#[test]
fn edits_go_by_their_lines(rt: HostRuntime) -> Result<(), Fail> {
    let stone_last = "1 8 64 8 minecraft:water[level=0]\n1 8 64 8 minecraft:stone";
    let water_last = "1 8 64 8 minecraft:stone\n1 8 64 8 minecraft:water[level=0]";
    for (lines, number) in [(stone_last, STONE), (water_last, 1)] {
        let found = number_after(rt.alloc(), lines, 1, at(8, 64, 8))?;
        assert_eq!(rt; found, Some(number));
    }
    Ok(())
}

#[test]
fn two_sources_make_a_third(rt: HostRuntime) -> Result<(), Fail> {
    let alloc = rt.alloc();
    let lines = "1 8 64 8 minecraft:water[level=0]\n1 10 64 8 minecraft:water[level=0]";
    assert_eq!(rt; count_after(alloc, lines, 6)?, 2);
    assert_eq!(rt; number_after(alloc, lines, 6, at(9, 64, 8))?, Some(1));
    Ok(())
}

/// Water goes to the nearest drop alone.
#[test]
fn water_goes_to_the_nearest_drop(rt: HostRuntime) -> Result<(), Fail> {
    let alloc = rt.alloc();
    let east = "1 11 63 8 minecraft:air\n1 8 64 8 minecraft:water[level=0]";
    expect_water_after(&rt, alloc, east, 6, &[(8, 64, 8, 0), (9, 64, 8, 1)])?;
    let north = "1 8 63 5 minecraft:air\n1 8 64 8 minecraft:water[level=0]";
    expect_water_after(&rt, alloc, north, 6, &[(8, 64, 7, 1), (8, 64, 8, 0)])?;
    Ok(())
}

/// Numbers of the four blocks beside one at x 8 and z 8.
pub(crate) fn sides(world: &World, y: i32) -> [Option<u16>; 4] {
    [
        number_at(world, at(8, y, 7)),
        number_at(world, at(8, y, 9)),
        number_at(world, at(7, y, 8)),
        number_at(world, at(9, y, 8)),
    ]
}

fn is_water(number: Option<u16>) -> bool {
    match number {
        Some(number) => 1 <= number && number <= 9,
        None => false,
    }
}

/// A source that falls from y 70.
const FALLING: &str = "1 8 70 8 minecraft:water[level=0]";

/// Numbers of the four blocks beside the one at x 8 and z 8, after so many ticks of falling water.
fn sides_after(alloc: Global, ticks: u32, y: i32) -> Result<[Option<u16>; 4], Fault> {
    let after = flat_ran(alloc, &[ORIGIN], FALLING, ticks)?;
    Ok(sides(&after.world, y))
}

/// Water falls a block every five ticks, and spreads above.
#[test]
fn falling_water_spreads_above(rt: HostRuntime) -> Result<(), Fail> {
    for (ticks, number) in [(10, 0), (11, 2)] {
        assert_eq!(rt; sides_after(rt.alloc(), ticks, 70)?, [Some(number); 4]);
    }
    Ok(())
}

/// It is on the ground after 31 ticks. The number 9 is falling water.
#[test]
fn water_falls(rt: HostRuntime) -> Result<(), Fail> {
    for (ticks, number) in [(30, 0), (31, 9)] {
        let found = number_after(rt.alloc(), FALLING, ticks, at(8, 64, 8))?;
        assert_eq!(rt; found, Some(number));
    }
    Ok(())
}

/// It spreads below five ticks later.
#[test]
fn falling_water_spreads_below(rt: HostRuntime) -> Result<(), Fail> {
    for (ticks, wet) in [(35, false), (36, true)] {
        let found = sides_after(rt.alloc(), ticks, 64)?.map(is_water);
        assert_eq!(rt; found, [wet; 4]);
    }
    Ok(())
}

/// What lies below the world can't be entered.
#[test]
fn water_stays_on_the_lowest_layer(rt: HostRuntime) -> Result<(), Fail> {
    let want = [
        (8, -64, 7, 1),
        (7, -64, 8, 1),
        (8, -64, 8, 0),
        (9, -64, 8, 1),
        (8, -64, 9, 1),
    ];
    let lines = "1 8 -64 8 minecraft:water[level=0]";
    expect_water_after(&rt, rt.alloc(), lines, 6, &want)?;
    Ok(())
}

/// The water of two sources that spread by an edge of two chunks, and of one far from it.
const OVER_THE_EDGE: [WetBlock; 15] = [
    (8, 64, 7, 1),
    (15, 64, 7, 1),
    (24, 64, 7, 1),
    (7, 64, 8, 1),
    (8, 64, 8, 0),
    (9, 64, 8, 1),
    (14, 64, 8, 1),
    (15, 64, 8, 0),
    (16, 64, 8, 1),
    (23, 64, 8, 1),
    (24, 64, 8, 0),
    (25, 64, 8, 1),
    (8, 64, 9, 1),
    (15, 64, 9, 1),
    (24, 64, 9, 1),
];

/// Water goes from chunk to chunk.
#[test]
fn water_goes_over_a_border(rt: HostRuntime) -> Result<(), Fail> {
    let lines = "1 8 64 8 minecraft:water[level=0]
1 24 64 8 minecraft:water[level=0]
1 15 64 8 minecraft:water[level=0]";
    let after = flat_ran(rt.alloc(), &[ORIGIN, EAST], lines, 6)?;
    assert_eq!(rt; after.count, 3);
    expect_water(&rt, rt.alloc(), &after.world, &OVER_THE_EDGE)?;
    Ok(())
}

/// A slab that is soaked is set at (8, 64, 8) in tick 1. It is the first state after stone.
fn expect_slab(
    rt: &impl Abort,
    alloc: Global,
    version: u32,
    count: u128,
    water: &[WetBlock],
) -> Result<(), Fault> {
    let lines = "1 8 64 8 minecraft:oak_slab[type=bottom,waterlogged=true]";
    let world = world_of(alloc, &[ORIGIN], &[], &[])?;
    let after = ran(alloc, version, world, lines, 6)?;
    let slab = number_at(&after.world, at(8, 64, 8));
    assert_eq!(rt; (after.count, slab), (count, Some(STONE + 1)));
    expect_water(rt, alloc, &after.world, water)
}

/// A soaked slab is a source and stays, by a block table from version 2 on.
#[test]
fn a_soaked_slab_spreads(rt: HostRuntime) -> Result<(), Fail> {
    let beside = [(8, 64, 7, 1), (7, 64, 8, 1), (9, 64, 8, 1), (8, 64, 9, 1)];
    expect_slab(&rt, rt.alloc(), 2, 1, &beside)?;
    expect_slab(&rt, rt.alloc(), 1, 0, &[])?;
    Ok(())
}
