//! Water over flat worlds, which have stone at y 63: the files after a run, byte for byte, with entries in the order in
//! which blocks were woken.
use crate::given::{
    Given, at, expect, flat, flows, run_edits, run_region, springs, table_with, wet, wet_at,
};
use av_image_tests::flat::Block::{Air, Water};
use av_image_tests::flat::{Block, Waiting, flat_region};
use av_types::{Pos, Wet};
use std::alloc::Global;
use std::sync::Wait;
use std::test::Fail;
use std::thread::Threads;

/// An edit that sets a source in tick 1.
const W: &str = "1 8 64 8 minecraft:water[level=0]\n";

/// A source waits 5 ticks.
#[test]
fn a_source_waits(rt: HostRuntime) -> Result<(), Fail> {
    let source = [wet(8, 8, 0)];
    let waits = [(at(8, 64, 8), 1, true)];
    let after = flat(source.as_slice(), waits.as_slice());
    expect(&rt, rt.alloc(), flat(&[], &[]), W, (5, 1, 0), after)
}

/// Then its four sides are wet.
#[test]
fn a_source_spreads(rt: HostRuntime) -> Result<(), Fail> {
    let sides = [
        wet(8, 8, 0),
        wet(8, 7, 1),
        wet(8, 9, 1),
        wet(7, 8, 1),
        wet(9, 8, 1),
    ];
    let woken = [
        flows(8, 7),
        springs(8, 8),
        flows(8, 9),
        flows(7, 8),
        flows(9, 8),
    ];
    let after = flat(sides.as_slice(), woken.as_slice());
    expect(&rt, rt.alloc(), flat(&[], &[]), W, (6, 1, 1), after)
}

/// The chunks and the turns of a run of one flat chunk with a source, of 11 ticks with one worker.
fn counts_of_eleven(rt: &(impl Threads + Wait + Sync), alloc: Global) -> Result<(u64, u128), Fail> {
    let table = table_with(alloc, "version = 1")?;
    let given = Given {
        table: table.as_slice(),
        edits: W,
        ticks: 11,
        workers: 1,
    };
    let bytes = flat_region(alloc, flat(&[], &[]), 1)?;
    let outcome = run_region(rt, alloc, bytes, given)?;
    Ok((outcome.chunks, outcome.turns))
}

/// In tick 11 each of these five is turned.
#[test]
fn turns_are_counted(rt: HostRuntime) -> Result<(), Fail> {
    assert_eq!(rt; counts_of_eleven(&rt, rt.alloc())?, (1, 6));
    Ok(())
}

/// Between two sources over the ground comes a third.
#[test]
fn two_sources_make_a_third(rt: HostRuntime) -> Result<(), Fail> {
    let alloc = rt.alloc();
    let edits = "1 8 64 8 minecraft:water[level=0]\n1 10 64 8 minecraft:water[level=0]";
    let blocks = [
        wet(8, 8, 0),
        wet(9, 8, 0),
        wet(10, 8, 0),
        wet(8, 7, 1),
        wet(8, 9, 1),
        wet(7, 8, 1),
        wet(10, 7, 1),
        wet(10, 9, 1),
        wet(11, 8, 1),
    ];
    let woken = [
        flows(8, 7),
        springs(8, 8),
        flows(8, 9),
        flows(7, 8),
        springs(9, 8),
        springs(10, 8),
        flows(10, 7),
        flows(10, 9),
        flows(11, 8),
    ];
    let after = flat(blocks.as_slice(), woken.as_slice());
    expect(&rt, alloc, flat(&[], &[]), edits, (6, 1, 2), after)
}

/// Water goes to the nearest drop alone, as one at 2 steps in the east.
#[test]
fn to_the_nearest_drop(rt: HostRuntime) -> Result<(), Fail> {
    let holes = [(at(11, 63, 8), Air)];
    let blocks = [(at(11, 63, 8), Air), wet(8, 8, 0), wet(9, 8, 1)];
    let woken = [flows(9, 8), springs(8, 8)];
    let before = flat(holes.as_slice(), &[]);
    let after = flat(blocks.as_slice(), woken.as_slice());
    expect(&rt, rt.alloc(), before, W, (6, 1, 1), after)
}

/// The same with one at 2 steps in the north.
#[test]
fn to_the_nearest_drop_in_the_north(rt: HostRuntime) -> Result<(), Fail> {
    let holes = [(at(8, 63, 5), Air)];
    let blocks = [(at(8, 63, 5), Air), wet(8, 8, 0), wet(8, 7, 1)];
    let woken = [flows(8, 7), springs(8, 8)];
    let before = flat(holes.as_slice(), &[]);
    let after = flat(blocks.as_slice(), woken.as_slice());
    expect(&rt, rt.alloc(), before, W, (6, 1, 1), after)
}

/// A source in the air.
const HIGH: &str = "1 8 70 8 minecraft:water[level=0]";

/// It falls a block in tick 6.
#[test]
fn water_falls_before_it_spreads(rt: HostRuntime) -> Result<(), Fail> {
    let blocks = [(at(8, 70, 8), Water(0)), (at(8, 69, 8), Water(8))];
    let woken = [(at(8, 69, 8), 1, false), (at(8, 70, 8), 1, true)];
    let after = flat(blocks.as_slice(), woken.as_slice());
    expect(&rt, rt.alloc(), flat(&[], &[]), HIGH, (10, 1, 1), after)
}

/// It spreads in tick 11, once there is water below it.
#[test]
fn water_spreads_over_water(rt: HostRuntime) -> Result<(), Fail> {
    let blocks = [
        (at(8, 70, 8), Water(0)),
        (at(8, 69, 8), Water(8)),
        (at(8, 68, 8), Water(8)),
        (at(8, 70, 7), Water(1)),
        (at(8, 70, 9), Water(1)),
        (at(7, 70, 8), Water(1)),
        (at(9, 70, 8), Water(1)),
    ];
    let woken = [
        (at(8, 68, 8), 5, false),
        (at(8, 69, 8), 5, false),
        (at(8, 70, 7), 5, false),
        (at(8, 70, 8), 5, true),
        (at(8, 70, 9), 5, false),
        (at(7, 70, 8), 5, false),
        (at(9, 70, 8), 5, false),
    ];
    let after = flat(blocks.as_slice(), woken.as_slice());
    expect(&rt, rt.alloc(), flat(&[], &[]), HIGH, (11, 1, 3), after)
}

/// The water on the ground below, and at its four sides.
fn water_below(alloc: Global, file: &[u8]) -> Result<(Wet, [Wet; 4]), Fail> {
    let ground = wet_at(alloc, file, at(8, 64, 8))?;
    let sides = [
        wet_at(alloc, file, at(8, 64, 7))?,
        wet_at(alloc, file, at(8, 64, 9))?,
        wet_at(alloc, file, at(7, 64, 8))?,
        wet_at(alloc, file, at(9, 64, 8))?,
    ];
    Ok((ground, sides))
}

/// It reaches the ground in tick 31, and the sides there in tick 36.
#[test]
fn water_reaches_the_ground(rt: HostRuntime) -> Result<(), Fail> {
    for (ticks, ground, sides) in [
        (30, Wet::Dry, Wet::Dry),
        (31, Wet::Falling, Wet::Dry),
        (35, Wet::Falling, Wet::Dry),
        (36, Wet::Falling, Wet::Flow(7)),
    ] {
        let file = run_edits(&rt, rt.alloc(), HIGH, ticks)?;
        let found = water_below(rt.alloc(), file.as_slice())?;
        assert!(rt; found == (ground, [sides; 4]));
    }
    Ok(())
}

/// At the bottom of the world nothing falls, and sources can stand.
#[test]
fn on_the_bottom_of_the_world(rt: HostRuntime) -> Result<(), Fail> {
    let blocks = [
        (at(8, -64, 8), Water(0)),
        (at(8, -64, 7), Water(1)),
        (at(8, -64, 9), Water(1)),
        (at(7, -64, 8), Water(1)),
        (at(9, -64, 8), Water(1)),
    ];
    let woken = [
        (at(8, -64, 7), 5, false),
        (at(8, -64, 8), 5, true),
        (at(8, -64, 9), 5, false),
        (at(7, -64, 8), 5, false),
        (at(9, -64, 8), 5, false),
    ];
    let after = flat(blocks.as_slice(), woken.as_slice());
    let edits = "1 8 -64 8 minecraft:water[level=0]";
    expect(&rt, rt.alloc(), flat(&[], &[]), edits, (6, 1, 1), after)
}

/// Two sources, of which one is overdue in a file that has two entries of it.
fn two_sources() -> [(Pos, Block); 2] {
    [wet(4, 4, 0), wet(8, 8, 0)]
}

fn three_entries() -> [Waiting; 3] {
    [
        (at(4, 64, 4), 1, true),
        (at(8, 64, 8), -3, true),
        (at(8, 64, 8), 9, true),
    ]
}

/// Of two entries of one block the first stays, and with no tick all of them are written as they were.
#[test]
fn entries_of_the_file(rt: HostRuntime) -> Result<(), Fail> {
    let (sources, entries) = (two_sources(), three_entries());
    let before = flat(sources.as_slice(), entries.as_slice());
    let kept = flat(sources.as_slice(), &entries[..2]);
    expect(&rt, rt.alloc(), before, "", (0, 1, 0), kept)
}

/// Overdue entries are turned in the order in which they are due.
#[test]
fn overdue_entries_of_the_file(rt: HostRuntime) -> Result<(), Fail> {
    let blocks = [
        wet(4, 4, 0),
        wet(8, 8, 0),
        wet(8, 7, 1),
        wet(8, 9, 1),
        wet(7, 8, 1),
        wet(9, 8, 1),
        wet(4, 3, 1),
        wet(4, 5, 1),
        wet(3, 4, 1),
        wet(5, 4, 1),
    ];
    let woken = [
        flows(8, 7),
        springs(8, 8),
        flows(8, 9),
        flows(7, 8),
        flows(9, 8),
        flows(4, 3),
        springs(4, 4),
        flows(4, 5),
        flows(3, 4),
        flows(5, 4),
    ];
    let (sources, entries) = (two_sources(), three_entries());
    let before = flat(sources.as_slice(), entries.as_slice());
    let after = flat(blocks.as_slice(), woken.as_slice());
    expect(&rt, rt.alloc(), before, "", (1, 1, 2), after)
}

/// An entry that is due long after hides the wakings of its block, and is written with what is left of its time, also of the
/// longest that a file can have.
#[test]
fn an_entry_far_off(rt: HostRuntime) -> Result<(), Fail> {
    let entries = [(at(8, 64, 8), 99, false), (at(4, 64, 4), 2147483647, false)];
    let left = [(at(8, 64, 8), 79, true), (at(4, 64, 4), 2147483627, false)];
    let source = [wet(8, 8, 0)];
    let after = flat(source.as_slice(), left.as_slice());
    expect(
        &rt,
        rt.alloc(),
        flat(&[], entries.as_slice()),
        W,
        (20, 1, 0),
        after,
    )
}
