//! Lines of edits by hand, on a chunk with stone at y 63 and air elsewhere.
use crate::tests::{ORIGIN, at};
use av_edits::{Edit, read};
use av_state::{State, StateTable};
use av_types::{Fault, Height, Pos};
use av_world::World;
use av_world_tests::flat::{STONE, stone_table};
use av_world_tests::worlds::flat_world;
use std::alloc::Global;
use std::process::Abort;
use std::test::Fail;

/// Texts that are refused, for a run of 20 ticks, with the fault's line.
const REFUSED: [(&str, &str); 14] = [
    ("# x\n1 8 64 8 Stone", "fault 20: BadEdit 2"),
    ("0 8 64 8 minecraft:stone", "fault 21: EditTick 1"),
    ("21 8 64 8 minecraft:stone", "fault 21: EditTick 1"),
    ("1 16 64 8 minecraft:stone\nx", "fault 22: EditOutside 1"),
    ("1 8 320 8 minecraft:stone", "fault 22: EditOutside 1"),
    ("1 8 -65 8 minecraft:stone", "fault 22: EditOutside 1"),
    ("1 8 64 8  minecraft:stone", "fault 20: BadEdit 1"),
    ("1 +8 64 8 minecraft:stone", "fault 20: BadEdit 1"),
    ("1 2147483648 64 8 minecraft:stone", "fault 20: BadEdit 1"),
    ("0 8 64 8 Stone", "fault 20: BadEdit 1"),
    ("0 16 64 8 minecraft:stone", "fault 21: EditTick 1"),
    ("\n\n#\n0 8 64 8 minecraft:stone", "fault 21: EditTick 4"),
    ("1 8 64 8 minecraft:stone\r\r\n", "fault 20: BadEdit 1"),
    ("1 8 64 8 minecraft:water[level=16]", "fault 20: BadEdit 1"),
];

/// What is said of a text, for a run of 20 ticks of this world, with the states of a table.
fn said(alloc: Global, world: &World, table: &mut StateTable, text: &str) -> Result<String, Fault> {
    match read(alloc, text.as_bytes(), 20, world, table) {
        Ok(_) => Ok(format!(in alloc; "no fault")?),
        Err(fault) => Ok(format!(in alloc; "{fault}")?),
    }
}

/// This is said of a text.
fn expect_said(
    rt: &impl Abort,
    alloc: Global,
    world: &World,
    table: &mut StateTable,
    text: &str,
    want: &str,
) -> Result<(), Fault> {
    let said = said(alloc, world, table, text)?;
    assert_eq!(rt; said.as_str(), want, "{text}");
    Ok(())
}

#[test]
fn refuses_other_lines(rt: HostRuntime) -> Result<(), Fail> {
    let world = flat_world(rt.alloc(), Height::game(), &[ORIGIN])?;
    for (text, want) in REFUSED {
        let mut table = stone_table(rt.alloc())?;
        expect_said(&rt, rt.alloc(), &world, &mut table, text, want)?;
    }
    Ok(())
}

/// A table of so many states: air, water, stone, and others.
fn table_of(alloc: Global, count: usize) -> Result<StateTable, Fault> {
    let mut table = stone_table(alloc)?;
    for number in table.len()..count {
        let name = format!(in alloc; "a:number_{number}")?;
        let name = Vec::from_slice(alloc, name.as_bytes())?;
        let state = State::new(name, Vec::new(alloc))?.ok_or(Fault::BadPalette)?;
        let _ = table.intern(&state)?;
    }
    Ok(table)
}

/// Texts for a table of 65,535 states, the most that there can be. It takes a state that it has, and the fault of another one comes
/// behind those of its line.
const FULL: [(&str, &str); 4] = [
    ("1 8 64 8 a:b", "fault 18: TooManyStates"),
    ("1 8 64 8 minecraft:stone", "no fault"),
    ("1 8 320 8 a:b", "fault 22: EditOutside 1"),
    ("0 8 64 8 a:b", "fault 21: EditTick 1"),
];

#[test]
fn a_full_table_takes_no_new_state(rt: HostRuntime) -> Result<(), Fail> {
    let alloc = rt.alloc();
    let world = flat_world(alloc, Height::game(), &[ORIGIN])?;
    let mut table = table_of(alloc, 65_535)?;
    for (text, want) in FULL {
        expect_said(&rt, alloc, &world, &mut table, text, want)?;
    }
    Ok(())
}

/// Texts for a table with room for one state. The states of earlier edits are in it, each once.
const ALMOST_FULL: [(&str, &str); 3] = [
    ("1 8 64 8 a:b", "no fault"),
    ("1 8 64 8 a:b\n2 8 64 8 a:b", "no fault"),
    ("1 8 64 8 a:b\n2 8 64 8 c:d", "fault 18: TooManyStates"),
];

#[test]
fn states_of_earlier_edits_count(rt: HostRuntime) -> Result<(), Fail> {
    let alloc = rt.alloc();
    let world = flat_world(alloc, Height::game(), &[ORIGIN])?;
    for (text, want) in ALMOST_FULL {
        let mut table = table_of(alloc, 65_534)?;
        expect_said(&rt, alloc, &world, &mut table, text, want)?;
    }
    Ok(())
}

/// These are the edits, each with its line, its tick, its block and its number.
fn expect_edits(rt: &impl Abort, edits: &[Edit], want: &[(u64, u32, Pos, u16)]) {
    assert_eq!(rt; edits.len(), want.len());
    for (edit, (line, tick, pos, number)) in edits.iter().zip(want) {
        let stated = Edit {
            line: *line,
            tick: *tick,
            pos: *pos,
            number: *number,
        };
        assert_eq!(rt; *edit, stated);
    }
}

/// Lines are counted with those that state nothing, and states are numbered in the order of the lines.
#[test]
fn reads_edits(rt: HostRuntime) -> Result<(), Fail> {
    let alloc = rt.alloc();
    let world = flat_world(alloc, Height::game(), &[ORIGIN])?;
    let mut table = stone_table(alloc)?;
    let text =
        "20 8 64 8 a:b\r\n\n# 1 8 64 8 c:d\n007 -0 007 15 minecraft:stone\n1 8 64 8 c:d\n1 0 0 0 a:b\r";
    let edits = read(alloc, text.as_bytes(), 20, &world, &mut table)?;
    let want = [
        (1, 20, at(8, 64, 8), STONE + 1),
        (4, 7, at(0, 7, 15), STONE),
        (5, 1, at(8, 64, 8), STONE + 2),
        (6, 1, at(0, 0, 0), STONE + 1),
    ];
    expect_edits(&rt, edits.as_slice(), want.as_slice());
    assert_eq!(rt; read(alloc, b"", 20, &world, &mut table)?.len(), 0);
    Ok(())
}
