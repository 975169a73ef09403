//! A flat world of one chunk: stone at y 63, air from y 60 to 69 elsewhere, and blocks put into it.
use crate::expecting::expect_equal;
use arrayvec::ArrayVec;
use av_cells::{Cells, Kind, can_enter, has_hole, kind_at, set_awake};
use av_column::Column;
use av_drop::drop_distance;
use av_rules::{Kinds, Rules};
use av_state::{Property, State, StateTable};
use av_types::{Direction, Entry, Fault, Pos, Wet};
use av_water::{incoming, turn, turn_onto};
use std::alloc::Global;
use std::process::Abort;
use std::test::Fail;

/// Numbers of states. From 2 to 8 they are the levels 1 to 7 of flowing water.
pub const AIR: u16 = 0;

pub const SOURCE: u16 = 1;

pub const FALLING: u16 = 9;

pub const STONE: u16 = 10;

/// Shut, and no floor.
pub const LAVA: u16 = 11;

/// Open, and no floor.
pub const GRASS: u16 = 12;

/// The same block, soaked.
pub const SOAKED_GRASS: u16 = 13;

/// A block by its x, y and z.
pub type Block = (i32, i32, i32);

const TABLE: &[u8] = b"version = 2
[[block]]
name = \"minecraft:lava\"
open = false
floor = false
opacity = 1
emission = 15
[[block]]
name = \"minecraft:grass\"
open = true
floor = false
opacity = 0
emission = 0
";

fn property(alloc: Global, key: &str, value: &str) -> Result<Property, Fault> {
    Ok(Property {
        key: Vec::from_slice(alloc, key.as_bytes())?,
        value: Vec::from_slice(alloc, value.as_bytes())?,
    })
}

/// A state of a name, and of keys and values.
fn state(alloc: Global, name: &str, pairs: &[(&str, &str)]) -> Result<State, Fault> {
    let mut properties = Vec::new(alloc);
    for (key, value) in pairs {
        properties.push(property(alloc, *key, *value)?)?;
    }
    State::new(Vec::from_slice(alloc, name.as_bytes())?, properties)?.ok_or(Fault::BadPalette)
}

/// Takes a state into the table, which gives it that number.
pub fn intern(
    alloc: Global,
    rt: &impl Abort,
    table: &mut StateTable,
    name: &str,
    pairs: &[(&str, &str)],
    number: u16,
) -> Result<(), Fault> {
    let state = state(alloc, name, pairs)?;
    expect_equal(rt, table.intern(&state), Ok(number));
    Ok(())
}

/// The kinds of the states in a table, by rules of this text.
pub fn kinds_by(alloc: Global, table: StateTable, text: &[u8]) -> Result<Kinds, Fault> {
    let rules = Rules::read(alloc, text)?;
    Kinds::new(alloc, table, &rules)
}

/// The kinds of the states above.
pub fn kinds(alloc: Global, rt: &impl Abort) -> Result<Kinds, Fault> {
    let mut table = StateTable::new(alloc)?;
    intern(alloc, rt, &mut table, "minecraft:stone", &[], STONE)?;
    intern(alloc, rt, &mut table, "minecraft:lava", &[], LAVA)?;
    intern(alloc, rt, &mut table, "minecraft:grass", &[], GRASS)?;
    let wet = [("waterlogged", "true")];
    intern(alloc, rt, &mut table, "minecraft:grass", &wet, SOAKED_GRASS)?;
    kinds_by(alloc, table, TABLE)
}

pub fn at(block: Block) -> Pos {
    let (x, y, z) = block;
    Pos { x, y, z }
}

fn put(column: &mut Column, pos: Pos, number: u16) {
    if column.loaded(pos) {
        column.set(pos, number);
    }
}

/// Puts blocks into a column.
pub fn put_all(column: &mut Column, blocks: &[(Block, u16)]) {
    for (block, number) in blocks {
        put(column, at(*block), *number);
    }
}

/// The flat world with these blocks.
pub fn flat_with(alloc: Global, blocks: &[(Block, u16)]) -> Result<Column, Fault> {
    let mut column = Column::filled(alloc, 60, 10, AIR)?;
    for z in 0..16 {
        for x in 0..16 {
            put(&mut column, Pos { x, y: 63, z }, STONE);
        }
    }
    put_all(&mut column, blocks);
    Ok(column)
}

/// A turn in tick 1, prepared before.
pub fn turned(
    rt: &impl Abort,
    column: &mut Column,
    kinds: &Kinds,
    block: Block,
) -> Result<ArrayVec<Entry, 42>, Fault> {
    let pos = at(block);
    assert!(rt; column.loaded(pos));
    column.prepare(pos)?;
    assert!(rt; column.loaded(pos));
    assert!(rt; column.has_kinds(kinds));
    assert!(rt; column.room() >= 42);
    Ok(turn(column, kinds, 1, pos))
}

/// A turn in tick 1, prepared before, onto a list whose entries are forgotten.
fn turn_onto_again(
    rt: &impl Abort,
    column: &mut Column,
    kinds: &Kinds,
    block: Block,
    made: &mut ArrayVec<Entry, 42>,
) -> Result<(), Fault> {
    let pos = at(block);
    assert!(rt; column.loaded(pos));
    column.prepare(pos)?;
    assert!(rt; column.loaded(pos));
    assert!(rt; column.has_kinds(kinds));
    assert!(rt; column.room() >= 42);
    made.clear();
    turn_onto(column, kinds, 1, pos, made);
    Ok(())
}

/// A turn makes these entries, onto a list whose entries are forgotten.
pub fn expect_onto_again(
    rt: &impl Abort,
    column: &mut Column,
    kinds: &Kinds,
    block: Block,
    made: &mut ArrayVec<Entry, 42>,
    entries: &[Block],
) -> Result<(), Fault> {
    turn_onto_again(rt, column, kinds, block, made)?;
    expect_entries(rt, made.as_slice(), entries);
    Ok(())
}

/// A set in tick 1 with its waking, prepared before.
pub fn set(
    rt: &impl Abort,
    column: &mut Column,
    kinds: &Kinds,
    block: Block,
    number: u16,
) -> Result<ArrayVec<Entry, 7>, Fault> {
    let pos = at(block);
    assert!(rt; column.loaded(pos));
    column.prepare_set(pos, number)?;
    assert!(rt; column.loaded(pos));
    assert!(rt; column.has_kinds(kinds));
    assert!(rt; column.room() >= 7);
    assert!(rt; (number as usize) < kinds.count());
    Ok(set_awake(column, kinds, 1, pos, number))
}

/// What comes into a block.
pub fn comes_into(rt: &impl Abort, column: &Column, kinds: &Kinds, pos: Pos) -> Wet {
    assert!(rt; column.loaded(pos));
    assert!(rt; column.has_kinds(kinds));
    incoming(column, kinds, pos)
}

/// Whether water can come into a loaded block.
pub fn enters_at(rt: &impl Abort, column: &Column, kinds: &Kinds, pos: Pos) -> bool {
    assert!(rt; column.loaded(pos));
    assert!(rt; column.has_kinds(kinds));
    can_enter(column, kinds, pos)
}

/// Whether a loaded block has a hole.
#[tactic(auto, using(av_column::proofs::Slots::there_is_inner))]
pub fn drops_at(rt: &impl Abort, column: &Column, kinds: &Kinds, pos: Pos) -> bool {
    assert!(rt; column.loaded(pos));
    assert!(rt; column.has_kinds(kinds));
    has_hole(column, kinds, pos)
}

/// The kind of a block, loaded or not.
pub fn kind(rt: &impl Abort, column: &Column, kinds: &Kinds, pos: Pos) -> Kind {
    assert!(rt; column.has_kinds(kinds));
    kind_at(column, kinds, pos)
}

/// The drop from (8, 64, 8) in one direction.
pub fn drop_by(
    rt: &impl Abort,
    column: &Column,
    kinds: &Kinds,
    direction: Direction,
) -> Option<u8> {
    let pos = Pos { x: 8, y: 64, z: 8 };
    assert!(rt; column.loaded(pos));
    assert!(rt; column.has_kinds(kinds));
    drop_distance(column, kinds, pos, direction)
}

/// The drops from (8, 64, 8) by north, south, west and east.
pub fn expect_drops(rt: &impl Abort, column: &Column, kinds: &Kinds, wants: [Option<u8>; 4]) {
    let directions = [
        Direction::North,
        Direction::South,
        Direction::West,
        Direction::East,
    ];
    for (direction, want) in directions.iter().zip(&wants) {
        expect_equal(rt, drop_by(rt, column, kinds, *direction), *want);
    }
}

/// The entries are of these blocks, in order, due in tick 6.
pub fn expect_entries(rt: &impl Abort, entries: &[Entry], wants: &[Block]) {
    assert_eq!(rt; entries.len(), wants.len());
    for (entry, block) in entries.iter().zip(wants) {
        let want = Entry {
            pos: at(*block),
            due: 6,
            priority: 0,
        };
        expect_equal(rt, *entry, want);
    }
}

pub fn number_at(column: &Column, pos: Pos) -> Option<u16> {
    if column.loaded(pos) {
        Some(column.number(pos))
    } else {
        None
    }
}

/// The blocks have these states.
pub fn expect_blocks(rt: &impl Abort, column: &Column, wants: &[(Block, u16)]) {
    for (block, number) in wants {
        expect_equal(rt, number_at(column, at(*block)), Some(*number));
    }
}

/// The turn of a block makes these entries.
pub fn expect_made(
    rt: &impl Abort,
    column: &mut Column,
    kinds: &Kinds,
    block: Block,
    entries: &[Block],
) -> Result<(), Fault> {
    let made = turned(rt, column, kinds, block)?;
    expect_entries(rt, made.as_slice(), entries);
    Ok(())
}

/// In the flat world with these blocks the turn of (8, 64, 8) makes these entries, and leaves those blocks.
pub fn expect_turn(
    rt: &impl Abort,
    alloc: Global,
    blocks: &[(Block, u16)],
    entries: &[Block],
    after: &[(Block, u16)],
) -> Result<(), Fail> {
    let kinds = kinds(alloc, rt)?;
    let mut column = flat_with(alloc, blocks)?;
    expect_made(rt, &mut column, &kinds, (8, 64, 8), entries)?;
    expect_blocks(rt, &column, after);
    Ok(())
}
