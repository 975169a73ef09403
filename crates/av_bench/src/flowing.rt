//! Turns of water on a small flat world.
ghost use Rattle.std.specs.Prelude.{◌<◌, IfOk, IfSome};
ghost use Rattle.av_rules.specs.Kinds.{kind_count};
ghost use Rattle.av_cells.specs.Rule.{HasKinds};
ghost use Rattle.av_column.specs.Views.{blocks_of};

use av_cells::{Cells, set_awake};
use av_column::Column;
use av_rules::{Kinds, Rules};
use av_state::StateTable;
use av_types::{Fault, Pos};
use av_water::turn;
use std::alloc::Global;

/// How many layers of air the world has. It ends below them, which is floor.
const LAYERS: u32 = 5;

/// More than the entries that a world gets.
const MOST_ENTRIES: usize = 512;

/// The number of air.
const AIR: u16 = 0;

/// The number of water of level 0.
const SOURCE: u16 = 1;

/// Where the water comes from.
const SPRING: Pos = Pos { x: 8, y: 2, z: 8 };

/// Air, water, and no other state.
fn water_kinds(alloc: Global) -> Result<Kinds, Fault> {
    let rules = Rules::read(alloc, b"version = 1")?;
    Kinds::new(alloc, StateTable::new(alloc)?, &rules)
}

/// Sets a block to a source, where it is loaded.
fn set_source<C: Cells>(cells: &mut C, kinds: &Kinds, pos: Pos) -> Result<(), Fault>
    requires source { 1 < kind_count kinds.now }
    requires kinds { HasKinds (kind_count kinds.now) (C.world cells.old) }
    ensures { HasKinds (kind_count kinds.now) (C.world cells.new) }
{
    if cells.loaded(pos) {
        cells.prepare_set(pos, SOURCE)?;
        set_awake(cells, kinds, 1, pos, SOURCE);
    }
    Ok(())
}

/// Turns a block, where it is loaded.
fn turn_loaded<C: Cells>(cells: &mut C, kinds: &Kinds, pos: Pos) -> Result<(), Fault>
    requires { HasKinds (kind_count kinds.now) (C.world cells.old) }
    ensures { HasKinds (kind_count kinds.now) (C.world cells.new) }
{
    if cells.loaded(pos) {
        cells.prepare(pos)?;
        turn(cells, kinds, 1, pos);
    }
    Ok(())
}

/// The amount of water of a block.
fn amount_at<C: Cells>(cells: &C, kinds: &Kinds, pos: Pos) -> u64
    requires { HasKinds (kind_count kinds.now) (C.world cells.now) }
{
    if cells.loaded(pos) {
        kinds.wet(cells.number(pos)).amount() as u64
    } else {
        0
    }
}

/// The sum of all amounts of water.
fn amounts<C: Cells>(cells: &C, kinds: &Kinds) -> u64
    requires { HasKinds (kind_count kinds.now) (C.world cells.now) }
{
    let mut sum = 0u64;
    for x in 0..16 {
        for y in 0..5 {
            for z in 0..16 {
                sum = sum.wrapping_add(amount_at(cells, kinds, Pos { x, y, z }));
            }
        }
    }
    sum
}

/// A world of air with a source in it, or None where a state has no kind.
fn watered(alloc: Global, kinds: &Kinds) -> Result<Option<Column>, Fault>
    requires { 1 < kind_count kinds.now }
    ensures { IfOk result (λ o. IfSome o (λ c. HasKinds (kind_count kinds.now) (blocks_of c))) }
{
    let mut column = Column::filled(alloc, 0, LAYERS, AIR)?;
    if !column.has_kinds(kinds) {
        return Ok(None);
    }
    set_source(&mut column, kinds, SPRING)?;
    Ok(Some(column))
}

/// Turns the entry of an index in the list, where there is one, and says whether there was.
fn turn_entry(column: &mut Column, kinds: &Kinds, index: usize) -> Result<bool, Fault>
    requires { HasKinds (kind_count kinds.now) (blocks_of column.old) }
    ensures { HasKinds (kind_count kinds.now) (blocks_of column.new) }
{
    let entry = column.entries().get(index).copied();
    match entry {
        Some(entry) => {
            turn_loaded(column, kinds, entry.pos)?;
            Ok(true)
        }
        None => Ok(false),
    }
}

/// How many turns were made, and the sum of all amounts of water of each world at its end.
#[derive(Clone, Copy, Default)]
struct Play {
    turns: u64,
    amounts: u64,
}

/// Turns each entry of a fresh world once, in order, until none is left.
fn play_world(alloc: Global, kinds: &Kinds, play: &mut Play) -> Result<(), Fault>
    requires { 1 < kind_count kinds.now }
{
    let Some(mut column) = watered(alloc, kinds)? else {
        return Ok(());
    };
    for index in 0..MOST_ENTRIES {
        if !turn_entry(&mut column, kinds, index)? {
            break;
        }
        play.turns = play.turns.wrapping_add(1);
    }
    play.amounts = play.amounts.wrapping_add(amounts(&column, kinds));
    Ok(())
}

/// So many worlds, in each of which a source spreads and each block that it wakes is turned once.
pub(crate) fn play_worlds(alloc: Global, worlds: u64) -> Result<String, Fault> {
    let kinds = water_kinds(alloc)?;
    let mut play = Play::default();
    if 1 < kinds.count() {
        for _ in 0..worlds {
            play_world(alloc, &kinds, &mut play)?;
        }
    }
    let Play { turns, amounts } = play;
    Ok(format!(in alloc; "turns {turns} amounts {amounts}")?)
}
