//! The rule's examples on the small flat world, with a soaked slab by the bare table.
use crate::expecting::{expect_equal, expect_true};
use crate::flat::{
    AIR, Block, SOURCE, STONE, at, comes_into, drop_by, drops_at, enters_at, expect_blocks,
    expect_drops, expect_entries, expect_made, flat_with, intern, kind, kinds_by, number_at,
    put_all, set, turned,
};
use av_cells::Cells;
use av_column::Column;
use av_rules::Kinds;
use av_state::StateTable;
use av_types::{Direction, Fault, Pos, Wet};
use std::alloc::Global;
use std::process::Abort;
use std::test::Fail;

const LEVEL_1: u16 = 2;

const SOAKED_SLAB: u16 = 11;

/// The kinds of air, water, stone and a soaked slab.
fn slab_kinds(alloc: Global, rt: &impl Abort) -> Result<Kinds, Fault> {
    let mut table = StateTable::new(alloc)?;
    intern(alloc, rt, &mut table, "minecraft:stone", &[], STONE)?;
    let wet = [("type", "bottom"), ("waterlogged", "true")];
    intern(
        alloc,
        rt,
        &mut table,
        "minecraft:oak_slab",
        &wet,
        SOAKED_SLAB,
    )?;
    kinds_by(alloc, table, b"version = 2")
}

/// The turn of a block makes these entries.
fn expect_turn(
    rt: &impl Abort,
    alloc: Global,
    column: &mut Column,
    block: Block,
    entries: &[Block],
) -> Result<(), Fault> {
    let kinds = slab_kinds(alloc, rt)?;
    expect_made(rt, column, &kinds, block, entries)
}

/// The turn of a block leaves those blocks.
fn expect_left(
    rt: &impl Abort,
    alloc: Global,
    column: &mut Column,
    block: Block,
    after: &[(Block, u16)],
) -> Result<(), Fault> {
    let kinds = slab_kinds(alloc, rt)?;
    turned(rt, column, &kinds, block)?;
    expect_blocks(rt, column, after);
    Ok(())
}

/// In the flat world with these blocks the turn of (8, 64, 8) leaves those blocks.
fn expect_after(
    rt: &impl Abort,
    alloc: Global,
    blocks: &[(Block, u16)],
    after: &[(Block, u16)],
) -> Result<(), Fault> {
    let mut column = flat_with(alloc, blocks)?;
    expect_left(rt, alloc, &mut column, (8, 64, 8), after)
}

/// What a source at (8, 64, 8) makes that spreads to four sides.
const SPREAD: [Block; 5] = [(8, 64, 7), (8, 64, 8), (8, 64, 9), (7, 64, 8), (9, 64, 8)];

/// The flat world after the turn of a source at (8, 64, 8).
fn spread(rt: &impl Abort, alloc: Global) -> Result<Column, Fault> {
    let mut column = flat_with(alloc, &[((8, 64, 8), SOURCE)])?;
    expect_turn(rt, alloc, &mut column, (8, 64, 8), &SPREAD)?;
    Ok(column)
}

#[test]
fn a_source_spreads_to_four_sides(rt: HostRuntime) -> Result<(), Fail> {
    let column = spread(&rt, rt.alloc())?;
    for side in [(8, 64, 7), (8, 64, 9), (7, 64, 8), (9, 64, 8)] {
        expect_equal(&rt, number_at(&column, at(side)), Some(LEVEL_1));
    }
    Ok(())
}

#[test]
fn what_a_turn_makes_is_added(rt: HostRuntime) -> Result<(), Fail> {
    let column = spread(&rt, rt.alloc())?;
    expect_entries(&rt, column.entries(), &SPREAD);
    Ok(())
}

#[test]
fn a_source_falls(rt: HostRuntime) -> Result<(), Fail> {
    let mut column = flat_with(rt.alloc(), &[((8, 66, 8), SOURCE)])?;
    let entries = [(8, 65, 8), (8, 66, 8)];
    expect_turn(&rt, rt.alloc(), &mut column, (8, 66, 8), &entries)?;
    // level 8
    expect_equal(&rt, number_at(&column, at((8, 65, 8))), Some(9));
    expect_equal(&rt, number_at(&column, at((9, 66, 8))), Some(AIR));
    Ok(())
}

/// Two sources of one state make a third between them, and the turned one stays.
fn expect_third(rt: &impl Abort, alloc: Global, source: u16) -> Result<(), Fault> {
    expect_after(
        rt,
        alloc,
        &[((8, 64, 8), source), ((10, 64, 8), source)],
        &[
            ((9, 64, 8), SOURCE),
            ((8, 64, 8), source),
            ((7, 64, 8), LEVEL_1),
        ],
    )
}

#[test]
fn two_sources_make_a_third(rt: HostRuntime) -> Result<(), Fail> {
    Ok(expect_third(&rt, rt.alloc(), SOURCE)?)
}

#[test]
fn two_soaked_slabs_make_a_source(rt: HostRuntime) -> Result<(), Fail> {
    Ok(expect_third(&rt, rt.alloc(), SOAKED_SLAB)?)
}

/// The drops from (8, 64, 8) by north, south, west and east in the flat world with a source there and a block of air.
fn expect_drops_to(
    rt: &impl Abort,
    alloc: Global,
    air: Block,
    wants: [Option<u8>; 4],
) -> Result<(), Fault> {
    let kinds = slab_kinds(alloc, rt)?;
    let column = flat_with(alloc, &[(air, AIR), ((8, 64, 8), SOURCE)])?;
    expect_drops(rt, &column, &kinds, wants);
    Ok(())
}

#[test]
fn the_drop_by_east_is_the_nearest(rt: HostRuntime) -> Result<(), Fail> {
    let wants = [Some(4), Some(4), None, Some(2)];
    Ok(expect_drops_to(&rt, rt.alloc(), (11, 63, 8), wants)?)
}

#[test]
fn the_drop_by_north_is_the_nearest(rt: HostRuntime) -> Result<(), Fail> {
    let wants = [Some(2), None, Some(4), Some(4)];
    Ok(expect_drops_to(&rt, rt.alloc(), (8, 63, 5), wants)?)
}

#[test]
fn water_goes_to_the_nearest_drop(rt: HostRuntime) -> Result<(), Fail> {
    let blocks = [((11, 63, 8), AIR), ((8, 64, 8), SOURCE)];
    let mut column = flat_with(rt.alloc(), &blocks)?;
    let entries = [(9, 64, 8), (8, 64, 8)];
    expect_turn(&rt, rt.alloc(), &mut column, (8, 64, 8), &entries)?;
    expect_equal(&rt, number_at(&column, at((9, 64, 8))), Some(LEVEL_1));
    expect_equal(&rt, number_at(&column, at((8, 64, 7))), Some(AIR));
    Ok(())
}

#[test]
fn water_goes_north_to_the_nearest_drop(rt: HostRuntime) -> Result<(), Fail> {
    let blocks = [((8, 63, 5), AIR), ((8, 64, 8), SOURCE)];
    let after = [((8, 64, 7), LEVEL_1), ((9, 64, 8), AIR)];
    Ok(expect_after(&rt, rt.alloc(), &blocks, &after)?)
}

/// The lowest four layers of the world, with air and these blocks, after the turn of (8, -64, 8), which leaves those.
fn turned_at_bottom(
    rt: &impl Abort,
    alloc: Global,
    blocks: &[(Block, u16)],
    after: &[(Block, u16)],
) -> Result<Column, Fault> {
    let mut column = Column::filled(alloc, -64, 4, AIR)?;
    put_all(&mut column, blocks);
    expect_left(rt, alloc, &mut column, (8, -64, 8), after)?;
    Ok(column)
}

#[test]
fn the_bottom_of_the_world_is_a_floor(rt: HostRuntime) -> Result<(), Fail> {
    let sides = [
        ((8, -64, 7), LEVEL_1),
        ((8, -64, 9), LEVEL_1),
        ((7, -64, 8), LEVEL_1),
        ((9, -64, 8), LEVEL_1),
    ];
    let column = turned_at_bottom(&rt, rt.alloc(), &[((8, -64, 8), SOURCE)], &sides)?;
    expect_equal(&rt, number_at(&column, at((8, -65, 8))), None);
    Ok(())
}

#[test]
fn a_source_forms_at_the_bottom_of_the_world(rt: HostRuntime) -> Result<(), Fail> {
    let blocks = [((8, -64, 8), SOURCE), ((10, -64, 8), SOURCE)];
    turned_at_bottom(&rt, rt.alloc(), &blocks, &[((9, -64, 8), SOURCE)])?;
    Ok(())
}

#[test]
fn a_soaked_block_is_a_source(rt: HostRuntime) -> Result<(), Fail> {
    let after = [
        ((8, 64, 8), SOAKED_SLAB),
        ((8, 64, 7), LEVEL_1),
        ((8, 64, 9), LEVEL_1),
        ((7, 64, 8), LEVEL_1),
        ((9, 64, 8), LEVEL_1),
    ];
    Ok(expect_after(&rt, rt.alloc(), &[((8, 64, 8), SOAKED_SLAB)], &after)?)
}

/// The drop from (8, 64, 8) by east in the flat world with these blocks.
fn drop_east(rt: &impl Abort, alloc: Global, blocks: &[(Block, u16)]) -> Result<Option<u8>, Fault> {
    let kinds = slab_kinds(alloc, rt)?;
    let column = flat_with(alloc, blocks)?;
    Ok(drop_by(rt, &column, &kinds, Direction::East))
}

#[test]
fn a_soaked_block_is_a_hole(rt: HostRuntime) -> Result<(), Fail> {
    let blocks = [((8, 64, 8), SOURCE), ((11, 63, 8), SOAKED_SLAB)];
    expect_equal(&rt, drop_east(&rt, rt.alloc(), &blocks)?, Some(2));
    Ok(())
}

#[test]
fn water_without_a_source_dries(rt: HostRuntime) -> Result<(), Fail> {
    let mut column = flat_with(rt.alloc(), &[((8, 64, 8), 4)])?;
    expect_turn(&rt, rt.alloc(), &mut column, (8, 64, 8), &[])?;
    expect_equal(&rt, number_at(&column, at((8, 64, 8))), Some(AIR));
    expect_equal(&rt, number_at(&column, at((9, 64, 8))), Some(AIR));
    Ok(())
}

/// Sets (8, 64, 8) to a source, and answers how many entries that made.
fn set_source(rt: &impl Abort, alloc: Global, column: &mut Column) -> Result<usize, Fault> {
    let kinds = slab_kinds(alloc, rt)?;
    let made = set(rt, column, &kinds, (8, 64, 8), SOURCE)?;
    Ok(made.len())
}

#[test]
fn a_set_wakes_what_does_not_wait(rt: HostRuntime) -> Result<(), Fail> {
    let mut column = flat_with(rt.alloc(), &[((8, 65, 8), SOURCE)])?;
    for wants in [2, 0] {
        expect_equal(&rt, set_source(&rt, rt.alloc(), &mut column)?, wants);
        expect_equal(&rt, column.entries().len(), 2);
    }
    expect_entries(&rt, column.entries(), &[(8, 64, 8), (8, 65, 8)]);
    Ok(())
}

/// The block of the first entry, which is taken out.
fn taken_first(column: &mut Column) -> Option<Pos> {
    match column.take_first() {
        Some(entry) => Some(entry.pos),
        None => None,
    }
}

/// Whether the set block, the one above it and a block of no column wait.
fn waits(column: &Column) -> (bool, bool, bool) {
    (
        column.pending(at((8, 64, 8))),
        column.pending(at((8, 65, 8))),
        column.pending(at((16, 64, 8))),
    )
}

/// Of two entries the one that was added first is taken out. Its block waits no longer, and a block of no column never.
#[test]
fn entries_are_taken_in_order(rt: HostRuntime) -> Result<(), Fail> {
    let mut column = flat_with(rt.alloc(), &[((8, 65, 8), SOURCE)])?;
    set_source(&rt, rt.alloc(), &mut column)?;
    expect_equal(&rt, taken_first(&mut column), Some(at((8, 64, 8))));
    expect_equal(&rt, waits(&column), (false, true, false));
    expect_equal(&rt, number_at(&column, at((8, 64, 8))), Some(SOURCE));
    Ok(())
}

/// Whether water can come into a block, whether it has a hole, and what comes into it, by a source at (8, 65, 8).
fn read_at(rt: &impl Abort, alloc: Global, block: Block) -> Result<(bool, bool, Wet), Fault> {
    let kinds = slab_kinds(alloc, rt)?;
    let column = flat_with(alloc, &[((8, 65, 8), SOURCE)])?;
    let pos = at(block);
    Ok((
        enters_at(rt, &column, &kinds, pos),
        drops_at(rt, &column, &kinds, pos),
        comes_into(rt, &column, &kinds, pos),
    ))
}

#[test]
fn reads_the_kind_of_a_block(rt: HostRuntime) -> Result<(), Fail> {
    let blocks = [
        ((8, 64, 8), (true, false, Wet::Falling)),
        ((9, 65, 8), (true, true, Wet::Flow(7))),
        ((0, 64, 0), (true, false, Wet::Dry)),
        ((0, 63, 0), (false, true, Wet::Dry)),
    ];
    for (block, want) in blocks {
        expect_equal(&rt, read_at(&rt, rt.alloc(), block)?, want);
    }
    Ok(())
}

/// A source is wet, and a block of no column is a floor.
#[test]
fn kinds_of_a_source_and_of_what_is_not_loaded(rt: HostRuntime) -> Result<(), Fail> {
    let kinds = slab_kinds(rt.alloc(), &rt)?;
    let column = flat_with(rt.alloc(), &[((8, 65, 8), SOURCE)])?;
    expect_equal(
        &rt,
        kind(&rt, &column, &kinds, at((8, 65, 8))).wet,
        Wet::Source,
    );
    expect_true(&rt, kind(&rt, &column, &kinds, at((16, 64, 0))).floor);
    Ok(())
}
