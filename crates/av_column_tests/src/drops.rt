//! How far it is to a drop.
use crate::expecting::expect_equal;
use crate::flat::{
    AIR, Block, LAVA, SOAKED_GRASS, SOURCE, STONE, at, drops_at, expect_drops, flat_with, kinds,
};
use std::alloc::Global;
use std::process::Abort;
use std::test::Fail;

/// The drops from (8, 64, 8) in the flat world with these blocks.
fn expect(
    rt: &impl Abort,
    alloc: Global,
    blocks: &[(Block, u16)],
    wants: [Option<u8>; 4],
) -> Result<(), Fail> {
    let kinds = kinds(alloc, rt)?;
    let column = flat_with(alloc, blocks)?;
    expect_drops(rt, &column, &kinds, wants);
    Ok(())
}

#[test]
fn a_walk_passes_flowing_water(rt: HostRuntime) -> Result<(), Fail> {
    expect(
        &rt,
        rt.alloc(),
        &[((8, 64, 8), SOURCE), ((10, 64, 8), 2), ((11, 63, 8), AIR)],
        [Some(4), Some(4), None, Some(2)],
    )
}

#[test]
fn a_walk_passes_the_turned_block_where_that_is_no_source(rt: HostRuntime) -> Result<(), Fail> {
    expect(
        &rt,
        rt.alloc(),
        &[((8, 64, 8), 2), ((11, 63, 8), AIR)],
        [Some(4), Some(4), Some(4), Some(2)],
    )
}

#[test]
fn a_shut_block_is_no_hole_though_it_is_no_floor(rt: HostRuntime) -> Result<(), Fail> {
    expect(
        &rt,
        rt.alloc(),
        &[((8, 64, 8), SOURCE), ((11, 63, 8), LAVA)],
        [None, None, None, None],
    )
}

#[test]
fn a_walk_has_four_steps(rt: HostRuntime) -> Result<(), Fail> {
    expect(
        &rt,
        rt.alloc(),
        &[((8, 64, 8), SOURCE), ((13, 63, 8), AIR)],
        [None, None, None, Some(4)],
    )
}

#[test]
fn a_walk_has_four_steps_at_most(rt: HostRuntime) -> Result<(), Fail> {
    expect(
        &rt,
        rt.alloc(),
        &[((8, 64, 8), SOURCE), ((13, 63, 9), AIR)],
        [None, None, None, None],
    )
}

#[test]
fn two_drops_may_be_the_nearest(rt: HostRuntime) -> Result<(), Fail> {
    expect(
        &rt,
        rt.alloc(),
        &[((8, 64, 8), SOURCE), ((8, 63, 5), AIR), ((11, 63, 8), AIR)],
        [Some(2), Some(4), Some(4), Some(2)],
    )
}

/// The walks by north and south go to the hole in the west too, round the source.
#[test]
fn a_side_that_cannot_be_entered_has_a_drop(rt: HostRuntime) -> Result<(), Fail> {
    expect(
        &rt,
        rt.alloc(),
        &[
            ((8, 64, 8), SOURCE),
            ((7, 64, 8), 4),
            ((7, 63, 8), AIR),
            ((11, 63, 8), AIR),
        ],
        [Some(2), Some(2), Some(0), Some(2)],
    )
}

/// Whether (8, 64, 8), a source, has a hole, by the block below it.
fn has_hole_over(rt: &impl Abort, alloc: Global, below: u16) -> Result<bool, Fail> {
    let kinds = kinds(alloc, rt)?;
    let column = flat_with(alloc, &[((8, 64, 8), SOURCE), ((8, 63, 8), below)])?;
    Ok(drops_at(rt, &column, &kinds, at((8, 64, 8))))
}

#[test]
fn the_turned_block_has_a_hole_where_the_one_below_is_wet_or_can_be_entered(
    rt: HostRuntime,
) -> Result<(), Fail> {
    let cases = [
        (AIR, true),
        (4, true),
        (SOURCE, true),
        (SOAKED_GRASS, true),
        (LAVA, false),
        (STONE, false),
    ];
    for (below, want) in cases {
        expect_equal(&rt, has_hole_over(&rt, rt.alloc(), below)?, want);
    }
    Ok(())
}
