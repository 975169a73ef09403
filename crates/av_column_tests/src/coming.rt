//! What comes into a block, and what a set wakes.
use crate::expecting::expect_equal;
use crate::flat::{
    Block, FALLING, LAVA, SOURCE, at, comes_into, expect_entries, flat_with, kinds, set,
};
use av_types::Wet;
use std::alloc::Global;
use std::process::Abort;
use std::test::Fail;

/// What comes into a block of the flat world with these blocks.
fn expect(
    rt: &impl Abort,
    alloc: Global,
    blocks: &[(Block, u16)],
    block: Block,
    want: Wet,
) -> Result<(), Fail> {
    let kinds = kinds(alloc, rt)?;
    let column = flat_with(alloc, blocks)?;
    expect_equal(rt, comes_into(rt, &column, &kinds, at(block)), want);
    Ok(())
}

const WEST_ABOVE: (Block, u16) = ((8, 65, 8), SOURCE);

const EAST_ABOVE: (Block, u16) = ((10, 65, 8), SOURCE);

#[test]
fn a_source_forms_over_a_source(rt: HostRuntime) -> Result<(), Fail> {
    let blocks = [WEST_ABOVE, EAST_ABOVE, ((9, 64, 8), SOURCE)];
    expect(&rt, rt.alloc(), &blocks, (9, 65, 8), Wet::Source)
}

#[test]
fn a_source_forms_over_no_other_water(rt: HostRuntime) -> Result<(), Fail> {
    let blocks = [WEST_ABOVE, EAST_ABOVE, ((9, 64, 8), 4)];
    expect(&rt, rt.alloc(), &blocks, (9, 65, 8), Wet::Flow(7))
}

#[test]
fn any_water_above_falls(rt: HostRuntime) -> Result<(), Fail> {
    let blocks = [((8, 65, 8), 4)];
    expect(&rt, rt.alloc(), &blocks, (8, 64, 8), Wet::Falling)
}

#[test]
fn falling_water_above_falls(rt: HostRuntime) -> Result<(), Fail> {
    let blocks = [((8, 65, 8), FALLING)];
    expect(&rt, rt.alloc(), &blocks, (8, 64, 8), Wet::Falling)
}

const WEST: (Block, u16) = ((8, 64, 8), SOURCE);

const EAST: (Block, u16) = ((10, 64, 8), SOURCE);

const NORTH: (Block, u16) = ((9, 64, 7), SOURCE);

const SOUTH: (Block, u16) = ((9, 64, 9), SOURCE);

#[test]
fn two_sources_come_before_water_above(rt: HostRuntime) -> Result<(), Fail> {
    let blocks = [WEST, EAST, ((9, 65, 8), SOURCE)];
    expect(&rt, rt.alloc(), &blocks, (9, 64, 8), Wet::Source)
}

#[test]
fn three_of_four_sides_make_a_source(rt: HostRuntime) -> Result<(), Fail> {
    let blocks = [WEST, EAST, NORTH];
    expect(&rt, rt.alloc(), &blocks, (9, 64, 8), Wet::Source)
}

#[test]
fn any_two_of_four_sides_make_a_source(rt: HostRuntime) -> Result<(), Fail> {
    for other in [SOUTH, WEST] {
        expect(&rt, rt.alloc(), &[NORTH, other], (9, 64, 8), Wet::Source)?;
    }
    Ok(())
}

#[test]
fn one_of_four_sides_makes_no_source(rt: HostRuntime) -> Result<(), Fail> {
    expect(&rt, rt.alloc(), &[NORTH], (9, 64, 8), Wet::Flow(7))
}

#[test]
fn no_source_forms_over_lava(rt: HostRuntime) -> Result<(), Fail> {
    let blocks = [WEST, EAST, ((9, 63, 8), LAVA)];
    expect(&rt, rt.alloc(), &blocks, (9, 64, 8), Wet::Flow(7))
}

#[test]
fn no_source_forms_over_what_flows(rt: HostRuntime) -> Result<(), Fail> {
    let blocks = [WEST, EAST, ((9, 63, 8), 4)];
    expect(&rt, rt.alloc(), &blocks, (9, 64, 8), Wet::Flow(7))
}

/// A set to a source in the flat world with these blocks makes these entries.
fn expect_set(
    rt: &impl Abort,
    alloc: Global,
    blocks: &[(Block, u16)],
    block: Block,
    entries: &[Block],
) -> Result<(), Fail> {
    let kinds = kinds(alloc, rt)?;
    let mut column = flat_with(alloc, blocks)?;
    let made = set(rt, &mut column, &kinds, block, SOURCE)?;
    expect_entries(rt, made.as_slice(), entries);
    Ok(())
}

#[test]
fn a_set_wakes_itself_below_above_and_the_four_sides(rt: HostRuntime) -> Result<(), Fail> {
    let blocks = [
        ((8, 65, 8), 4),
        ((8, 64, 8), 4),
        ((8, 66, 8), 4),
        ((8, 65, 7), 4),
        ((8, 65, 9), 4),
        ((7, 65, 8), 4),
        ((9, 65, 8), 4),
    ];
    let entries = [
        (8, 65, 8),
        (8, 64, 8),
        (8, 66, 8),
        (8, 65, 7),
        (8, 65, 9),
        (7, 65, 8),
        (9, 65, 8),
    ];
    expect_set(&rt, rt.alloc(), &blocks, (8, 65, 8), &entries)
}
