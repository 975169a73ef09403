//! Turns of (8, 64, 8), which is called p here.
use crate::flat::{
    AIR, FALLING, GRASS, SOAKED_GRASS, SOURCE, STONE, expect_onto_again, expect_turn, flat_with,
    kinds,
};
use arrayvec::ArrayVec;
use std::test::Fail;

#[test]
fn water_below_is_a_hole_also_where_it_flows(rt: HostRuntime) -> Result<(), Fail> {
    expect_turn(
        &rt,
        rt.alloc(),
        &[((8, 64, 8), 2), ((7, 64, 8), SOURCE), ((8, 63, 8), 4)],
        &[],
        &[((8, 64, 8), 2), ((9, 64, 8), AIR)],
    )
}

#[test]
fn a_dry_block_does_nothing(rt: HostRuntime) -> Result<(), Fail> {
    expect_turn(
        &rt,
        rt.alloc(),
        &[((7, 64, 8), SOURCE)],
        &[],
        &[((8, 64, 8), AIR)],
    )
}

#[test]
fn a_wet_block_is_not_entered_though_its_row_is_open(rt: HostRuntime) -> Result<(), Fail> {
    expect_turn(
        &rt,
        rt.alloc(),
        &[((8, 64, 8), SOURCE), ((9, 64, 8), SOAKED_GRASS)],
        &[(8, 64, 7), (8, 64, 8), (8, 64, 9), (7, 64, 8)],
        &[
            ((9, 64, 8), SOAKED_GRASS),
            ((8, 64, 7), 2),
            ((8, 64, 9), 2),
            ((7, 64, 8), 2),
        ],
    )
}

#[test]
fn one_list_serves_turn_after_turn(rt: HostRuntime) -> Result<(), Fail> {
    let kinds = kinds(rt.alloc(), &rt)?;
    let blocks = [((8, 64, 8), SOURCE), ((9, 64, 8), SOAKED_GRASS)];
    let mut column = flat_with(rt.alloc(), &blocks)?;
    let mut made = ArrayVec::new();
    let first = [(8, 64, 7), (8, 64, 8), (8, 64, 9), (7, 64, 8)];
    expect_onto_again(&rt, &mut column, &kinds, (8, 64, 8), &mut made, &first)?;
    expect_onto_again(&rt, &mut column, &kinds, (8, 66, 8), &mut made, &[])?;
    Ok(())
}

#[test]
fn over_a_hole_it_spreads_with_three_sources(rt: HostRuntime) -> Result<(), Fail> {
    expect_turn(
        &rt,
        rt.alloc(),
        &[
            ((8, 64, 8), 2),
            ((8, 64, 7), SOURCE),
            ((8, 64, 9), SOURCE),
            ((7, 64, 8), SOURCE),
            ((8, 63, 8), AIR),
        ],
        &[(8, 63, 8), (8, 64, 8), (9, 64, 8)],
        &[((8, 63, 8), FALLING), ((9, 64, 8), 3)],
    )
}

#[test]
fn over_a_hole_it_does_not_spread_with_two_sources(rt: HostRuntime) -> Result<(), Fail> {
    expect_turn(
        &rt,
        rt.alloc(),
        &[
            ((8, 64, 8), 2),
            ((8, 64, 7), SOURCE),
            ((8, 64, 9), SOURCE),
            ((8, 63, 8), AIR),
        ],
        &[(8, 63, 8), (8, 64, 8)],
        &[((8, 63, 8), FALLING), ((9, 64, 8), AIR), ((7, 64, 8), AIR)],
    )
}

#[test]
fn what_falls_between_two_sources_is_a_source(rt: HostRuntime) -> Result<(), Fail> {
    expect_turn(
        &rt,
        rt.alloc(),
        &[
            ((8, 64, 8), SOURCE),
            ((7, 63, 8), SOURCE),
            ((9, 63, 8), SOURCE),
            ((8, 63, 8), AIR),
            ((8, 62, 8), STONE),
        ],
        &[(8, 63, 8), (8, 64, 8), (7, 63, 8), (9, 63, 8)],
        &[((8, 63, 8), SOURCE)],
    )
}

#[test]
fn a_turn_goes_on_after_its_block_was_brought_up_to_date(rt: HostRuntime) -> Result<(), Fail> {
    expect_turn(
        &rt,
        rt.alloc(),
        &[((8, 64, 8), 4), ((7, 64, 8), SOURCE)],
        &[(8, 64, 8), (7, 64, 8), (8, 64, 7), (8, 64, 9), (9, 64, 8)],
        &[
            ((8, 64, 8), 2),
            ((8, 64, 7), 3),
            ((8, 64, 9), 3),
            ((9, 64, 8), 3),
        ],
    )
}

#[test]
fn the_least_amount_does_not_spread(rt: HostRuntime) -> Result<(), Fail> {
    expect_turn(
        &rt,
        rt.alloc(),
        &[((8, 64, 8), 8), ((7, 64, 8), 7), ((9, 64, 8), GRASS)],
        &[],
        &[((8, 64, 8), 8), ((9, 64, 8), GRASS)],
    )
}

#[test]
fn a_source_over_water_spreads(rt: HostRuntime) -> Result<(), Fail> {
    expect_turn(
        &rt,
        rt.alloc(),
        &[((8, 64, 8), SOURCE), ((8, 63, 8), 4)],
        &[(8, 64, 7), (8, 64, 8), (8, 64, 9), (7, 64, 8), (9, 64, 8)],
        &[
            ((8, 64, 7), 2),
            ((8, 64, 9), 2),
            ((7, 64, 8), 2),
            ((9, 64, 8), 2),
        ],
    )
}

#[test]
fn water_goes_to_all_of_the_nearest_drops(rt: HostRuntime) -> Result<(), Fail> {
    expect_turn(
        &rt,
        rt.alloc(),
        &[((8, 64, 8), SOURCE), ((8, 63, 5), AIR), ((11, 63, 8), AIR)],
        &[(8, 64, 7), (8, 64, 8), (9, 64, 8)],
        &[
            ((8, 64, 7), 2),
            ((9, 64, 8), 2),
            ((7, 64, 8), AIR),
            ((8, 64, 9), AIR),
        ],
    )
}

#[test]
fn a_side_that_cannot_be_entered_does_not_count_for_the_nearest(
    rt: HostRuntime,
) -> Result<(), Fail> {
    expect_turn(
        &rt,
        rt.alloc(),
        &[
            ((8, 64, 8), SOURCE),
            ((7, 64, 8), 4),
            ((7, 63, 8), AIR),
            ((11, 63, 8), AIR),
        ],
        &[(8, 64, 7), (8, 64, 8), (8, 64, 9), (9, 64, 8)],
        &[((8, 64, 7), 2), ((8, 64, 9), 2), ((9, 64, 8), 2)],
    )
}
