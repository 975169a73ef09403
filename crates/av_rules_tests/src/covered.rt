//! Which states have a row.
use crate::expecting::expect_equal;
use crate::tests::state;
use av_rules::Rules;
use std::alloc::Global;
use std::process::Abort;
use std::test::Fail;

const TABLE: &[u8] = b"version = 2
[[block]]
name = \"minecraft:furnace\"
open = false
floor = true
opacity = 15
emission = 13
properties = { lit = \"true\" }
[[block]]
name = \"minecraft:stone\"
open = false
floor = true
opacity = 15
emission = 0
";

/// Whether a state has a row.
fn expect_row(
    rt: &impl Abort,
    alloc: Global,
    rules: &Rules,
    name: &str,
    pairs: &[(&str, &str)],
    want: bool,
) -> Result<(), Fail> {
    let state = state(alloc, name, pairs)?;
    expect_equal(rt, rules.has_row(&state), want);
    Ok(())
}

#[test]
fn a_row_covers_its_own_states(rt: HostRuntime) -> Result<(), Fail> {
    let alloc = rt.alloc();
    let rules = Rules::read(alloc, TABLE)?;
    let lit = [("facing", "north"), ("lit", "true")];
    expect_row(&rt, alloc, &rules, "minecraft:furnace", &lit, true)?;
    expect_row(
        &rt,
        alloc,
        &rules,
        "minecraft:furnace",
        &[("lit", "false")],
        false,
    )?;
    expect_row(&rt, alloc, &rules, "minecraft:furnace", &[], false)?;
    expect_row(&rt, alloc, &rules, "minecraft:stone", &[], true)?;
    expect_row(&rt, alloc, &rules, "minecraft:ston", &[], false)?;
    Ok(())
}

#[test]
fn air_and_water_are_built_in(rt: HostRuntime) -> Result<(), Fail> {
    let alloc = rt.alloc();
    let rules = Rules::read(alloc, TABLE)?;
    expect_row(&rt, alloc, &rules, "minecraft:air", &[], true)?;
    expect_row(
        &rt,
        alloc,
        &rules,
        "minecraft:water",
        &[("level", "3")],
        true,
    )?;
    // soaked by its property, and without a row all the same
    let soaked = [("waterlogged", "true")];
    expect_row(&rt, alloc, &rules, "minecraft:oak_slab", &soaked, false)?;
    expect_row(&rt, alloc, &rules, "minecraft:cave_air", &[], false)?;
    Ok(())
}
