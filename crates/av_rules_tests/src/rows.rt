//! Which row of a table counts.
use crate::expecting::expect_equal;
use crate::tests::{expect_row, row, state};
use av_rules::Rules;
use av_types::Fault;
use std::alloc::Global;
use std::process::Abort;
use std::test::Fail;

/// Rows for lit and for other furnaces, in either order.
const FURNACES: [(&[u8], u8, u8); 2] = [
    (
        b"version = 1
[[block]]
name = \"minecraft:furnace\"
open = false
floor = true
opacity = 15
emission = 13
properties = { lit = \"true\" }
[[block]]
name = \"minecraft:furnace\"
open = false
floor = true
opacity = 15
emission = 0
",
        13,
        0,
    ),
    (
        b"version = 1
[[block]]
name = \"minecraft:furnace\"
open = false
floor = true
opacity = 15
emission = 0
[[block]]
name = \"minecraft:furnace\"
open = false
floor = true
opacity = 15
emission = 13
properties = { lit = \"true\" }
",
        0,
        0,
    ),
];

/// The emission of a furnace by a table.
fn furnace_emission(alloc: Global, rules: &Rules, pairs: &[(&str, &str)]) -> Result<u8, Fault> {
    let furnace = state(alloc, "minecraft:furnace", pairs)?;
    Ok(rules.row(&furnace).emission)
}

#[test]
fn the_first_row_counts(rt: HostRuntime) -> Result<(), Fail> {
    let alloc = rt.alloc();
    for (text, want, want_unlit) in FURNACES {
        let rules = Rules::read(alloc, text)?;
        let lit = furnace_emission(alloc, &rules, &[("facing", "north"), ("lit", "true")])?;
        let unlit = furnace_emission(alloc, &rules, &[("lit", "false")])?;
        expect_equal(&rt, (lit, unlit), (want, want_unlit));
    }
    Ok(())
}

/// A table of these rows: their blocks are shut and give so much light.
fn lamps(alloc: Global, rows: &[(&str, u8)]) -> Result<Rules, Fault> {
    let mut document = format!(in alloc; "version = 1\n")?;
    for (name, emission) in rows {
        let lamp = format!(in alloc;
            "[[block]]\nname = \"{name}\"\nopen = false\nfloor = true\nopacity = 15\nemission = {emission}\n"
        )?;
        document.push_str(lamp.as_str())?;
    }
    Rules::read(alloc, document.as_bytes())
}

/// By a table of the first three of these lamps each of them gives so much light.
fn expect_lamps(rt: &impl Abort, alloc: Global, wants: &[(&str, u8)]) -> Result<(), Fault> {
    let rules = lamps(alloc, &wants[..wants.len().min(3)])?;
    for (name, emission) in wants {
        expect_row(rt, alloc, &rules, *name, row(false, true, 15, *emission))?;
    }
    Ok(())
}

/// A table of three rows has 32 buckets. A name of one letter falls into the whole part of 25.4972303 times its byte, modulo 32:
/// `a` (97) into 2473 % 32 = 9, `g` (103) into 2626 % 32 = 2, `b` (98) into 2498 % 32 = 2, and of those that no row is for `'` (39)
/// into 994 % 32 = 2 and `h` (104) into 2651 % 32 = 27, where no row's name is. So the search for `b` goes past the row of `g`.
const LETTERS: [(&str, u8); 5] = [("a", 1), ("g", 2), ("b", 3), ("'", 0), ("h", 0)];

/// Names whose first 64 bytes are the same fall into one bucket.
const LONG_NAMES: [(&str, u8); 5] = [
    (
        "a_mod:0123456789_123456789_123456789_123456789_123456789_1234567/north",
        1,
    ),
    (
        "a_mod:0123456789_123456789_123456789_123456789_123456789_1234567/south",
        2,
    ),
    (
        "a_mod:0123456789_123456789_123456789_123456789_123456789_1234567",
        3,
    ),
    (
        "a_mod:0123456789_123456789_123456789_123456789_123456789_1234567/west",
        0,
    ),
    (
        "a_mod:0123456789_123456789_123456789_123456789_123456789_123456",
        0,
    ),
];

#[test]
fn names_of_one_bucket(rt: HostRuntime) -> Result<(), Fail> {
    for wants in [LETTERS, LONG_NAMES] {
        expect_lamps(&rt, rt.alloc(), &wants)?;
    }
    Ok(())
}
