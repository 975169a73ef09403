//! Block tables by hand.
use crate::expecting::{expect_equal, expect_true};
use av_rules::{Row, Rules};
use av_state::{Property, State};
use av_types::Fault;
use std::alloc::Global;
use std::process::Abort;
use std::test::Fail;

/// A property of a key and a value.
fn property(alloc: Global, key: &str, value: &str) -> Result<Property, Fault> {
    Ok(Property {
        key: Vec::from_slice(alloc, key.as_bytes())?,
        value: Vec::from_slice(alloc, value.as_bytes())?,
    })
}

/// A state of a name, and of keys and values.
pub(crate) fn state(alloc: Global, name: &str, pairs: &[(&str, &str)]) -> Result<State, Fault> {
    let mut properties = Vec::new(alloc);
    for (key, value) in pairs {
        properties.push(property(alloc, *key, *value)?)?;
    }
    State::new(Vec::from_slice(alloc, name.as_bytes())?, properties)?.ok_or(Fault::BadPalette)
}

pub(crate) fn row(opens: bool, floor: bool, opacity: u8, emission: u8) -> Row {
    Row {
        opens,
        floor,
        opacity,
        emission,
        wet: false,
    }
}

/// The state of a name has this row.
pub(crate) fn expect_row(
    rt: &impl Abort,
    alloc: Global,
    rules: &Rules,
    name: &str,
    want: Row,
) -> Result<(), Fault> {
    let state = state(alloc, name, &[])?;
    assert_eq!(rt; rules.row(&state), want, "{name}");
    Ok(())
}

/// The table of this text is of a world of this height.
fn expect_height(
    rt: &impl Abort,
    alloc: Global,
    text: &[u8],
    min_section: i32,
    sections: u32,
) -> Result<(), Fault> {
    let height = Rules::read(alloc, text)?.height();
    expect_equal(
        rt,
        (height.min_section, height.sections),
        (min_section, sections),
    );
    Ok(())
}

#[test]
fn a_bare_table(rt: HostRuntime) -> Result<(), Fail> {
    expect_height(&rt, rt.alloc(), b"version = 1", -4, 24)?;
    let rules = Rules::read(rt.alloc(), b"version = 1")?;
    let rows = [
        ("minecraft:air", row(true, false, 0, 0)),
        ("minecraft:water", row(false, false, 1, 0)),
        ("minecraft:stone", row(false, true, 15, 0)),
    ];
    for (name, want) in &rows {
        expect_row(&rt, rt.alloc(), &rules, *name, *want)?;
    }
    Ok(())
}

/// A table of this text is refused.
fn expect_refused(rt: &impl Abort, alloc: Global, text: &[u8], which: &str) {
    let fault = Rules::read(alloc, text).err();
    assert!(rt; fault == Some(Fault::BadTable), "{which}");
}

#[test]
fn refuses_other_tables(rt: HostRuntime) -> Result<(), Fail> {
    let documents: [&[u8]; 17] = [
        b"",
        b"version = 4",
        b"version = 0",
        b"version = -1",
        b"version = 1\nversion = 1",
        b"version = 1\nname = \"x\"",
        b"version = 1\nmin_section = 0\nsections = 16",
        b"version = 3",
        b"version = 3\nmin_section = 0",
        b"version = 3\nsections = 16",
        b"version = 3\nmin_section = 1\nsections = 64",
        b"version = 3\nmin_section = 0\nsections = 0",
        b"version = 3\nmin_section = -65\nsections = 1",
        b"version = 1\nblock = 1",
        b"version = 1\nblock = [1]",
        b"version = 1 # \xFF",
        b"version",
    ];
    for (number, text) in documents.iter().enumerate() {
        let which = format!(in rt.alloc(); "document {number}")?;
        expect_refused(&rt, rt.alloc(), *text, which.as_str());
    }
    Ok(())
}

/// A table of one row, of a block of this name, with these lines.
fn one_row(alloc: Global, name: &str, rest: &str) -> Result<String, Fault> {
    Ok(format!(in alloc; "version = 1\n[[block]]\nname = \"{name}\"\n{rest}")?)
}

/// A row of a block of this name, with these lines, is refused.
fn expect_refused_row(rt: &impl Abort, alloc: Global, name: &str, rest: &str) -> Result<(), Fault> {
    let document = one_row(alloc, name, rest)?;
    let fault = Rules::read(alloc, document.as_bytes()).err();
    assert!(rt; fault == Some(Fault::BadTable), "{name} {rest}");
    Ok(())
}

/// A row that is open and no floor.
const OPEN: &str = "open = true\nfloor = false\nopacity = 0\nemission = 0";

#[test]
fn refuses_other_rows(rt: HostRuntime) -> Result<(), Fail> {
    let rests = [
        "opacity = 16\nemission = 0",
        "opacity = -1\nemission = 0",
        "opacity = 0\nemission = 1.0",
        "opacity = 0\nemission = 0\nwet = true",
        "opacity = 0\nemission = 0\nlight = 3",
        "opacity = 0\nemission = 0\nproperties = 3",
        "opacity = 0\nemission = 0\nproperties = { lit = true }",
        "opacity = 0",
    ];
    for text in &rests {
        let rest = format!(in rt.alloc(); "open = true\nfloor = false\n{text}")?;
        expect_refused_row(&rt, rt.alloc(), "a:b", rest.as_str())?;
    }
    let open = "open = \"true\"\nfloor = false\nopacity = 0\nemission = 0";
    expect_refused_row(&rt, rt.alloc(), "a:b", open)?;
    Ok(())
}

#[test]
fn refuses_rows_of_water_and_air(rt: HostRuntime) -> Result<(), Fail> {
    let good = one_row(rt.alloc(), "a:b", OPEN)?;
    expect_true(&rt, Rules::read(rt.alloc(), good.as_bytes()).is_ok());
    for name in ["minecraft:water", "minecraft:air"] {
        expect_refused_row(&rt, rt.alloc(), name, OPEN)?;
    }
    Ok(())
}

#[test]
fn reads_the_height(rt: HostRuntime) -> Result<(), Fail> {
    let high = b"version = 3\nmin_section = 63\nsections = 1";
    expect_height(&rt, rt.alloc(), high, 63, 1)?;
    let tall = b"version = 3\nmin_section = -64\nsections = 64";
    expect_height(&rt, rt.alloc(), tall, -64, 64)?;
    Ok(())
}

#[test]
fn reads_the_shipped_table(rt: HostRuntime) -> Result<(), Fail> {
    let rows = [
        ("cave_air", row(true, false, 0, 0)),
        ("void_air", row(true, false, 0, 0)),
        ("torch", row(true, false, 0, 14)),
        ("wall_torch", row(true, false, 0, 14)),
        ("grass", row(true, false, 0, 0)),
        ("dandelion", row(true, false, 0, 0)),
        ("poppy", row(true, false, 0, 0)),
        ("glass", row(false, true, 0, 0)),
        ("oak_leaves", row(false, true, 1, 0)),
        ("glowstone", row(false, true, 15, 15)),
        ("sea_lantern", row(false, true, 15, 15)),
        ("lava", row(false, false, 1, 15)),
        ("stone", row(false, true, 15, 0)),
    ];
    let rules = Rules::read(rt.alloc(), SHIPPED.as_bytes())?;
    for (name, want) in &rows {
        let name = format!(in rt.alloc(); "minecraft:{name}")?;
        expect_row(&rt, rt.alloc(), &rules, name.as_str(), *want)?;
    }
    Ok(())
}

/// The text of `tables/blocks.toml`.
const SHIPPED: &str =
    r#"# What water and light ask of some blocks. The first row whose name and properties fit a block state counts.
# A state that no row fits is shut, a floor, stops all light and gives none. Air and water are built in.
version = 1

[[block]]
name = "minecraft:cave_air"
open = true
floor = false
opacity = 0
emission = 0

[[block]]
name = "minecraft:void_air"
open = true
floor = false
opacity = 0
emission = 0

[[block]]
name = "minecraft:torch"
open = true
floor = false
opacity = 0
emission = 14

[[block]]
name = "minecraft:wall_torch"
open = true
floor = false
opacity = 0
emission = 14

[[block]]
name = "minecraft:grass"
open = true
floor = false
opacity = 0
emission = 0

[[block]]
name = "minecraft:dandelion"
open = true
floor = false
opacity = 0
emission = 0

[[block]]
name = "minecraft:poppy"
open = true
floor = false
opacity = 0
emission = 0

[[block]]
name = "minecraft:glass"
open = false
floor = true
opacity = 0
emission = 0

[[block]]
name = "minecraft:oak_leaves"
open = false
floor = true
opacity = 1
emission = 0

[[block]]
name = "minecraft:glowstone"
open = false
floor = true
opacity = 15
emission = 15

[[block]]
name = "minecraft:sea_lantern"
open = false
floor = true
opacity = 15
emission = 15

[[block]]
name = "minecraft:lava"
open = false
floor = false
opacity = 1
emission = 15

[[block]]
name = "minecraft:stone"
open = false
floor = true
opacity = 15
emission = 0
"#;
