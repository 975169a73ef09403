//! The states of the tests, and their rows.
use av_rules::{Kinds, Rules};
use av_state::{Property, State, StateTable};
use av_types::Fault;
use std::alloc::Global;

/// The first state of a table that is not built in. It has no row here, and so is shut.
pub const STONE: u16 = 10;

pub const GLOWSTONE: u16 = 11;

/// The rows of the shipped table that give light.
const EMITTERS: &[u8] = b"version = 1
[[block]]
name = \"minecraft:glowstone\"
open = false
floor = true
opacity = 15
emission = 15
[[block]]
name = \"minecraft:torch\"
open = true
floor = false
opacity = 0
emission = 14
[[block]]
name = \"minecraft:wall_torch\"
open = true
floor = false
opacity = 0
emission = 14
[[block]]
name = \"minecraft:sea_lantern\"
open = false
floor = true
opacity = 15
emission = 15
[[block]]
name = \"minecraft:lava\"
open = false
floor = false
opacity = 1
emission = 15
";

/// Stone is number 10, glowstone to lava are 11 to 15.
const NAMES: [&str; 6] = [
    "minecraft:stone",
    "minecraft:glowstone",
    "minecraft:torch",
    "minecraft:wall_torch",
    "minecraft:sea_lantern",
    "minecraft:lava",
];

/// Numbers the state of a name and properties.
fn intern_with(
    alloc: Global,
    table: &mut StateTable,
    name: &str,
    properties: Vec<Property>,
) -> Result<(), Fault> {
    let name = Vec::from_slice(alloc, name.as_bytes())?;
    let state = State::new(name, properties)?.ok_or(Fault::BadPalette)?;
    let _ = table.intern(&state)?;
    Ok(())
}

/// Numbers the state of a name.
fn intern(alloc: Global, table: &mut StateTable, name: &str) -> Result<(), Fault> {
    intern_with(alloc, table, name, Vec::new(alloc))
}

/// Kinds of these states.
pub fn kinds(alloc: Global) -> Result<Kinds, Fault> {
    let mut table = StateTable::new(alloc)?;
    for name in NAMES {
        intern(alloc, &mut table, name)?;
    }
    Kinds::new(alloc, table, &Rules::read(alloc, EMITTERS)?)
}

/// A slab that stops 8 and gives 5, in a table of a version that soaks.
const SLABS: &[u8] = b"version = 2
[[block]]
name = \"minecraft:glowstone\"
open = false
floor = true
opacity = 15
emission = 15
[[block]]
name = \"minecraft:oak_slab\"
open = false
floor = true
opacity = 8
emission = 5
";

/// A slab that is soaked, among the kinds of `kinds_with_slab`.
pub const SOAKED_SLAB: u16 = 12;

/// Stone is number 10, glowstone 11, and a soaked slab 12.
pub fn kinds_with_slab(alloc: Global) -> Result<Kinds, Fault> {
    let mut table = StateTable::new(alloc)?;
    intern(alloc, &mut table, "minecraft:stone")?;
    intern(alloc, &mut table, "minecraft:glowstone")?;
    let mut properties = Vec::new(alloc);
    properties.push(Property {
        key: Vec::from_slice(alloc, b"waterlogged")?,
        value: Vec::from_slice(alloc, b"true")?,
    })?;
    intern_with(alloc, &mut table, "minecraft:oak_slab", properties)?;
    Kinds::new(alloc, table, &Rules::read(alloc, SLABS)?)
}

/// Numbers from 10 on: 16 states that give no light and have each opacity, then 16 that give each light.
pub fn drawn_kinds(alloc: Global) -> Result<Kinds, Fault> {
    let mut table = StateTable::new(alloc)?;
    let mut rows = format!(in alloc; "version = 1\n")?;
    for number in 0..32u32 {
        let name = format!(in alloc; "minecraft:number{number}")?;
        intern(alloc, &mut table, name.as_str())?;
        let opacity = 7 * number % 16;
        let emission = number / 16 * (number % 16);
        let row = format!(in alloc;
            "[[block]]\nname = \"{name}\"\nopen = false\nfloor = true\nopacity = {opacity}\nemission = {emission}\n"
        )?;
        rows.push_str(row.as_str())?;
    }
    Kinds::new(alloc, table, &Rules::read(alloc, rows.as_bytes())?)
}
