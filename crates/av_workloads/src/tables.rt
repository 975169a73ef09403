//! Block tables.
use std::alloc::{AllocError, Global};

/// What water and light ask of the drawn states.
pub(crate) const TABLE: &str = r#"version = 2

[[block]]
name = "minecraft:cave_air"
open = true
floor = false
opacity = 0
emission = 0

[[block]]
name = "minecraft:torch"
open = true
floor = false
opacity = 0
emission = 14

[[block]]
name = "minecraft:wall_torch"
open = true
floor = false
opacity = 0
emission = 14

[[block]]
name = "minecraft:grass"
open = true
floor = false
opacity = 0
emission = 0

[[block]]
name = "minecraft:dandelion"
open = true
floor = false
opacity = 0
emission = 0

[[block]]
name = "minecraft:poppy"
open = true
floor = false
opacity = 0
emission = 0

[[block]]
name = "minecraft:glass"
open = false
floor = true
opacity = 0
emission = 0

[[block]]
name = "minecraft:oak_leaves"
open = false
floor = true
opacity = 1
emission = 0

[[block]]
name = "minecraft:oak_fence"
open = false
floor = true
opacity = 0
emission = 0

[[block]]
name = "minecraft:rail"
open = true
floor = false
opacity = 0
emission = 0

[[block]]
name = "minecraft:glow_lichen"
open = true
floor = false
opacity = 0
emission = 7

[[block]]
name = "minecraft:sea_lantern"
open = false
floor = true
opacity = 15
emission = 15

[[block]]
name = "minecraft:lava"
open = false
floor = false
opacity = 1
emission = 15

[[block]]
name = "minecraft:redstone_ore"
properties = { lit = "true" }
open = false
floor = true
opacity = 15
emission = 9
"#;

/// A table of so many rows, each of another name, behind those of `TABLE`.
pub(crate) fn long_table(alloc: Global, rows: u32) -> Result<String, AllocError> {
    let mut table = String::from_str(alloc, TABLE)?;
    for row in 0..rows {
        let emission = row % 16;
        let text = format!(in alloc;
            "\n[[block]]\nname = \"m:s{row}\"\nopen = false\nfloor = true\nopacity = 15\nemission = {emission}\n"
        )?;
        table.push_str(text.as_str())?;
    }
    Ok(table)
}
