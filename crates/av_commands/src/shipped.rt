//! The block table of a run that names none, which is `tables/blocks.toml`; `scripts/ship_table.py` writes this file.

pub const SHIPPED_TABLE: &str =
    r#"# What water and light ask of some blocks. The first row whose name and properties fit a block state counts.
# A state that no row fits is shut, a floor, stops all light and gives none. Air and water are built in.
version = 1

[[block]]
name = "minecraft:cave_air"
open = true
floor = false
opacity = 0
emission = 0

[[block]]
name = "minecraft:void_air"
open = true
floor = false
opacity = 0
emission = 0

[[block]]
name = "minecraft:torch"
open = true
floor = false
opacity = 0
emission = 14

[[block]]
name = "minecraft:wall_torch"
open = true
floor = false
opacity = 0
emission = 14

[[block]]
name = "minecraft:grass"
open = true
floor = false
opacity = 0
emission = 0

[[block]]
name = "minecraft:dandelion"
open = true
floor = false
opacity = 0
emission = 0

[[block]]
name = "minecraft:poppy"
open = true
floor = false
opacity = 0
emission = 0

[[block]]
name = "minecraft:glass"
open = false
floor = true
opacity = 0
emission = 0

[[block]]
name = "minecraft:oak_leaves"
open = false
floor = true
opacity = 1
emission = 0

[[block]]
name = "minecraft:glowstone"
open = false
floor = true
opacity = 15
emission = 15

[[block]]
name = "minecraft:sea_lantern"
open = false
floor = true
opacity = 15
emission = 15

[[block]]
name = "minecraft:lava"
open = false
floor = false
opacity = 1
emission = 15

[[block]]
name = "minecraft:stone"
open = false
floor = true
opacity = 15
emission = 0
"#;
