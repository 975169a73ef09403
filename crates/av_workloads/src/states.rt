//! Block states as a server writes them.
use crate::documents::{COMPOUND, put_end, put_head, put_named_text};
use std::alloc::AllocError;

/// The states of the sections that are drawn, as `NAME` or `NAME[k=v,..]`. The first is air.
pub(crate) const STATES: [&str; 56] = [
    "minecraft:air",
    "minecraft:cave_air",
    "minecraft:stone",
    "minecraft:deepslate[axis=y]",
    "minecraft:bedrock",
    "minecraft:dirt",
    "minecraft:grass_block[snowy=false]",
    "minecraft:tuff",
    "minecraft:lava[level=0]",
    "minecraft:torch",
    "minecraft:sea_lantern",
    "minecraft:oak_log[axis=y]",
    "minecraft:oak_leaves[distance=1,persistent=false]",
    "minecraft:oak_leaves[distance=2,persistent=false]",
    "minecraft:glass",
    "minecraft:water[level=0]",
    "minecraft:gravel",
    "minecraft:granite",
    "minecraft:diorite",
    "minecraft:andesite",
    "minecraft:coal_ore",
    "minecraft:iron_ore",
    "minecraft:copper_ore",
    "minecraft:gold_ore",
    "minecraft:lapis_ore",
    "minecraft:redstone_ore[lit=false]",
    "minecraft:deepslate_iron_ore",
    "minecraft:deepslate_gold_ore",
    "minecraft:deepslate_diamond_ore",
    "minecraft:deepslate_lapis_ore",
    "minecraft:deepslate_redstone_ore[lit=false]",
    "minecraft:grass",
    "minecraft:dandelion",
    "minecraft:poppy",
    "minecraft:oak_planks",
    "minecraft:oak_fence[east=false,north=true,south=true,waterlogged=false,west=false]",
    "minecraft:oak_stairs[facing=north,half=bottom,shape=straight,waterlogged=false]",
    "minecraft:oak_slab[type=bottom,waterlogged=true]",
    "minecraft:chest[facing=north,type=single,waterlogged=false]",
    "minecraft:rail[shape=north_south,waterlogged=false]",
    "minecraft:cobweb",
    "minecraft:cobblestone",
    "minecraft:mossy_cobblestone",
    "minecraft:moss_block",
    "minecraft:clay",
    "minecraft:smooth_basalt",
    "minecraft:calcite",
    "minecraft:amethyst_block",
    "minecraft:spawner",
    "minecraft:glow_lichen[down=false,east=false,north=false,south=false,up=true,waterlogged=false,west=false]",
    "minecraft:oak_door[facing=east,half=lower,hinge=left,open=false,powered=false]",
    "minecraft:white_bed[facing=west,occupied=false,part=head]",
    "minecraft:bookshelf",
    "minecraft:crafting_table",
    "minecraft:wall_torch[facing=south]",
    "minecraft:dripstone_block",
];

pub(crate) const AIR: u8 = 0;

pub(crate) const CAVE_AIR: u8 = 1;

pub(crate) const STONE: u8 = 2;

pub(crate) const DEEPSLATE: u8 = 3;

pub(crate) const BEDROCK: u8 = 4;

pub(crate) const DIRT: u8 = 5;

pub(crate) const GRASS_BLOCK: u8 = 6;

pub(crate) const LAVA: u8 = 8;

pub(crate) const TORCH: u8 = 9;

pub(crate) const LANTERN: u8 = 10;

pub(crate) const LOG: u8 = 11;

pub(crate) const LEAVES: u8 = 12;

/// The first of the states that are scattered in the ground, and how many they are: those of stone, then those of
/// deepslate.
pub(crate) const ORES: u8 = 16;

pub(crate) const ORES_COUNT: u32 = 15;

/// The first of the states that stand in the open, and how many they are: plants first, then what players leave.
pub(crate) const PLANTS: u8 = 31;

pub(crate) const PLANTS_COUNT: u32 = 3;

pub(crate) const ODDITIES: u8 = 34;

pub(crate) const ODDITIES_COUNT: u32 = 22;

/// The text of a state's number.
fn text_of(number: u8) -> &'static str {
    let number = usize::from(number);
    if number < STATES.len() {
        STATES[number]
    } else {
        STATES[0]
    }
}

/// The two halves of bytes where a byte is first, without it; or all and nothing.
fn halves(text: &[u8], mark: u8) -> (&[u8], &[u8]) {
    match text.iter().position(|byte| *byte == mark) {
        Some(at) if at < text.len() => (&text[..at], &text[at + 1..]),
        _ => (text, &[]),
    }
}

/// The properties `k=v,..` as the members of a Compound.
fn put_properties(out: &mut Vec<u8>, pairs: &[u8]) -> Result<(), AllocError> {
    for pair in pairs.split(|byte| -> bool { *byte == b',' }) {
        let (key, value) = halves(pair, b'=');
        put_named_text(out, key, value)?;
    }
    put_end(out)
}

/// A palette entry: the state of a text.
pub(crate) fn put_state_text(out: &mut Vec<u8>, text: &[u8]) -> Result<(), AllocError> {
    let (name, rest) = halves(text, b'[');
    let (pairs, _) = halves(rest, b']');
    put_named_text(out, b"Name", name)?;
    if !pairs.is_empty() {
        put_head(out, COMPOUND, b"Properties")?;
        put_properties(out, pairs)?;
    }
    put_end(out)
}

/// A palette entry: the state of a number.
pub(crate) fn put_state(out: &mut Vec<u8>, number: u8) -> Result<(), AllocError> {
    put_state_text(out, text_of(number).as_bytes())
}
