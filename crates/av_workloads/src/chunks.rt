//! Chunks as a server writes them (<https://minecraft.wiki/w/Chunk_format>), and some that are refused.
use crate::dice::Dice;
use crate::documents::{
    COMPOUND, LIST, put_byte, put_bytes, put_end, put_head, put_int, put_list, put_long, put_longs,
    put_named_text,
};
use crate::packed::put_biomes;
use crate::pool::{Pool, pick};
use crate::states::{AIR, put_state, put_state_text};
use av_types::ChunkPos;
use std::alloc::AllocError;

/// What stands on a chunk's ground.
#[derive(Clone, Copy)]
pub(crate) enum Scene {
    Wild,
    Village,
    Lanterns,
    LavaLake,
}

/// What is wrong with a chunk.
#[derive(Clone, Copy, PartialEq, Eq)]
pub(crate) enum Flaw {
    Nothing,
    /// It has a `Level`, as chunks had before.
    OldLayout,
    /// It is not finished, which is no fault: it is kept as it is.
    Unfinished,
    /// It has no `sections`.
    NoSections,
    /// Its coordinates are those of another.
    Elsewhere,
    /// A palette entry without a name.
    NoName,
    /// A long too few.
    FewLongs,
    /// Water of a level that is none.
    WrongLevel,
    /// A scheduled tick of water out of the chunk.
    TickOutside,
    /// Its document has no end.
    Cut,
}

const BIOMES: [&[u8]; 4] = [
    b"minecraft:plains",
    b"minecraft:forest",
    b"minecraft:lush_caves",
    b"minecraft:dripstone_caves",
];

/// Sky light where nothing stops it.
const BRIGHT: [u8; 2048] = [255; 2048];

/// Block light that is only of the right shape.
const DIM: [u8; 2048] = [17; 2048];

/// A section of air.
fn put_air(out: &mut Vec<u8>) -> Result<(), AllocError> {
    put_head(out, COMPOUND, b"block_states")?;
    put_list(out, b"palette", COMPOUND, 1)?;
    put_state(out, AIR)?;
    put_end(out)
}

/// A palette with an entry that is refused, or longs that are too few for it.
fn put_flawed(out: &mut Vec<u8>, flaw: Flaw) -> Result<(), AllocError> {
    put_head(out, COMPOUND, b"block_states")?;
    put_list(out, b"palette", COMPOUND, 2)?;
    put_state(out, AIR)?;
    match flaw {
        Flaw::NoName => put_end(out)?,
        Flaw::WrongLevel => put_state_text(out, b"minecraft:water[level=99]")?,
        _ => put_state_text(out, b"minecraft:stone")?,
    }
    let count = if flaw == Flaw::FewLongs { 255 } else { 256 };
    put_longs(out, b"data", &[0u64; 256][..count])?;
    put_end(out)
}

/// The `block_states` of the section with an index: 1 is the lowest of the height.
fn put_states(
    out: &mut Vec<u8>,
    pool: &Pool,
    dice: &mut Dice,
    scene: Scene,
    index: u32,
) -> Result<(), AllocError> {
    let from = match index {
        1..=4 => pool.deep.as_slice(),
        5..=9 => pool.stone.as_slice(),
        10 => match scene {
            Scene::Wild => pool.surface.as_slice(),
            Scene::Village => pool.village.as_slice(),
            Scene::Lanterns => pool.lanterns.as_slice(),
            Scene::LavaLake => pool.lava.as_slice(),
        },
        11 | 12 => match scene {
            Scene::Wild | Scene::Village => pool.crowns.as_slice(),
            Scene::Lanterns | Scene::LavaLake => &[],
        },
        _ => &[],
    };
    if from.is_empty() {
        return put_air(out);
    }
    out.extend_from_slice(pick(from, dice))
}

/// The section with an index: -5, which is out of the height, comes first.
fn put_section(
    out: &mut Vec<u8>,
    pool: &Pool,
    dice: &mut Dice,
    scene: Scene,
    flaw: Flaw,
    index: u32,
) -> Result<(), AllocError> {
    put_byte(out, b"Y", ((251 + index % 64) % 256) as u8)?;
    if 1 <= index && index <= 24 {
        match flaw {
            Flaw::NoName | Flaw::FewLongs | Flaw::WrongLevel if index == 3 => {
                put_flawed(out, flaw)?
            }
            _ => put_states(out, pool, dice, scene, index)?,
        }
        put_biomes(out, BIOMES[(dice.roll() % 4) as usize])?;
    }
    if index < 12 && dice.below(6) == 0 {
        put_bytes(out, b"BlockLight", DIM.as_slice())?;
    }
    if index >= 10 {
        put_bytes(out, b"SkyLight", BRIGHT.as_slice())?;
    }
    put_end(out)
}

/// A map of heights, which are only of the right shape.
fn put_height(out: &mut Vec<u8>, dice: &mut Dice, name: &[u8]) -> Result<(), AllocError> {
    let mut longs = [0u64; 37];
    for long in longs.iter_mut() {
        *long = dice.roll();
    }
    put_longs(out, name, longs.as_slice())
}

fn put_heights(out: &mut Vec<u8>, dice: &mut Dice) -> Result<(), AllocError> {
    put_head(out, COMPOUND, b"Heightmaps")?;
    put_height(out, dice, b"MOTION_BLOCKING")?;
    put_height(out, dice, b"MOTION_BLOCKING_NO_LEAVES")?;
    put_height(out, dice, b"OCEAN_FLOOR")?;
    put_height(out, dice, b"WORLD_SURFACE")?;
    put_end(out)
}

/// A chest with three things in it.
fn put_chest(out: &mut Vec<u8>, at: ChunkPos, dice: &mut Dice) -> Result<(), AllocError> {
    put_byte(out, b"keepPacked", 0)?;
    put_int(
        out,
        b"x",
        at.x.wrapping_mul(16)
            .wrapping_add((dice.below(16) % 16) as i32),
    )?;
    put_int(out, b"y", 91)?;
    put_int(
        out,
        b"z",
        at.z.wrapping_mul(16)
            .wrapping_add((dice.below(16) % 16) as i32),
    )?;
    put_named_text(out, b"id", b"minecraft:chest")?;
    put_list(out, b"Items", COMPOUND, 3)?;
    for slot in 0..3u8 {
        put_byte(out, b"Slot", slot)?;
        put_named_text(out, b"id", b"minecraft:bread")?;
        put_byte(out, b"Count", slot + 1)?;
        put_end(out)?;
    }
    put_end(out)
}

fn put_chests(out: &mut Vec<u8>, at: ChunkPos, dice: &mut Dice) -> Result<(), AllocError> {
    let count = dice.below(4);
    put_list(out, b"block_entities", COMPOUND, count as usize)?;
    for _ in 0..count {
        put_chest(out, at, dice)?;
    }
    Ok(())
}

/// A scheduled tick of a fluid.
pub(crate) fn put_tick(
    out: &mut Vec<u8>,
    fluid: &[u8],
    x: i32,
    y: i32,
    z: i32,
    time: i32,
) -> Result<(), AllocError> {
    put_named_text(out, b"i", fluid)?;
    put_int(out, b"p", 0)?;
    put_int(out, b"t", time)?;
    put_int(out, b"x", x)?;
    put_int(out, b"y", y)?;
    put_int(out, b"z", z)?;
    put_end(out)
}

fn put_ticks(out: &mut Vec<u8>, at: ChunkPos, flaw: Flaw) -> Result<(), AllocError> {
    let is_outside = flaw == Flaw::TickOutside;
    put_list(
        out,
        b"fluid_ticks",
        COMPOUND,
        if is_outside { 2 } else { 1 },
    )?;
    let (x, z) = (at.x.wrapping_mul(16), at.z.wrapping_mul(16));
    put_tick(out, b"minecraft:lava", x, -60, z, 12)?;
    if is_outside {
        put_tick(out, b"minecraft:water", x.wrapping_add(16), -60, z, 3)?;
    }
    Ok(())
}

fn put_rest(out: &mut Vec<u8>, at: ChunkPos, dice: &mut Dice) -> Result<(), AllocError> {
    put_heights(out, dice)?;
    put_byte(out, b"isLightOn", 1)?;
    put_chests(out, at, dice)?;
    put_list(out, b"block_ticks", COMPOUND, 0)?;
    put_list(out, b"PostProcessing", LIST, 24)?;
    for _ in 0..24 {
        out.extend_from_slice([0u8; 5].as_slice())?;
    }
    put_head(out, COMPOUND, b"structures")?;
    put_head(out, COMPOUND, b"References")?;
    put_longs(out, b"minecraft:mineshaft", [dice.roll()].as_slice())?;
    put_end(out)?;
    put_head(out, COMPOUND, b"starts")?;
    put_end(out)?;
    put_end(out)
}

/// What each document begins with.
pub(crate) fn put_start(out: &mut Vec<u8>, at: ChunkPos, status: &[u8]) -> Result<(), AllocError> {
    put_head(out, COMPOUND, b"")?;
    put_int(out, b"DataVersion", 2975)?;
    put_int(out, b"xPos", at.x)?;
    put_int(out, b"yPos", -4)?;
    put_int(out, b"zPos", at.z)?;
    put_named_text(out, b"Status", status)
}

fn put_sections(
    out: &mut Vec<u8>,
    pool: &Pool,
    dice: &mut Dice,
    scene: Scene,
    flaw: Flaw,
) -> Result<(), AllocError> {
    put_list(out, b"sections", COMPOUND, 26)?;
    for index in 0..26 {
        put_section(out, pool, dice, scene, flaw, index)?;
    }
    Ok(())
}

/// The document of a chunk.
pub(crate) fn put_chunk(
    out: &mut Vec<u8>,
    pool: &Pool,
    dice: &mut Dice,
    at: ChunkPos,
    scene: Scene,
    flaw: Flaw,
) -> Result<(), AllocError> {
    let own = ChunkPos {
        x: if flaw == Flaw::Elsewhere {
            at.x.wrapping_add(1)
        } else {
            at.x
        },
        z: at.z,
    };
    let status = if flaw == Flaw::Unfinished {
        b"minecraft:features".as_slice()
    } else {
        b"full".as_slice()
    };
    put_start(out, own, status)?;
    put_long(out, b"LastUpdate", dice.roll() % 1_000_000)?;
    put_long(out, b"InhabitedTime", dice.roll() % 100_000)?;
    if flaw == Flaw::OldLayout {
        put_byte(out, b"Level", 0)?;
    }
    if flaw != Flaw::NoSections {
        put_sections(out, pool, dice, scene, flaw)?;
    }
    put_rest(out, at, dice)?;
    put_ticks(out, at, flaw)?;
    if flaw == Flaw::Cut {
        return Ok(());
    }
    put_end(out)
}
