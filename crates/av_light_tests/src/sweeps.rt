//! Light by plain sweeps over all blocks of the four chunks at the origin, whose lowest section is 0.
ghost use Rattle.std.specs.Prelude.{◌<◌};

use av_cells::Cells;
use av_chunk::ChunkLight;
use av_rules::{Kinds, Row};
use av_types::{Fault, Pos};
use av_world::World;
use std::alloc::Global;

/// Numbers that look drawn at random (a linear congruential generator).
#[derive(Drop)]
pub struct Draws {
    state: u64,
}

impl Draws {
    pub fn new(seed: u64) -> Draws {
        Draws { state: seed }
    }

    /// A number below a limit.
    pub fn below(&mut self, limit: u32) -> u32
        requires { 0 < limit }
        ensures { result < limit }
    {
        self.state = self
            .state
            .wrapping_mul(6364136223846793005)
            .wrapping_add(1442695040888963407);
        ((self.state >> 33) % u64::from(limit)) as u32
    }
}

/// The position of a block by its index, x within z within y.
pub fn position(index: u32) -> Pos {
    Pos {
        x: (index % 32) as i32,
        y: (index / 1024) as i32,
        z: (index / 32 % 32) as i32,
    }
}

/// What the table says of a block's state.
fn row(world: &World, kinds: &Kinds, pos: Pos) -> Option<Row> {
    if !world.loaded(pos) {
        return None;
    }
    let number = world.number(pos);
    if usize::from(number) >= kinds.count() {
        return None;
    }
    Some(kinds.row(number))
}

/// What a block gives, and what light loses on coming into it.
fn gives_and_takes(row: Option<Row>) -> (u8, u8) {
    match row {
        Some(row) => (row.emission, row.opacity.max(1)),
        None => (0, 15),
    }
}

/// What each block gives, and what light loses on coming into it.
fn read(alloc: Global, world: &World, kinds: &Kinds) -> Result<(Vec<u8>, Vec<u8>), Fault> {
    let mut light = Vec::new(alloc);
    let mut costs = Vec::new(alloc);
    for index in 0..16384 * world.height().sections {
        let (emission, cost) = gives_and_takes(row(world, kinds, position(index)));
        light.push(emission)?;
        costs.push(cost)?;
    }
    Ok((light, costs))
}

/// The light of a block beside another, or 0.
fn light_at(light: &[u8], there: bool, index: usize) -> u8 {
    if !there {
        return 0;
    }
    light.get(index).copied().unwrap_or(0)
}

/// The light of the brightest of the six blocks beside one.
fn brightest(light: &[u8], index: usize) -> u8 {
    let x = index % 32;
    let z = index / 32 % 32;
    let west = light_at(light, x > 0, index.wrapping_sub(1));
    let east = light_at(light, x < 31, index.wrapping_add(1));
    let north = light_at(light, z > 0, index.wrapping_sub(32));
    let south = light_at(light, z < 31, index.wrapping_add(32));
    let below = light_at(light, index >= 1024, index.wrapping_sub(1024));
    let above = light_at(light, true, index.wrapping_add(1024));
    west.max(east).max(north).max(south).max(below).max(above)
}

/// Lets each block take light from those beside it.
fn sweep(light: &mut [u8], costs: &[u8]) {
    for index in 0..light.len() {
        let cost = costs.get(index).copied().unwrap_or(15);
        let comes = brightest(light, index).saturating_sub(cost);
        light[index] = light[index].max(comes);
    }
}

/// The light of all blocks, after as many sweeps as light has steps.
pub fn swept(alloc: Global, world: &World, kinds: &Kinds) -> Result<Vec<u8>, Fault> {
    let (mut light, costs) = read(alloc, world, kinds)?;
    for _ in 0..15 {
        sweep(light.as_mut_slice(), costs.as_slice());
    }
    Ok(light)
}

/// A byte of a section's light.
pub fn byte(light: &ChunkLight, section: u32, index: usize) -> Option<u8> {
    if section >= light.len() {
        return None;
    }
    light.section(section).get(index).copied()
}

/// The half byte of a block by its index, in the light of the four chunks.
pub fn half_byte(lights: &[ChunkLight], index: usize) -> Option<u8> {
    let x = index % 32;
    let z = index / 32 % 32;
    let y = index / 1024;
    let light = lights.get(2 * (z / 16) + x / 16)?;
    let section = u32::try_from(y / 16).ok()?;
    let place = 256 * (y % 16) + 16 * (z % 16) + x % 16;
    let both = byte(light, section, place / 2)?;
    Some(if place % 2 == 0 { both % 16 } else { both / 16 })
}

/// How many blocks have another light by plain sweeps than in the light of the four chunks.
pub fn differences(lights: &[ChunkLight], swept: &[u8]) -> usize {
    let mut count: usize = 0;
    for (index, light) in swept.iter().enumerate() {
        if half_byte(lights, index) != Some(*light) {
            count = count.saturating_add(1);
        }
    }
    count
}

/// Whether a chunk has no light.
pub fn is_dark(light: &ChunkLight) -> bool {
    for section in 0..light.len() {
        if light.section(section).iter().any(|byte| *byte > 0) {
            return false;
        }
    }
    true
}
