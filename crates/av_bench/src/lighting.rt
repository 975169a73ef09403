//! Light of a region.
use anyhow::Result;
use av_chunk::ChunkLight;
use av_image::load;
use av_light::light_all;
use av_region_files::RegionFile;
use av_rules::{Kinds, Rules};
use av_state::StateTable;
use av_types::{Fault, RegionPos};
use av_world::World;
use std::alloc::Global;
use std::fs;
use std::rt::{Clock, Files};
use std::thread::Threads;
use std::time::Instant;

/// A world and the kinds of its states.
#[derive(Drop)]
struct Scene {
    world: World,
    kinds: Kinds,
}

/// What a file of the region (0, 0) holds, by a block table.
fn read(
    rt: &(impl Threads + Sync),
    alloc: Global,
    bytes: Vec<u8>,
    table: &[u8],
) -> Result<Scene, Fault> {
    let rules = Rules::read(alloc, table)?;
    let mut states = StateTable::new(alloc)?;
    let pos = RegionPos { x: 0, z: 0 };
    let mut files = Vec::new(alloc);
    files.push(RegionFile { pos, bytes })?;
    let (world, _rest) = load(rt, alloc, files, &rules, &mut states)?;
    let kinds = Kinds::new(alloc, states, &rules)?;
    Ok(Scene { world, kinds })
}

/// A sum over bytes that depends on their order.
fn byte_sum(start: u64, bytes: &[u8]) -> u64 {
    let mut sum = start;
    for byte in bytes {
        sum = sum.wrapping_mul(31).wrapping_add(u64::from(*byte));
    }
    sum
}

/// A sum over all half bytes of lights.
fn light_sum(lights: &[ChunkLight]) -> u64 {
    let mut sum = 0u64;
    for light in lights {
        for index in 0..light.len() {
            sum = byte_sum(sum, light.section(index));
        }
    }
    sum
}

/// The lights of a world, and how many microseconds the quickest of some lightings took.
#[derive(Drop)]
struct Timed {
    lights: Vec<ChunkLight>,
    micros: u128,
}

/// Lights a world so many times.
fn light<R: Threads + Clock + Sync>(
    rt: &R,
    alloc: Global,
    scene: &Scene,
    times: u32,
) -> Result<Timed> {
    let mut timed = Timed {
        lights: Vec::new(alloc),
        micros: u128::MAX,
    };
    for _ in 0..times {
        let start = Instant::now(rt)?;
        let lights = light_all(rt, alloc, &scene.world, &scene.kinds)?;
        let micros = start.elapsed(rt)?.as_micros();
        timed = Timed {
            lights,
            micros: timed.micros.min(micros),
        };
    }
    Ok(timed)
}

/// The file of a region, by a block table.
fn read_files<R: Files + AllocGlobal + Threads + Sync>(
    rt: &R,
    alloc: Global,
    path: &str,
    table: &str,
) -> Result<Scene> {
    let bytes = fs::read(rt, path)?;
    let table = fs::read(rt, table)?;
    Ok(read(rt, alloc, bytes, table.as_slice())?)
}

/// How many chunks there are, and the sum of their lights.
fn summed(alloc: Global, lights: &[ChunkLight]) -> Result<String> {
    let chunks = lights.len();
    let sum = light_sum(lights);
    Ok(format!(in alloc; "chunks {chunks} sum {sum}")?)
}

/// Lights a region so many times. The line has the number of chunks, the sum of their lights, and, where that is asked for,
/// how many microseconds the quickest lighting took.
pub(crate) fn light_region<R: Files + AllocGlobal + Threads + Clock + Sync>(
    rt: &R,
    path: &str,
    table: &str,
    times: u32,
    is_timed: bool,
) -> Result<String> {
    let alloc = rt.alloc();
    let scene = read_files(rt, alloc, path, table)?;
    let timed = light(rt, alloc, &scene, times)?;
    let line = summed(alloc, timed.lights.as_slice())?;
    if !is_timed {
        return Ok(line);
    }
    let micros = timed.micros;
    Ok(format!(in alloc; "{line} us {micros}")?)
}
