//! Worlds that are read and saved, without light and after no tick.
ghost use Rattle.std.specs.Prelude.{◌≡◌, IfOk, length};
ghost use Rattle.std.specs.List.{All};
ghost use Rattle.av_chunk.specs.Light.{section_count};
ghost use Rattle.av_image.specs.Saving.{IsRestOf};
ghost use Rattle.av_land.specs.Good.{Good, IsTimely};
ghost use Rattle.av_rules.specs.Kinds.{kind_count};
ghost use Rattle.av_world.specs.Lands.{land_of, IsUncarved};
ghost use Rattle.av_world.specs.Views.{height_of, positions_of};

use av_chunk::ChunkLight;
use av_image::{RegionFile, Rest, load, save};
use av_rules::{Kinds, Rules};
use av_state::StateTable;
use av_types::Fault;
use av_world::World;
use std::alloc::Global;
use std::thread::Threads;

/// What files say, and the kinds of the states that they name, by a table without rows.
fn read(
    rt: &(impl Threads + Sync),
    alloc: Global,
    files: Vec<RegionFile>,
) -> Result<(World, Rest, Kinds), Fault>
    ensures good { IfOk result (λ read. Good (kind_count read.2) (IsTimely 0) (land_of read.0)) }
    ensures whole { IfOk result (λ read. IsUncarved read.0) }
    ensures rest { IfOk result (λ read. IsRestOf (height_of read.0) (positions_of read.0) read.1) }
{
    let rules = Rules::read(alloc, b"version = 1")?;
    let mut table = StateTable::new(alloc)?;
    let (world, rest) = load(rt, alloc, files, &rules, &mut table)?;
    let kinds = Kinds::new(alloc, table, &rules)?;
    Ok((world, rest, kinds))
}

/// No light for each chunk of a world.
fn dark(alloc: Global, world: &World) -> Result<Vec<ChunkLight>, Fault>
    ensures each { IfOk result (λ lights. length lights.items ≡ length (positions_of world.now)) }
    ensures whole { IfOk result (λ lights. All (λ l. section_count l
        ≡ (height_of world.now).sections) lights.items) }
{
    let mut lights = Vec::new(alloc);
    for _ in world.positions() {
        lights.push(ChunkLight::new(alloc, world.height().sections)?)?;
    }
    Ok(lights)
}

/// The files that are written of what files say.
pub fn saved(
    rt: &(impl Threads + Sync),
    alloc: Global,
    files: Vec<RegionFile>,
) -> Result<Vec<RegionFile>, Fault> {
    let (world, rest, kinds) = read(rt, alloc, files)?;
    let lights = dark(alloc, &world)?;
    save(rt, alloc, &world, &rest, &kinds, lights.as_slice(), 0)
}

/// The same, where the world is given up before.
pub fn saved_broken(
    rt: &(impl Threads + Sync),
    alloc: Global,
    files: Vec<RegionFile>,
) -> Result<Vec<RegionFile>, Fault> {
    let (mut world, rest, kinds) = read(rt, alloc, files)?;
    world.give_up();
    save(rt, alloc, &world, &rest, &kinds, &[], 0)
}
