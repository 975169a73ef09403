//! Flat worlds with sources, and their ticks in parts.
ghost use Rattle.std.specs.Prelude.{◌≡◌, true, All, IsTrue, IfOk};
ghost use Rattle.av_world.specs.Views.{blocks};
ghost use Rattle.av_inter.specs.Starting.{IsPlanOf};
ghost use Rattle.av_world_tests.specs.Flat.{IsPlain};

use arrayvec::ArrayVec;
use av_cells::Cells;
use av_cluster::{Cluster, plan, territory};
use av_inter::Core;
use av_rules::{Kinds, Rules};
use av_serial::tick;
use av_types::{ChunkPos, Entry, Fault, Height, Pos, SectionPos};
use av_world::World;
use av_world_tests::flat::{SOURCE, stone_table};
use av_world_tests::worlds::{flat_world, put, wait};
use std::alloc::Global;

pub(crate) const ORIGIN: ChunkPos = ChunkPos { x: 0, z: 0 };

pub(crate) const EAST: ChunkPos = ChunkPos { x: 1, z: 0 };

pub(crate) fn at(x: i32, y: i32, z: i32) -> Pos {
    Pos { x, y, z }
}

/// Stone.
const ROWS: &str = r#"
version = 1
[[block]]
name = "minecraft:stone"
open = false
floor = true
opacity = 15
emission = 0
"#;

/// The kinds of air, water and stone.
pub fn stone_kinds(alloc: Global) -> Result<Kinds, Fault> {
    let rules = Rules::read(alloc, ROWS.as_bytes())?;
    Kinds::new(alloc, stone_table(alloc)?, &rules)
}

/// A flat world of the game's height with sources, each with an entry that is due in tick 6, in this order.
pub fn poured(alloc: Global, chunks: &[ChunkPos], sources: &[Pos]) -> Result<World, Fault>
    ensures { IfOk result IsPlain }
{
    let mut world = flat_world(alloc, Height::game(), chunks)?;
    for pos in sources {
        put(&mut world, *pos, SOURCE)?;
        let entry = Entry {
            pos: *pos,
            due: 6,
            priority: 0,
        };
        wait(&mut world, entry)?;
    }
    Ok(world)
}

/// A world after tick `now` of one thread, without edits.
pub fn ticked(mut world: World, kinds: &Kinds, now: u32) -> Result<World, Fault>
    requires { IsPlain world }
{
    if kinds.count() < 11 {
        return Err(Fault::BadTable);
    }
    tick(&mut world, kinds, now, &[])?;
    Ok(world)
}

/// The territory of a block, if it is loaded.
pub fn territory_of(world: &World, at: Pos) -> Result<ArrayVec<SectionPos, 8>, Fault> {
    if !world.loaded(at) {
        return Err(Fault::EditOutside(0));
    }
    Ok(territory(world, at))
}

/// Whether each entry is of a loaded block.
fn all_loaded(world: &World, entries: &[Entry]) -> bool
    ensures { result ≡ true → All (λ e. IsTrue ((blocks world.now).loaded e.pos)) entries.now }
{
    for entry in entries {
        if !world.loaded(entry.pos) {
            return false;
        }
    }
    true
}

/// The plan of entries, if their blocks are loaded.
pub fn plan_of(alloc: Global, world: &World, entries: &[Entry]) -> Result<Vec<Cluster>, Fault>
    ensures { IfOk result (λ clusters. IsPlanOf (blocks world.now) clusters.items) }
{
    if !all_loaded(world, entries) {
        return Err(Fault::EditOutside(0));
    }
    let clusters = plan(alloc, world, entries)?;
    Ok(clusters)
}

/// The start of tick `now` of a world, in parts and without edits.
pub fn started<'a>(
    alloc: Global,
    mut world: World,
    kinds: &'a Kinds,
    now: u32,
) -> Result<Core<'a>, Fault>
    requires { IsPlain world }
{
    if kinds.count() < 11 {
        return Err(Fault::BadTable);
    }
    let due = world.take_due(now)?;
    if world.broken() {
        return Err(Fault::Broken);
    }
    let clusters = plan_of(alloc, &world, due.as_slice())?;
    match Core::new(alloc, world, kinds, now, clusters) {
        Ok(core) => Ok(core),
        Err((fault, _)) => Err(fault),
    }
}

/// The world after a tick whose parts are all back.
pub(crate) fn end_of(core: Core<'_>) -> Result<World, Fault> {
    match core.finish() {
        Ok(world) => Ok(world),
        Err(_) => Err(Fault::OutOfMemory),
    }
}
