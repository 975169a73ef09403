//! Flat worlds, and ticks of them with the edits of a text.
ghost use Rattle.std.specs.Prelude.{◌≡◌, true, All, IfOk, OnOk};
ghost use Rattle.std.specs.List.{list_all};
ghost use Rattle.av_rules.specs.Kinds.{kind_count};
ghost use Rattle.av_world.specs.Views.{blocks};
ghost use Rattle.av_world_tests.specs.Flat.{IsPlain};
ghost use Rattle.av_serial.specs.Ready.{IsReady, CanApply};

use av_edits::{Edit, read};
use av_rules::{Kinds, Rules};
use av_serial::{apply, run_ticks, tick, turn_all};
use av_types::{ChunkPos, Entry, Fault, Height, Pos};
use av_world::{Cells, World};
use av_world_tests::flat::{SOURCE, stone_table};
use av_world_tests::worlds::{flat_world, put, wait_all};
use std::alloc::Global;

/// Stone and glowstone.
const ROWS: &str = r#"
[[block]]
name = "minecraft:stone"
open = false
floor = true
opacity = 15
emission = 0
[[block]]
name = "minecraft:glowstone"
open = false
floor = true
opacity = 15
emission = 15
"#;

/// A world after some ticks, and how many entries were taken in them.
#[derive(Drop)]
pub struct After {
    pub world: World,
    pub count: u128,
}

/// Puts sources into a world, and wakes none.
fn put_sources(world: &mut World, sources: &[Pos]) -> Result<(), Fault>
    requires { IsPlain world.old }
    ensures { OnOk result (IsPlain world.new) }
{
    for pos in sources {
        put(world, *pos, SOURCE)?;
    }
    Ok(())
}

/// A flat world of the game's height, with sources and entries.
pub fn world_of(
    alloc: Global,
    chunks: &[ChunkPos],
    sources: &[Pos],
    entries: &[Entry],
) -> Result<World, Fault>
    ensures { IfOk result IsPlain }
{
    let mut world = flat_world(alloc, Height::game(), chunks)?;
    put_sources(&mut world, sources)?;
    wait_all(&mut world, entries)?;
    Ok(world)
}

/// Whether an edit is of a loaded block, to a state that has a kind.
fn fits(world: &World, kinds: &Kinds, edit: &Edit) -> bool
    ensures { result ≡ true → CanApply (kind_count kinds.now) world.now edit.now }
{
    world.loaded(edit.pos) && usize::from(edit.number) < kinds.count()
}

/// Whether each edit is of a loaded block, to a state that has a kind.
pub fn all_fit(world: &World, kinds: &Kinds, edits: &[Edit]) -> bool
    ensures { result ≡ true → All (CanApply (kind_count kinds.now) world.now) edits.now }
{
    for edit in edits {
        if !fits(world, kinds, edit) {
            return false;
        }
    }
    true
}

/// A block table of a version, with stone and glowstone.
fn rules_of(alloc: Global, version: u32) -> Result<Rules, Fault> {
    let text = format!(in alloc; "version = {version}{ROWS}")?;
    Rules::read(alloc, text.as_bytes())
}

/// The edits of a text, and the kinds of all states by a block table of a version.
pub fn edits_and_kinds(
    alloc: Global,
    version: u32,
    world: &World,
    lines: &str,
    ticks: u32,
) -> Result<(Vec<Edit>, Kinds), Fault> {
    let rules = rules_of(alloc, version)?;
    let mut table = stone_table(alloc)?;
    let edits = read(alloc, lines.as_bytes(), ticks, world, &mut table)?;
    let kinds = Kinds::new(alloc, table, &rules)?;
    Ok((edits, kinds))
}

/// A world after ticks 1 to `ticks`, with these edits.
pub fn run_edits(
    alloc: Global,
    mut world: World,
    kinds: &Kinds,
    edits: &[Edit],
    ticks: u32,
) -> Result<After, Fault>
    requires { IsPlain world }
{
    if kinds.count() < 11 {
        return Err(Fault::BadTable);
    }
    if !all_fit(&world, kinds, edits) {
        return Err(Fault::EditOutside(0));
    }
    let count = run_ticks(alloc, &mut world, kinds, edits, ticks)?;
    Ok(After { world, count })
}

/// A world after ticks 1 to `ticks`, with the edits of a text, by a block table of a version.
pub fn ran(
    alloc: Global,
    version: u32,
    world: World,
    lines: &str,
    ticks: u32,
) -> Result<After, Fault>
    requires { IsPlain world }
{
    let (edits, kinds) = edits_and_kinds(alloc, version, &world, lines, ticks)?;
    run_edits(alloc, world, &kinds, edits.as_slice(), ticks)
}

/// A flat world after ticks 1 to `ticks`, with the edits of a text.
pub fn flat_ran(
    alloc: Global,
    chunks: &[ChunkPos],
    lines: &str,
    ticks: u32,
) -> Result<After, Fault> {
    let world = world_of(alloc, chunks, &[], &[])?;
    ran(alloc, 1, world, lines, ticks)
}

/// One tick more.
fn tick_once(world: &mut World, kinds: &Kinds, now: u32, edits: &[Edit]) -> Result<u64, Fault>
    requires { IsReady (kind_count kinds.now) world.old }
    ensures { OnOk result (IsReady (kind_count kinds.now) world.new) }
{
    if !all_fit(world, kinds, edits) {
        return Err(Fault::EditOutside(0));
    }
    let count = tick(world, kinds, now, edits)?;
    Ok(count)
}

/// How many entries each of the ticks 1 to `ticks` took, one tick called after the other, and the world after them.
pub fn ticked(
    alloc: Global,
    mut world: World,
    kinds: &Kinds,
    edits: &[Edit],
    ticks: u32,
) -> Result<(World, Vec<u64>), Fault>
    requires { IsPlain world }
{
    if kinds.count() < 11 {
        return Err(Fault::BadTable);
    }
    let mut counts = Vec::new(alloc);
    for done in 0..ticks {
        counts.push(tick_once(&mut world, kinds, done + 1, edits)?)?;
    }
    Ok((world, counts))
}

/// A world after an edit was applied in tick `now`.
pub fn applied(mut world: World, kinds: &Kinds, now: u32, edit: &Edit) -> Result<World, Fault>
    requires { IsPlain world }
{
    if kinds.count() < 11 {
        return Err(Fault::BadTable);
    }
    if !fits(&world, kinds, edit) {
        return Err(Fault::EditOutside(0));
    }
    apply(&mut world, kinds, now, edit)?;
    Ok(world)
}

/// Whether the block of each entry is loaded.
fn all_loaded(world: &World, entries: &[Entry]) -> bool
    ensures { result ≡ list_all (λ e. (blocks world.now).loaded e.pos) entries.now }
{
    for entry in entries {
        if !world.loaded(entry.pos) {
            return false;
        }
    }
    true
}

/// A world after the blocks of entries were turned in tick `now`.
pub fn turned(mut world: World, kinds: &Kinds, now: u32, entries: &[Entry]) -> Result<World, Fault>
    requires { IsPlain world }
{
    if kinds.count() < 11 {
        return Err(Fault::BadTable);
    }
    if !all_loaded(&world, entries) {
        return Err(Fault::EditOutside(0));
    }
    turn_all(&mut world, kinds, now, entries)?;
    Ok(world)
}
