//! Flat worlds, with blocks and entries put into them, and parcels of them.
ghost use Rattle.std.specs.Prelude.{◌≡◌, ◌<◌, IsTrue, false, All, IfOk, OnOk, length};
ghost use Rattle.std.specs.List.{AllPairs};
ghost use Rattle.av_types.specs.declared.position.SectionPos.{SectionPos};
ghost use Rattle.av_types.specs.Positions.{region_of};
ghost use Rattle.av_types.specs.Positions.{IsInLimits, same_pos, same_section};
ghost use Rattle.av_cells.specs.Grid.{is_here};
ghost use Rattle.av_cells.specs.Rule.{HasKinds};
ghost use Rattle.av_world.specs.Index.{slot};
ghost use Rattle.av_world.specs.OutOf.{IsPartOf};
ghost use Rattle.av_world.specs.ParcelViews.{blocks as parcel_blocks, lists as parcel_lists};
ghost use Rattle.av_world.specs.Views.{blocks, grid, lists, height_of, positions_of};
ghost use Rattle.av_world_tests.specs.Flat.{IsPlain, StaysPart};

use crate::flat::flat_chunk;
use arrayvec::ArrayVec;
use av_cells::{Cells, set_awake};
use av_rules::Kinds;
use av_types::{ChunkPos, Entry, Fault, Height, Made, Pos, SectionPos};
use av_world::{Parcel, World};
use std::alloc::Global;

/// Puts a flat chunk into a world, where none is.
fn insert_new(alloc: Global, world: &mut World, at: ChunkPos) -> Result<(), Fault>
    requires plain { IsPlain world.old }
    requires limits { IsInLimits (region_of at) }
    requires absent { slot (positions_of world.old) at ≡ length (positions_of world.old) }
    ensures { OnOk result (IsPlain world.new) }
{
    let chunk = flat_chunk(alloc, world.height())?;
    world.insert(at, chunk)?;
    Ok(())
}

/// Puts a flat chunk into a world, unless one is there.
pub fn insert_flat(alloc: Global, world: &mut World, at: ChunkPos) -> Result<(), Fault>
    requires { IsPlain world.old }
    ensures { OnOk result (IsPlain world.new) }
{
    if !at.region().is_in_limits() {
        return Err(Fault::RegionRange);
    }
    match world.index_of(at) {
        Some(_) => Ok(()),
        None => insert_new(alloc, world, at),
    }
}

/// A world of flat chunks.
pub fn flat_world(alloc: Global, height: Height, chunks: &[ChunkPos]) -> Result<World, Fault>
    ensures { IfOk result IsPlain }
{
    let mut world = World::new(alloc, height);
    for at in chunks {
        insert_flat(alloc, &mut world, *at)?;
    }
    Ok(world)
}

/// Sets a loaded block to air, water or stone, and wakes none.
pub fn put(world: &mut World, pos: Pos, number: u16) -> Result<(), Fault>
    requires plain { IsPlain world.old }
    requires number { number < 11 }
    ensures { OnOk result (IsPlain world.new) }
{
    if !world.loaded(pos) {
        return Err(Fault::EditOutside(0));
    }
    world.prepare_set(pos, number)?;
    world.set(pos, number);
    Ok(())
}

/// Adds an entry of a loaded block, and says whether it did.
pub fn wait(world: &mut World, entry: Entry) -> Result<bool, Fault>
    requires { IsPlain world.old }
    ensures { OnOk result (IsPlain world.new) }
{
    if !world.loaded(entry.pos) {
        return Err(Fault::EditOutside(0));
    }
    world.prepare_set(entry.pos, 0)?;
    Ok(world.add(entry))
}

/// Adds entries of loaded blocks. Of those of one block the first stays.
pub fn wait_all(world: &mut World, entries: &[Entry]) -> Result<(), Fault>
    requires { IsPlain world.old }
    ensures { OnOk result (IsPlain world.new) }
{
    for entry in entries {
        wait(world, *entry)?;
    }
    Ok(())
}

/// Whether a block has one of these entries.
fn has_entry(made: &[Made], pos: Pos) -> bool
    ensures { result ≡ false → All (λ m. same_pos pos m.entry.pos ≡ false) made.now }
{
    for one in made {
        if pos == one.entry.pos {
            return true;
        }
    }
    false
}

/// One entry more, of a loaded block of which none waits and none is there.
fn push_made(made: &mut Vec<Made>, world: &World, entry: Entry) -> Result<(), Fault>
    requires loaded { All (λ m. IsTrue ((blocks world.now).loaded m.entry.pos)) made.old.items }
    requires fresh { All (λ m. (blocks world.now).pending m.entry.pos ≡ false) made.old.items }
    requires distinct { AllPairs (λ a b. same_pos b.entry.pos a.entry.pos ≡ false) made.old.items }
    ensures loaded { OnOk result (All (λ m. IsTrue ((blocks world.now).loaded m.entry.pos))
        made.new.items) }
    ensures fresh { OnOk result (All (λ m. (blocks world.now).pending m.entry.pos ≡ false)
        made.new.items) }
    ensures distinct { OnOk result (AllPairs (λ a b. same_pos b.entry.pos a.entry.pos ≡ false)
        made.new.items) }
{
    if !world.loaded(entry.pos) {
        return Err(Fault::EditOutside(0));
    }
    if world.pending(entry.pos) {
        return Err(Fault::BadTick);
    }
    if has_entry(made.as_slice(), entry.pos) {
        return Err(Fault::BadTick);
    }
    made.push(Made {
        maker: 0,
        number: 0,
        entry,
    })?;
    Ok(())
}

/// Entries of distinct loaded blocks of which none waits, as turns made them.
pub fn made_of(alloc: Global, world: &World, entries: &[Entry]) -> Result<Vec<Made>, Fault>
    ensures loaded { IfOk result (λ made. All (λ m. IsTrue ((blocks world.now).loaded m.entry.pos))
        made.items) }
    ensures fresh { IfOk result (λ made. All (λ m. (blocks world.now).pending m.entry.pos ≡ false)
        made.items) }
    ensures distinct { IfOk result (λ made. AllPairs
        (λ a b. same_pos b.entry.pos a.entry.pos ≡ false) made.items) }
{
    let mut made = Vec::new(alloc);
    for entry in entries {
        push_made(&mut made, world, *entry)?;
    }
    Ok(made)
}

/// Whether a section is one of these.
fn has_section(sections: &[SectionPos], at: SectionPos) -> bool
    ensures { result ≡ false → All (λ s. same_section at s ≡ false) sections.now }
{
    for section in sections {
        if at == *section {
            return true;
        }
    }
    false
}

/// The section of a loaded block, which is none of these.
fn push_section(sections: &mut Vec<SectionPos>, world: &World, block: Pos) -> Result<(), Fault>
    requires loaded { All (λ s. IsTrue (is_here (grid world.now s))) sections.old.items }
    requires distinct { AllPairs (λ s t. same_section t s ≡ false) sections.old.items }
    ensures loaded { OnOk result (All (λ s. IsTrue (is_here (grid world.now s)))
        sections.new.items) }
    ensures distinct { OnOk result (AllPairs (λ s t. same_section t s ≡ false) sections.new.items) }
{
    if !world.loaded(block) {
        return Err(Fault::EditOutside(0));
    }
    let section = block.section();
    if has_section(sections.as_slice(), section) {
        return Err(Fault::BadCount);
    }
    sections.push(section)?;
    Ok(())
}

/// The sections of loaded blocks, each in another one.
pub fn sections_of(alloc: Global, world: &World, at: &[Pos]) -> Result<Vec<SectionPos>, Fault>
    ensures loaded { IfOk result (λ sections. All (λ s. IsTrue (is_here (grid world.now s)))
        sections.items) }
    ensures distinct { IfOk result (λ sections. AllPairs
        (λ s t. same_section t s ≡ false) sections.items) }
{
    let mut sections = Vec::new(alloc);
    for block in at {
        push_section(&mut sections, world, *block)?;
    }
    Ok(sections)
}

/// The sections of loaded blocks, each in another one, out of a world.
pub fn carve_at(alloc: Global, world: &mut World, at: &[Pos]) -> Result<Parcel, Fault>
    requires { IsPlain world.old }
    ensures part { IfOk result (λ c. IsPartOf (height_of world.new) (positions_of world.new)
        (lists world.new) (parcel_blocks c) (parcel_lists c)) }
    ensures numbers { IfOk result (λ c. HasKinds 11 (parcel_blocks c)) }
{
    let sections = sections_of(alloc, world, at)?;
    let parcel = world.carve(sections.as_slice())?;
    Ok(parcel)
}

/// Puts an entry of a block of a parcel aside, and says whether it did.
pub fn put_aside(parcel: &mut Parcel, entry: Entry) -> Result<bool, Fault>
    ensures { StaysPart parcel.old parcel.new }
{
    if !parcel.loaded(entry.pos) {
        return Err(Fault::EditOutside(0));
    }
    parcel.prepare_set(entry.pos, 0)?;
    Ok(parcel.add(entry))
}

/// Sets a block of a parcel to air, water or stone in tick `now`, with its waking.
pub fn set_in_parcel(
    parcel: &mut Parcel,
    kinds: &Kinds,
    now: u32,
    pos: Pos,
    number: u16,
) -> Result<ArrayVec<Entry, 7>, Fault>
    requires numbers { HasKinds 11 (parcel_blocks parcel.old) }
    requires number { number < 11 }
    ensures { StaysPart parcel.old parcel.new }
{
    if kinds.count() < 11 {
        return Err(Fault::BadTable);
    }
    if !parcel.loaded(pos) {
        return Err(Fault::EditOutside(0));
    }
    parcel.prepare_set(pos, number)?;
    Ok(set_awake(parcel, kinds, now, pos, number))
}
