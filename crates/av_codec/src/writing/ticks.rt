//! The scheduled fluid ticks of a chunk, written.
ghost use Rattle.std.specs.Int.{w32};
ghost use Rattle.std.specs.Int.RustNames.{FitsSigned};
ghost use Rattle.std.specs.Prelude.{◌≡◌, pos, ◌-ℤ◌, [], ◌∷◌, ◌++◌, map, codes, true, ◌<◌, IfOk, IfSome};
ghost use Rattle.av_tags.specs.Nbt.{int};
ghost use Rattle.av_tags.specs.View.{view, views, named_views};
ghost use Rattle.av_document.specs.Layout.{compound_with, fluid_name, entry_layout};
ghost use Rattle.av_document.specs.Law.{HasInts};
ghost use Rattle.av_types.specs.Division.{divided};
ghost use Rattle.av_types.specs.Positions.{is_section_of};
ghost use Rattle.av_rules.specs.Kinds.{kind_count};
ghost use Rattle.av_chunk.specs.Rest.{opened};
ghost use Rattle.av_chunk.specs.Views.{number_in};
ghost use Rattle.av_ticks.specs.Ticks.{entries};
ghost use Rattle.av_codec.specs.Writing.{sources_of};
ghost use Rattle.av_codec.specs.WritingSteps.{CanWriteEntry, written_entry};
ghost use Rattle.std.specs.List.{All};

use crate::index::section_index;
use crate::writing::build::{appended, copied_compound};
use crate::writing::sections::section_at;
use av_chunk::{Chunk, ChunkRest};
use av_rules::Kinds;
use av_tags::{Named, Tag};
use av_types::{Entry, Height, Pos};
use std::alloc::{AllocError, Global};

/// The name of a water's fluid.
fn fluid_name(source: bool) -> &'static [u8]
    ensures { result.now ≡ fluid_name source }
{
    if source {
        b"minecraft:water"
    } else {
        b"minecraft:flowing_water"
    }
}

/// A position's three numbers after other tags.
fn with_position(alloc: Global, tags: Vec<Named>, pos: Pos) -> Result<Vec<Named>, AllocError>
    ensures { IfOk result (λ new. named_views new.items ≡ named_views tags.items
        ++ record { name = codes "x"; tag = int pos.x } ∷ record { name = codes "y"; tag = int pos.y } ∷ record { name = codes "z"; tag = int pos.z } ∷ []) }
{
    let tags = appended(alloc, tags, b"x", Tag::int(pos.x))?;
    let tags = appended(alloc, tags, b"y", Tag::int(pos.y))?;
    appended(alloc, tags, b"z", Tag::int(pos.z))
}

/// How many ticks it is until an entry is due, after so many were run.
fn due_in(entry: Entry, elapsed: u32) -> i32
    requires { FitsSigned w32 (entry.due -ℤ pos elapsed) }
    ensures { result ≡ entry.due -ℤ pos elapsed }
{
    (entry.due - i64::from(elapsed)) as i32
}

/// The tags of a water entry.
fn entry_tags(
    alloc: Global,
    source: bool,
    elapsed: u32,
    entry: Entry,
) -> Result<Vec<Named>, AllocError>
    requires { FitsSigned w32 (entry.due -ℤ pos elapsed) }
    ensures { IfOk result (λ tags. named_views tags.items ≡ entry_layout source elapsed entry) }
{
    let fluid = Vec::from_slice(alloc, fluid_name(source))?;
    let tags = appended(alloc, Vec::new(alloc), b"i", Tag::text(fluid))?;
    let tags = with_position(alloc, tags, entry.pos)?;
    let tags = appended(alloc, tags, b"t", Tag::int(due_in(entry, elapsed)))?;
    appended(alloc, tags, b"p", Tag::int(entry.priority))
}

/// Copies of the ticks that are no water.
fn foreign_ticks(alloc: Global, foreign: &[Tag]) -> Result<Vec<Tag>, AllocError>
    ensures { IfOk result (λ ticks. views ticks.items
        ≡ map compound_with (opened (views foreign.now))) }
{
    let mut ticks = Vec::new(alloc);
    for tag in foreign {
        ticks.push(copied_compound(alloc, tag)?)?;
    }
    Ok(ticks)
}

/// Whether the block of an entry holds a source.
fn is_source(chunk: &Chunk, height: Height, kinds: &Kinds, pos: Pos) -> bool
    requires inside { is_section_of height (divided pos.y 16) ≡ true }
    requires below { IfSome (number_in height chunk.now pos) (λ n. n < kind_count kinds.now) }
    ensures { result ≡ sources_of kinds.now height chunk.now pos }
{
    let index = section_index(height, pos.section().y);
    match section_at(chunk, index) {
        None => false,
        Some(section) => kinds.wet(section.get(pos.place())).is_source(),
    }
}

/// A water entry, written.
fn water_tick(
    alloc: Global,
    chunk: &Chunk,
    rest: &ChunkRest,
    kinds: &Kinds,
    elapsed: u32,
    entry: Entry,
) -> Result<Tag, AllocError>
    requires { CanWriteEntry chunk.now rest.now kinds.now elapsed entry }
    ensures ok { IfOk result (λ tick. view tick ≡ written_entry chunk.now rest.now kinds.now elapsed
        entry) }
    ensures ints { HasInts elapsed entry }
{
    let source = is_source(chunk, rest.height, kinds, entry.pos);
    Ok(Tag::compound(entry_tags(alloc, source, elapsed, entry)?))
}

/// The water entries, after other ticks.
fn with_water(
    alloc: Global,
    mut ticks: Vec<Tag>,
    chunk: &Chunk,
    rest: &ChunkRest,
    kinds: &Kinds,
    elapsed: u32,
) -> Result<Vec<Tag>, AllocError>
    requires { All (CanWriteEntry chunk.now rest.now kinds.now elapsed) (entries chunk.now.ticks) }
    ensures ok { IfOk result (λ new. views new.items
        ≡ views ticks.items ++ map (written_entry chunk.now rest.now kinds.now elapsed)
        (entries chunk.now.ticks)) }
    // the numbers of an entry are Ints by their types, and its time by the condition
    ensures ints { IfOk result (λ _. All (HasInts elapsed) (entries chunk.now.ticks)) }
{
    for entry in chunk.ticks.as_slice() {
        ticks.push(water_tick(alloc, chunk, rest, kinds, elapsed, *entry)?)?;
    }
    Ok(ticks)
}

/// All scheduled ticks: those that are no water, as they were read, and then the water entries.
pub(crate) fn all_ticks(
    alloc: Global,
    chunk: &Chunk,
    rest: &ChunkRest,
    kinds: &Kinds,
    elapsed: u32,
) -> Result<Vec<Tag>, AllocError>
    requires { All (CanWriteEntry chunk.now rest.now kinds.now elapsed) (entries chunk.now.ticks) }
    ensures ok { IfOk result (λ ticks. views ticks.items
        ≡ map compound_with (opened (views rest.now.foreign.items))
        ++ map (written_entry chunk.now rest.now kinds.now elapsed) (entries chunk.now.ticks)) }
    ensures ints { IfOk result (λ _. All (HasInts elapsed) (entries chunk.now.ticks)) }
{
    let ticks = foreign_ticks(alloc, rest.foreign.as_slice())?;
    with_water(alloc, ticks, chunk, rest, kinds, elapsed)
}
