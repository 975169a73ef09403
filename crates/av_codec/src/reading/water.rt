//! The scheduled fluid ticks of a chunk.
ghost use Rattle.std.specs.Prelude.{◌≡◌, false, [], ◌∷◌, IfOk, IfErr, OnOk};
ghost use Rattle.av_tags.specs.Shape.{compound_of, lacks};
ghost use Rattle.av_tags.specs.View.{view, views, named_views};
ghost use Rattle.av_document.specs.Ticks.{lies_in, is_water_name, numbers_of, water_entry, is_bad_tick};
ghost use Rattle.av_codec.specs.Working.{has_other, tags_in};
ghost use Rattle.av_chunk.specs.Rest.{opened};
ghost use Rattle.av_codec.specs.TicksRead.{AreTicks, AreBadTicks, IsTickAdded};

use crate::reading::tags::{int_at, text_at};
use av_tags::{Named, Tag};
use av_ticks::TickList;
use av_types::{ChunkPos, Entry, Fault, Height, Pos};
use std::alloc::Global;

/// Whether a block is one of the chunk.
fn lies_in(at: ChunkPos, height: Height, pos: Pos) -> bool
    ensures { result ≡ lies_in at height pos }
{
    pos.chunk() == at && height.has_block(pos.y)
}

/// Whether a fluid is water.
fn is_water(fluid: &[u8]) -> bool
    ensures { result ≡ is_water_name fluid.now }
{
    fluid == b"minecraft:water".as_slice() || fluid == b"minecraft:flowing_water".as_slice()
}

/// The entry that a tick's numbers say, where it has just these five.
fn numbers(tags: &[Named]) -> Option<Entry>
    ensures { result ≡ numbers_of (named_views tags.now) }
{
    let x = int_at(tags, b"x")?;
    let y = int_at(tags, b"y")?;
    let z = int_at(tags, b"z")?;
    let due = int_at(tags, b"t")?;
    let priority = int_at(tags, b"p")?;
    if tags.len() != 6 {
        return None;
    }
    Some(Entry {
        pos: Pos { x, y, z },
        due: i64::from(due),
        priority,
    })
}

/// The water entry that a tick is, if it is one.
fn water_entry(tags: &[Named]) -> Option<Entry>
    ensures { result ≡ water_entry (named_views tags.now) }
{
    if !is_water(text_at(tags, b"i")?) {
        return None;
    }
    numbers(tags)
}

/// Whether a tick has no fluid, or is water out of its chunk.
fn is_bad(tags: &[Named], at: ChunkPos, height: Height) -> bool
    ensures { result ≡ is_bad_tick at height (named_views tags.now) }
{
    if text_at(tags, b"i").is_none() {
        return true;
    }
    match water_entry(tags) {
        None => false,
        Some(entry) => !lies_in(at, height, entry.pos),
    }
}

/// The scheduled ticks of a chunk: its water, and all others as they are.
#[derive(Drop)]
pub(crate) struct Ticks {
    pub(crate) water: TickList,
    pub(crate) foreign: Vec<Tag>,
}

impl Ticks {
    /// Adds a tick, or answers `BadTick`.
    fn add(&mut self, tick: Tag, at: ChunkPos, height: Height) -> Result<(), Fault>
        requires { lacks (compound_of (view tick)) ≡ false }
        ensures added { OnOk result (IsTickAdded at height (view tick) self.old self.new) }
        ensures err { IfErr result (AreBadTicks at height (tags_in (view tick) ∷ [])) }
    {
        let tags = tick.as_members().unwrap();
        if is_bad(tags, at, height) {
            return Err(Fault::BadTick);
        }
        match water_entry(tags) {
            Some(entry) => {
                self.water.add(entry)?;
                Ok(())
            }
            None => Ok(self.foreign.push(tick)?),
        }
    }
}

/// The scheduled ticks of the Compounds of `fluid_ticks`, or `BadTick`.
pub(crate) fn read_ticks(
    alloc: Global,
    ticks: Vec<Tag>,
    at: ChunkPos,
    height: Height,
) -> Result<Ticks, Fault>
    requires { has_other (views ticks.items) ≡ false }
    ensures ok { IfOk result (AreTicks at height (opened (views ticks.items))) }
    ensures err { IfErr result (AreBadTicks at height (opened (views ticks.items))) }
{
    let mut read = Ticks {
        water: TickList::new(alloc),
        foreign: Vec::new(alloc),
    };
    for tick in ticks {
        read.add(tick, at, height)?;
    }
    Ok(read)
}
