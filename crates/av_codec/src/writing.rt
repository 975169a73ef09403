//! A chunk, written as a document.
ghost use Rattle.std.specs.Prelude.{◌≡◌, IfOk, IfErr};
ghost use Rattle.av_types.specs.declared.fault.Fault.TheVariants.{OutOfMemory};
ghost use Rattle.av_tags.specs.View.{document};
ghost use Rattle.av_nbt.specs.Writing.{IsWellFormed};
ghost use Rattle.av_codec.specs.Writing.{CanWrite, DenotesSooner, written};

mod build;
mod section;
mod sections;
mod ticks;

use crate::writing::build::{compounds, tagged};
use crate::writing::sections::all_sections;
use crate::writing::ticks::all_ticks;
use av_chunk::{Chunk, ChunkLight, ChunkRest};
use av_rules::Kinds;
use av_tags::{Root, copy_tags};
use av_types::Fault;
use std::alloc::Global;

/// The document of a chunk, after so many ticks were run: all that its rest has, where it stood, with
/// the states of its blocks, its light, and its scheduled ticks, each due so many ticks sooner.
/// It can be encoded, and reads as the same chunk. Refuses with OutOfMemory alone.
///
/// No section of the chunk is out, each of its blocks' numbers is of the table, each entry lies in the chunk and is
/// due at a time that fits an Int after these ticks, and the light has as many sections as the height.
pub fn write_chunk(
    alloc: Global,
    chunk: &Chunk,
    rest: &ChunkRest,
    kinds: &Kinds,
    light: &ChunkLight,
    elapsed: u32,
) -> Result<Root, Fault>
    requires { CanWrite chunk.now rest.now kinds.now light.now elapsed }
    ensures ok { IfOk result (λ root. document root
        ≡ written chunk.now rest.now kinds.now light.now elapsed) }
    ensures well_formed { IfOk result (λ root. IsWellFormed (document root)) }
    ensures denotes { IfOk result (λ root. DenotesSooner chunk.now rest.now kinds.now elapsed
        (document root)) }
    ensures memory { IfErr result (λ e. e ≡ OutOfMemory) }
{
    let sections = all_sections(alloc, chunk, rest, kinds, light)?;
    let ticks = all_ticks(alloc, chunk, rest, kinds, elapsed)?;
    let tags = copy_tags(alloc, rest.tags.as_slice())?;
    let tags = tagged(alloc, tags, b"sections", compounds(sections))?;
    let tags = tagged(alloc, tags, b"fluid_ticks", compounds(ticks))?;
    let name = Vec::from_slice(alloc, rest.name.as_slice())?;
    Ok(Root { name, tags })
}
