//! The blocks of a world that give light.
ghost use Rattle.std.specs.Prelude.{◌≡◌, map, IfOk};
ghost use Rattle.std.specs.List.{AllZip};
ghost use Rattle.std.proofs.Props.{props};
ghost use Rattle.av_world.specs.Views.{positions_of, blocks};
ghost use Rattle.av_section_light.specs.Light.{terrain_of};
ghost use Rattle.av_section_light.specs.Lamps.{HasLamps};
ghost use Rattle.av_light.specs.Lamps.{AreLamps};

use crate::around::Around;
use av_rules::Kinds;
use av_section_light::lamps_in;
use av_types::{ChunkPos, Pos};
use av_world::World;
use rayon::current_num_threads;
use rayon::prelude::*;
use std::alloc::{AllocError, Global};
use std::thread::Threads;

/// The blocks of a chunk of a world that give light.
pub(crate) fn lamps_of(
    alloc: Global,
    world: &World,
    kinds: &Kinds,
    chunk: ChunkPos,
) -> Result<Vec<Pos>, AllocError>
    ensures { IfOk result (λ lamps. HasLamps (terrain_of kinds.now (blocks world.now)) chunk
        lamps.items) }
{
    let around = Around::new(world, &[], chunk);
    lamps_in(alloc, &around, kinds, chunk)
}

/// The blocks of each chunk of a world that give light, by as many threads as there are processors.
fn lists_by(
    rt: &(impl Threads + Sync),
    alloc: Global,
    world: &World,
    kinds: &Kinds,
) -> Result<Vec<Vec<Pos>>, AllocError>
    ensures { IfOk result (λ lists. AllZip (λ c v.
        HasLamps (terrain_of kinds.now (blocks world.now)) c v.items)
        (positions_of world.now) lists.items) }
{
    let positions = world.positions();
    let piece = positions.len() / current_num_threads(rt);
    let lists = positions
        .par_iter()
        .with_min_len(piece)
        .map(
            |chunk: &ChunkPos| -> Result<Vec<Pos>, AllocError>
                ensures { IfOk result (λ lamps. HasLamps
                    (terrain_of kinds.entry.now (blocks world.entry.now)) chunk.now lamps.items) }
            { lamps_of(alloc, world, kinds, *chunk) },
        )
        .collect::<Result<Vec<Vec<Pos>>, AllocError>>(rt, alloc)?;
    lists
}

/// The blocks of a world that give light, a list for each chunk. They are looked for once, and read in the floods of nine
/// chunks.
#[derive(Drop)]
pub(crate) struct Lamps<'a> {
    pub world: &'a World,
    pub kinds: &'a Kinds,
    /// By where the chunks stand.
    pub lists: Vec<Vec<Pos>>,
    ghost known: { AreLamps kinds.now world.now (map (λ v. v.items) lists.items) } by { Prim.hlevel props },
}

impl<'a> Lamps<'a> {
    pub(crate) fn new(
        rt: &(impl Threads + Sync),
        alloc: Global,
        world: &'a World,
        kinds: &'a Kinds,
    ) -> Result<Lamps<'a>, AllocError>
        ensures world { IfOk result (λ l. l.world.now ≡ world.now) }
        ensures kinds { IfOk result (λ l. l.kinds.now ≡ kinds.now) }
    {
        let lists = lists_by(rt, alloc, world, kinds)?;
        Ok(Lamps {
            world,
            kinds,
            lists,
        })
    }
}
