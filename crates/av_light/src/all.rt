//! The light of all chunks of a world, by several threads.
ghost use Rattle.std.specs.Prelude.{◌≡◌, false, length, OnOk, IfOk, IfErr, if◌then◌else◌};
ghost use Rattle.std.specs.List.{All, AllZip};
ghost use Rattle.av_types.specs.declared.fault.Fault.TheVariants.{OutOfMemory, Broken};
ghost use Rattle.av_chunk.specs.Light.{section_count};
ghost use Rattle.av_world.specs.Views.{height_of, positions_of, blocks, is_broken};
ghost use Rattle.av_section_light.specs.Light.{IsChunkLight};
ghost use Rattle.av_dealt.specs.Dealt.{IsTaken};
ghost use Rattle.av_light.specs.AtIndex.{IsChunkLightAt};
ghost use Rattle.av_light.specs.Lights.{AreLit};

use crate::dealt::in_order;
use crate::lamps::Lamps;
use av_chunk::ChunkLight;
use av_dealt::{Dealt, gathered, taken};
use av_rules::Kinds;
use av_types::Fault;
use av_world::World;
use rayon::current_num_threads;
use rayon::prelude::*;
use std::alloc::{AllocError, Global};
use std::sync::atomic::AtomicU64;
use std::thread::Threads;

/// The light of each chunk of a world, by as many threads as there are processors. Each takes the next chunk that none
/// has taken, since chunks differ in their work and processors in their speed.
fn lights_by(
    rt: &(impl Threads + Sync),
    alloc: Global,
    lamps: &Lamps<'_>,
) -> Result<Vec<ChunkLight>, AllocError>
    ensures { IfOk result (λ lights. AllZip (IsChunkLight lamps.now.kinds.now
        (blocks lamps.now.world.now) (height_of lamps.now.world.now))
        (positions_of lamps.now.world.now) lights.items) }
{
    let next = AtomicU64::new(0);
    let count = current_num_threads(rt).min(lamps.world.positions().len());
    let all = (0..count)
        .into_par_iter()
        .with_min_len(1)
        .map(
            |_thread: usize| -> Result<Vec<Dealt<ChunkLight>>, AllocError>
                ensures { IsTaken (length (positions_of lamps.entry.now.world.now))
                    (IsChunkLightAt lamps.entry.now.kinds.now lamps.entry.now.world.now) result }
            { taken(alloc, lamps, &next) },
        )
        .collect::<Vec<Result<Vec<Dealt<ChunkLight>>, AllocError>>>(rt, alloc)?;
    let slots = gathered(alloc, lamps, all)?;
    in_order(alloc, lamps, slots)
}

/// The light of each chunk of a world, broken or not.
fn lights(
    rt: &(impl Threads + Sync),
    alloc: Global,
    world: &World,
    kinds: &Kinds,
) -> Result<Vec<ChunkLight>, AllocError>
    ensures { IfOk result (λ lights. AllZip (IsChunkLight kinds.now (blocks world.now)
        (height_of world.now)) (positions_of world.now) lights.items) }
{
    let lamps = Lamps::new(rt, alloc, world, kinds)?;
    lights_by(rt, alloc, &lamps)
}

/// The light of each chunk of a world, in the order of its positions, from as many threads as there are processors.
///
/// # Errors
/// `Broken` of a broken world, and else `OutOfMemory`.
pub fn light_all(
    rt: &(impl Threads + Sync),
    alloc: Global,
    world: &World,
    kinds: &Kinds,
) -> Result<Vec<ChunkLight>, Fault>
    ensures each { IfOk result (λ lights. AllZip (IsChunkLight kinds.now (blocks world.now)
        (height_of world.now)) (positions_of world.now) lights.items) }
    ensures count { IfOk result (λ lights. length lights.items ≡ length (positions_of world.now)) }
    ensures sections { IfOk result (λ lights. All (λ l. section_count l
        ≡ (height_of world.now).sections) lights.items) }
    ensures blocks { IfOk result (λ lights. AreLit kinds.now world.now lights.items) }
    ensures sound { OnOk result (is_broken world.now ≡ false) }
    ensures err { IfErr result (λ e. e ≡ (if is_broken world.now then Broken else OutOfMemory)) }
{
    if world.broken() {
        return Err(Fault::Broken);
    }
    Ok(lights(rt, alloc, world, kinds)?)
}
