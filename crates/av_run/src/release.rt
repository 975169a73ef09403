//! A world and its rest that are no longer wanted.

use av_chunk::Chunk;
use av_image::{RegionRest, Rest, Slot};
use av_world::World;
use rayon::current_num_threads;
use rayon::prelude::*;
use std::thread::Threads;

/// How many chunks a thread gives back at least: fewer are not worth one.
const CHUNKS_A_THREAD: usize = 16;

/// Whether a region has so many loaded chunks that more than one thread is worth its start.
fn is_large(region: &RegionRest) -> bool {
    let loaded = region
        .slots
        .iter()
        .filter(|slot| matches!(slot, Slot::Loaded(_)))
        .count();
    loaded >= 2 * CHUNKS_A_THREAD
}

/// How many of so many things a thread gives back at least: then there are at most as many pieces as processors.
fn piece_len(rt: &impl Threads, count: usize) -> usize {
    count.div_ceil(current_num_threads(rt)).max(CHUNKS_A_THREAD)
}

/// Gives the memory of a world and its rest back by at most as many threads as there are processors, the calling one among
/// them, at a time: a chunk's tags and sections are hundreds of small blocks each, and one thread would be busy with them for
/// longer than all are with the light.
pub(crate) fn release(rt: &(impl Threads + Sync), world: World, rest: Rest) {
    let chunks = world.into_chunks();
    let least = piece_len(rt, chunks.len());
    chunks
        .into_par_iter()
        .with_min_len(least)
        .for_each(rt, |chunk: Chunk| drop(chunk));
    for region in rest.regions {
        if !is_large(&region) {
            continue;
        }
        let least = piece_len(rt, region.slots.len());
        region
            .slots
            .into_par_iter()
            .with_min_len(least)
            .for_each(rt, |slot: Slot| drop(slot));
    }
}
