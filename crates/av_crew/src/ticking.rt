//! The parts of a tick, worked off and brought together.
ghost use Rattle.std.specs.Prelude.{◌≡◌, ◌≤◌, ◌<◌, List, IsTrue, IfOk, IfErr, false, vec_len};
ghost use Rattle.std.specs.List.{All};
ghost use Rattle.av_types.specs.declared.fault.Fault.TheVariants.{OutOfMemory};
ghost use Rattle.av_types.specs.declared.tick.Entry.{Entry};
ghost use Rattle.av_rules.specs.Kinds.{kind_count};
ghost use Rattle.av_cells.specs.Kinds.{kinds_of};
ghost use Rattle.av_cells.specs.Rule.{HasKinds};
ghost use Rattle.av_world.specs.Views.{grid, blocks, lists, is_broken, IsSameButBlocks};
ghost use Rattle.av_crew.specs.Parts.{IsCut, picks_of, AreOthersKept};
ghost use Rattle.av_crew.specs.Gathered.{AreBroughtTogether};

use crate::gates::Gate;
use crate::parts::{carve_all, mend_all};
use crate::workers::work_all;
use av_cluster::Cluster;
use av_rules::Kinds;
use av_ticks::merge_made;
use av_types::{Fault, Made};
use av_world::World;
use std::sync::Wait;
use std::thread::Threads;

/// Turns the parts of a tick in parcels of their own, and mends them. The answer is what was made, in the order in
/// which it is to be appended.
///
/// # Errors
/// `OutOfMemory`, also where a worker can't be started. Then sections of the parts can be gone from the world, or parts be
/// turned of which nothing is appended, and the world does not turn broken by it: whoever calls this gives it up, as `tick`
/// does. Its lists are as before then, and the blocks of sections of no part are so whatever the answer.
pub fn turn_parts<R: Threads + Wait + Sync, G: Gate + Sync>(
    rt: &R,
    world: &mut World,
    kinds: &Kinds,
    now: u32,
    clusters: Vec<Cluster>,
    workers: usize,
    gate: &G,
) -> Result<Vec<Made>, Fault>
    requires workers { (0 < workers) × (workers ≤ 8) }
    requires whole { is_broken world.old ≡ false }
    requires few { vec_len clusters ≤ 4294967295 }
    requires kinds { HasKinds (kind_count kinds.now) (blocks world.old) }
    requires cut { (entries : List Entry) × IsCut (grid world.old) entries clusters.items
        × All (λ e. IsTrue ((blocks world.old).loaded e.pos)) entries }
    ensures ok { IfOk result (λ made. (entries : List Entry)
        → IsCut (grid world.old) entries clusters.items
        → AreBroughtTogether (kinds_of kinds.now) now entries (blocks world.old) (lists world.old)
        (blocks world.new) made.items) }
    ensures same { IsSameButBlocks world.old world.new }
    ensures others { AreOthersKept (picks_of clusters.items) (blocks world.old) (blocks world.new) }
    ensures memory { IfErr result (λ e. e ≡ OutOfMemory) }
{
    let alloc = *clusters.allocator();
    let mut jobs = Vec::with_capacity(alloc, clusters.len())?;
    carve_all(world, clusters, &mut jobs)?;
    let dones = work_all(rt, jobs, kinds, now, workers, gate)?;
    let mut made = Vec::with_capacity(alloc, dones.len())?;
    if mend_all(world, dones, &mut made) {
        return Err(Fault::OutOfMemory);
    }
    merge_made(alloc, made.as_slice())
}
