//! The tick on several workers.
ghost use Rattle.std.specs.Prelude.{◌≡◌, ◌≢◌, ◌≤◌, ◌<◌, true, false, All, OnOk, OnErr, IfOk, IfErr, if◌then◌else◌, length, vec_len};
ghost use Rattle.std.specs.List.{list_all};
ghost use Rattle.av_types.specs.declared.fault.Fault.TheVariants.{OutOfMemory, BadCount, Broken};
ghost use Rattle.av_rules.specs.Kinds.{kind_count};
ghost use Rattle.av_cells.specs.Kinds.{kinds_of};
ghost use Rattle.av_land.specs.Tick.{turned_all, ticked, tick_count, due_entries, without_due};
ghost use Rattle.av_world.specs.Views.{is_broken, blocks};
ghost use Rattle.av_world.specs.Lands.{land_of};
ghost use Rattle.av_cluster.specs.Clusters.{ArePlanned};
ghost use Rattle.av_edits.specs.Numbered.{number_sets};
ghost use Rattle.av_serial.specs.Ready.{IsReady, HasSameChunks, CanApply};
ghost use Rattle.av_crew.specs.Counts.{is_count_of_workers};

use crate::counts::Workers;
use crate::gates::Gate;
use crate::ticking::turn_parts;
use av_cluster::{Cluster, plan};
use av_edits::Edit;
use av_rules::Kinds;
use av_serial::{apply_all, turn_all};
use av_team::turn_in_groups;
use av_types::{Entry, Fault};
use av_world::World;
use std::alloc::{AllocError, Global};
use std::sync::Wait;
use std::thread::Threads;

/// A thread is worth its start where there are so many entries for it.
const SHARE: usize = 128;

/// Turns the parts of a plan, and appends what they made.
fn turn_planned<R: Threads + Wait + Sync, G: Gate + Sync>(
    rt: &R,
    world: &mut World,
    kinds: &Kinds,
    now: u32,
    clusters: Vec<Cluster>,
    entries: &[Entry],
    workers: Workers,
    gate: &G,
) -> Result<(), AllocError>
    requires ready { IsReady (kind_count kinds.now) world.old }
    requires sound { is_broken world.old ≡ false }
    requires loaded { list_all (λ e. (blocks world.old).loaded e.pos) entries.now ≡ true }
    requires planned { ArePlanned (blocks world.old) entries.now clusters.items }
    requires few { vec_len clusters ≤ 4294967295 }
    ensures done { OnOk result (land_of world.new ≡ turned_all (kinds_of kinds.now) now entries.now
        (land_of world.old)) }
    ensures ready { OnOk result (IsReady (kind_count kinds.now) world.new) }
    ensures chunks { OnOk result (HasSameChunks world.old world.new) }
{
    let Ok(made) = turn_parts(rt, world, kinds, now, clusters, workers.count, gate) else {
        return Err(AllocError);
    };
    let Ok(()) = world.append(made.as_slice()) else {
        return Err(AllocError);
    };
    Ok(())
}

/// Turns the blocks of entries: in parts, where the gate watches them, and else one after the other.
fn turn_taken<R: Threads + Wait + Sync, G: Gate + Sync>(
    rt: &R,
    alloc: Global,
    world: &mut World,
    kinds: &Kinds,
    now: u32,
    entries: &[Entry],
    workers: Workers,
    gate: &G,
) -> Result<(), AllocError>
    requires ready { IsReady (kind_count kinds.now) world.old }
    requires sound { is_broken world.old ≡ false }
    requires loaded { list_all (λ e. (blocks world.old).loaded e.pos) entries.now ≡ true }
    ensures done { OnOk result (land_of world.new ≡ turned_all (kinds_of kinds.now) now entries.now
        (land_of world.old)) }
    ensures ready { OnOk result (IsReady (kind_count kinds.now) world.new) }
    ensures chunks { OnOk result (HasSameChunks world.old world.new) }
{
    if gate.watches() {
        let Ok(clusters) = plan(alloc, world, entries) else {
            return Err(AllocError);
        };
        return turn_planned(rt, world, kinds, now, clusters, entries, workers, gate);
    }
    turn_all(world, kinds, now, entries)
}

/// Takes what is due, and turns it.
fn turn_due<R: Threads + Wait + Sync, G: Gate + Sync>(
    rt: &R,
    world: &mut World,
    kinds: &Kinds,
    now: u32,
    workers: Workers,
    gate: &G,
) -> Result<u64, AllocError>
    requires ready { IsReady (kind_count kinds.now) world.old }
    requires sound { is_broken world.old ≡ false }
    ensures done { OnOk result (land_of world.new ≡ turned_all (kinds_of kinds.now) now
        (due_entries now (land_of world.old)) (without_due now (land_of world.old))) }
    ensures count { IfOk result (λ n. n ≡ length (due_entries now (land_of world.old))) }
    ensures ready { OnOk result (IsReady (kind_count kinds.now) world.new) }
    ensures chunks { OnOk result (HasSameChunks world.old world.new) }
{
    let entries = world.due(now)?;
    let alloc = *entries.allocator();
    let count = entries.len();
    // One worker or few entries pay no groups and no threads, and a gate that watches is told of parts.
    let threads = if gate.watches() {
        1
    } else {
        workers.count.min(count / SHARE)
    };
    if threads > 1 {
        turn_in_groups(rt, alloc, world, kinds, now, entries, threads)?;
    } else {
        world.leave_due(now);
        let due = entries.as_slice();
        turn_taken(rt, alloc, world, kinds, now, due, workers, gate)?;
    }
    Ok(count as u64)
}

/// The edits of a tick, and then the entries that are due.
fn work_tick<R: Threads + Wait + Sync, G: Gate + Sync>(
    rt: &R,
    world: &mut World,
    kinds: &Kinds,
    now: u32,
    edits: &[Edit],
    workers: Workers,
    gate: &G,
) -> Result<u64, AllocError>
    requires ready { IsReady (kind_count kinds.now) world.old }
    requires sound { is_broken world.old ≡ false }
    requires edits { All (CanApply (kind_count kinds.now) world.old) edits.now }
    ensures done { OnOk result (land_of world.new ≡ ticked (kinds_of kinds.now) now
        (number_sets edits.now) (land_of world.old)) }
    ensures count { IfOk result (λ n. n ≡ tick_count (kinds_of kinds.now) now
        (number_sets edits.now) (land_of world.old)) }
    ensures ready { OnOk result (IsReady (kind_count kinds.now) world.new) }
    ensures chunks { OnOk result (HasSameChunks world.old world.new) }
{
    let Ok(()) = apply_all(world, kinds, now, edits) else {
        return Err(AllocError);
    };
    turn_due(rt, world, kinds, now, workers, gate)
}

/// Works a tick off, and gives the world up where memory is refused.
pub(crate) fn tick_or_give_up<R: Threads + Wait + Sync, G: Gate + Sync>(
    rt: &R,
    world: &mut World,
    kinds: &Kinds,
    now: u32,
    edits: &[Edit],
    workers: Workers,
    gate: &G,
) -> Result<u64, AllocError>
    requires ready { IsReady (kind_count kinds.now) world.old }
    requires sound { is_broken world.old ≡ false }
    requires edits { All (CanApply (kind_count kinds.now) world.old) edits.now }
    ensures done { OnOk result (land_of world.new ≡ ticked (kinds_of kinds.now) now
        (number_sets edits.now) (land_of world.old)) }
    ensures count { IfOk result (λ n. n ≡ tick_count (kinds_of kinds.now) now
        (number_sets edits.now) (land_of world.old)) }
    ensures ready { OnOk result (IsReady (kind_count kinds.now) world.new) }
    ensures chunks { OnOk result (HasSameChunks world.old world.new) }
    ensures broken { OnErr result (is_broken world.new ≡ true) }
{
    match work_tick(rt, world, kinds, now, edits, workers, gate) {
        Ok(count) => Ok(count),
        Err(refused) => {
            world.give_up();
            Err(refused)
        }
    }
}

/// Tick `now` on 1 to 8 workers, of which the calling thread is one: its edits, in order, and then the entries that are
/// due leave their lists and are turned, where the gate watches those of each part of the plan by one worker. Returns how
/// many they are. What is left is that of the tick on one thread.
///
/// # Errors
/// `BadCount` where the workers are not 1 to 8, and else `Broken` of a broken world; then the world stays as it is.
/// `OutOfMemory`, also where a worker can't be started: then all workers have ended, and the world is broken.
pub fn tick<R: Threads + Wait + Sync, G: Gate + Sync>(
    rt: &R,
    world: &mut World,
    kinds: &Kinds,
    now: u32,
    edits: &[Edit],
    workers: u32,
    gate: &G,
) -> Result<u64, Fault>
    requires ready { is_broken world.old ≡ false → IsReady (kind_count kinds.now) world.old }
    requires edits { is_broken world.old ≡ false → All
        (CanApply (kind_count kinds.now) world.old) edits.now }
    ensures done { OnOk result (land_of world.new ≡ ticked (kinds_of kinds.now) now
        (number_sets edits.now) (land_of world.old)) }
    ensures count { IfOk result (λ n. n ≡ tick_count (kinds_of kinds.now) now
        (number_sets edits.now) (land_of world.old)) }
    ensures ready { OnOk result (IsReady (kind_count kinds.now) world.new) }
    ensures chunks { OnOk result (HasSameChunks world.old world.new) }
    ensures sound { OnOk result (is_broken world.old ≡ false) }
    ensures workers { OnOk result (is_count_of_workers workers ≡ true) }
    ensures err { IfErr result (λ e. e ≡ (if is_count_of_workers workers
        then (if is_broken world.old then Broken else OutOfMemory) else BadCount)) }
    ensures broken { IfErr result (λ e. e ≡ OutOfMemory → is_broken world.new ≡ true) }
    ensures unchanged { IfErr result (λ e. e ≢ OutOfMemory → world.new ≡ world.old) }
{
    let workers = Workers::new(workers)?;
    if world.broken() {
        return Err(Fault::Broken);
    }
    Ok(tick_or_give_up(rt, world, kinds, now, edits, workers, gate)?)
}
