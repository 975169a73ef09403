//! Runs of ticks on several workers.
ghost use Rattle.std.specs.Prelude.{◌≡◌, ◌⊎◌, true, false, All, OnOk, OnErr, IfOk, IfErr, if◌then◌else◌};
ghost use Rattle.av_types.specs.declared.fault.Fault.TheVariants.{OutOfMemory, BadCount, Broken};
ghost use Rattle.av_rules.specs.Kinds.{kind_count};
ghost use Rattle.av_cells.specs.Kinds.{kinds_of};
ghost use Rattle.av_land.specs.Tick.{run, run_count};
ghost use Rattle.av_world.specs.Views.{is_broken};
ghost use Rattle.av_world.specs.Lands.{land_of};
ghost use Rattle.av_edits.specs.Numbered.{number_sets};
ghost use Rattle.av_serial.specs.Ready.{IsReady, HasSameChunks, CanApply, CanTick, IsTick};
ghost use Rattle.av_crew.specs.Counts.{is_count_of_workers};

use crate::counts::Workers;
use crate::gates::{Gate, Step};
use crate::pages::keep_pages;
use crate::ticks::tick_or_give_up;
use av_edits::Edit;
use av_rules::Kinds;
use av_serial::run_ticks_with;
use av_types::Fault;
use av_world::World;
use std::alloc::Global;
use std::sync::Wait;
use std::thread::Threads;

/// Tells a gate of a tick that is done, unless it is the last: of that it is told at the run's end.
fn note_tick<G: Gate>(gate: &G, done: u32, all: u32) {
    if done < all {
        gate.reached(Step::Ticks { done, all });
    }
}

/// Ticks 1 to `n` on 1 to 8 workers, with the edits of each. Returns how many entries were taken in all of them. The
/// answer and what is left are those of the run on one thread. The gate is told of each tick in which something was to be
/// done, and at the end that all are.
///
/// # Errors
/// `BadCount` where the workers are not 1 to 8, and else `Broken` of a broken world; then the world stays as it is.
/// `OutOfMemory`: before the first tick the world stays as it is, and in a tick it is broken.
pub fn run_ticks<R: Threads + Wait + Sync, G: Gate + Sync>(
    rt: &R,
    alloc: Global,
    world: &mut World,
    kinds: &Kinds,
    edits: &[Edit],
    n: u32,
    workers: u32,
    gate: &G,
) -> Result<u128, Fault>
    requires ready { is_broken world.old ≡ false → IsReady (kind_count kinds.now) world.old }
    requires edits { is_broken world.old ≡ false → All
        (CanApply (kind_count kinds.now) world.old) edits.now }
    ensures done { OnOk result (land_of world.new ≡ run (kinds_of kinds.now)
        (number_sets edits.now) n (land_of world.old)) }
    ensures count { IfOk result (λ total. total ≡ run_count (kinds_of kinds.now)
        (number_sets edits.now) n (land_of world.old)) }
    ensures ready { OnOk result (IsReady (kind_count kinds.now) world.new) }
    ensures chunks { OnOk result (HasSameChunks world.old world.new) }
    ensures sound { OnOk result (is_broken world.old ≡ false) }
    ensures workers { OnOk result (is_count_of_workers workers ≡ true) }
    ensures stands { OnErr result ((world.new ≡ world.old) ⊎ (is_broken world.new ≡ true)) }
    ensures unchanged { is_broken world.old ≡ true → world.new ≡ world.old }
    ensures refused { is_count_of_workers workers ≡ false → world.new ≡ world.old }
    ensures err { IfErr result (λ e. e ≡ (if is_count_of_workers workers
        then (if is_broken world.old then Broken else OutOfMemory) else BadCount)) }
{
    let workers = Workers::new(workers)?;
    keep_pages(alloc);
    let turns = run_ticks_with(
        alloc,
        world,
        kinds,
        edits,
        n,
        &|world: &mut World, now: u32, edits: &[Edit]| -> Result<u64, Fault>
            requires { CanTick kinds.now world.old edits.now }
            ensures { IsTick kinds.entry.now now edits.now world.old world.new result }
        {
            let count = tick_or_give_up(rt, world, kinds, now, edits, workers, gate)?;
            note_tick(gate, now, n);
            Ok(count)
        },
    )?;
    gate.reached(Step::Ticks { done: n, all: n });
    Ok(turns)
}
