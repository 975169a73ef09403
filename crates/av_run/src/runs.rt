//! The ticks of a run, the light after them, and the files.
ghost use Rattle.std.specs.Prelude.{◌≡◌, ◌≢◌, true, IfOk, IfErr};
ghost use Rattle.av_types.specs.declared.fault.Fault.TheVariants.{OutOfMemory};
ghost use Rattle.av_rules.specs.Rows.{BlockTable};
ghost use Rattle.av_crew.specs.Counts.{is_count_of_workers};
ghost use Rattle.av_image.specs.Views.{rest_in};
ghost use Rattle.av_run.specs.Written.{IsNotWritten};
ghost use Rattle.av_run.specs.Input.{CanRun, AreKindsBy};
ghost use Rattle.av_run.specs.Finished.{reached_from, IsFinished};

use crate::input::Input;
use crate::release::release;
use crate::writing::written;
use av_answers::Outcome;
use av_crew::{Gate, Step, run_ticks};
use av_types::Fault;
use std::alloc::Global;
use std::sync::Wait;
use std::thread::Threads;

/// The ticks of a run, the light after them, and the files. The gate is told of these steps.
pub(crate) fn finish<R: Threads + Wait + Sync, G: Gate + Sync>(
    rt: &R,
    alloc: Global,
    input: Input,
    ticks: u32,
    workers: u32,
    gate: &G,
) -> Result<Outcome, Fault>
    requires can { CanRun ticks input }
    requires workers { is_count_of_workers workers ≡ true }
    ensures ok { IfOk result (IsFinished ticks input) }
    ensures err { IfErr result (λ e. e ≢ OutOfMemory → (t : BlockTable) → AreKindsBy t input.kinds
        → IsNotWritten t (reached_from ticks input) (rest_in input.rest) ticks e) }
{
    let mut world = input.world;
    let rest = input.rest;
    let kinds = input.kinds;
    let chunks = world.positions().len() as u64;
    gate.reached(Step::Loaded { chunks });
    let turns = run_ticks(
        rt,
        alloc,
        &mut world,
        &kinds,
        input.edits.as_slice(),
        ticks,
        workers,
        gate,
    )?;
    let files = written(rt, alloc, &world, &rest, &kinds, ticks, gate)?;
    release(rt, world, rest);
    Ok(Outcome {
        files,
        turns,
        chunks,
    })
}
