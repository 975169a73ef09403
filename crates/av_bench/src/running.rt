//! Ticks of a region with the edits of a text.
ghost use Rattle.std.specs.Prelude.{IfOk};
ghost use Rattle.av_run.specs.Input.{CanRun};

use anyhow::Result;
use av_crew::{NoGate, run_ticks as run_on_workers};
use av_image::Rest;
use av_run::{Input, RegionFile, read_input};
use av_serial::run_ticks;
use av_serial_tests::runs::After;
use av_types::{Fault, RegionPos};
use std::alloc::Global;
use std::rt::Clock;
use std::sync::Wait;
use std::thread::Threads;
use std::time::Instant;

/// What a file of the region (0, 0), a block table and edits say.
fn read(
    rt: &(impl Threads + Sync),
    alloc: Global,
    bytes: Vec<u8>,
    table: &[u8],
    edits: &[u8],
    ticks: u32,
) -> Result<Input, Fault>
    ensures { IfOk result (CanRun ticks) }
{
    let pos = RegionPos { x: 0, z: 0 };
    let mut files = Vec::new(alloc);
    files.push(RegionFile { pos, bytes })?;
    read_input(rt, alloc, files, table, edits, ticks)
}

/// The ticks on so many workers, or by the tick of one thread where there are none. What chunks keep beside their blocks is
/// handed back, so that dropping it is not timed.
fn run_input<R: Threads + Wait + Sync>(
    rt: &R,
    alloc: Global,
    input: Input,
    ticks: u32,
    workers: u32,
) -> Result<(After, Rest), Fault>
    requires { CanRun ticks input }
{
    let rest = input.rest;
    let mut world = input.world;
    let kinds = input.kinds;
    let edits = input.edits.as_slice();
    let count = if workers == 0 {
        run_ticks(alloc, &mut world, &kinds, edits, ticks)?
    } else {
        run_on_workers(
            rt, alloc, &mut world, &kinds, edits, ticks, workers, &NoGate,
        )?
    };
    Ok((After { world, count }, rest))
}

/// The line has the number of turns, and how many microseconds the ticks alone took.
pub(crate) fn run_region<R: Threads + Wait + Sync + Clock>(
    rt: &R,
    alloc: Global,
    bytes: Vec<u8>,
    table: &[u8],
    edits: &[u8],
    ticks: u32,
    workers: u32,
) -> Result<String> {
    let input = read(rt, alloc, bytes, table, edits, ticks)?;
    let start = Instant::now(rt)?;
    let (after, _rest) = run_input(rt, alloc, input, ticks, workers)?;
    let took = start.elapsed(rt)?.as_micros();
    let turns = after.count;
    Ok(format!(in alloc; "turns {turns} us {took}")?)
}
