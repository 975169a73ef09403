//! Runs of ticks.
ghost use Rattle.std.specs.Prelude.{◌≡◌, ◌⊎◌, ◌+◌, ◌<◌, true, false, All, OnOk, OnErr, IfOk, IfErr, if◌then◌else◌, length, nat_eq, nat_lt, ◌&&◌, ◌^◌};
ghost use Rattle.std.specs.List.Sorted.{IsNonDecreasingBy};
ghost use Rattle.av_types.specs.declared.fault.Fault.TheVariants.{OutOfMemory, Broken};
ghost use Rattle.av_rules.specs.Kinds.{kind_count};
ghost use Rattle.av_cells.specs.Kinds.{kinds_of};
ghost use Rattle.av_land.specs.Tick.{ticked, tick_count, run, run_count};
ghost use Rattle.av_world.specs.Views.{is_broken};
ghost use Rattle.av_world.specs.Lands.{land_of};
ghost use Rattle.av_edits.specs.Numbered.{number_sets};
ghost use Rattle.av_serial.specs.Ready.{IsReady, HasSameChunks, CanApply, CanTick, IsTick, AcceptsTicks, TakesTicks};
ghost use Rattle.av_serial.specs.Schedule.{tick_of, NothingBefore, IsAfterTicks};

use crate::schedule::{end_of, sorted_by_tick};
use crate::ticks;
use av_edits::Edit;
use av_rules::Kinds;
use av_types::Fault;
use av_world::World;
use std::alloc::{AllocError, Global};

/// A tick before which nothing is due.
fn soonest(world: &World) -> u64
    ensures { NothingBefore result (land_of world.now) }
{
    world.soonest()
}

/// Whether nothing is to be done in tick `now`.
fn is_idle(edits: &[Edit], now: u32, next: u64) -> bool
    ensures { result ≡ (nat_eq (length edits.now) 0 && nat_lt now next) }
{
    edits.is_empty() && u64::from(now) < next
}

/// Tick `now` with its edits, unless there are none and nothing is due before `next`. Afterwards `next` is again a tick
/// before which nothing is due.
fn tick_from<F: Fn(&mut World, u32, &[Edit]) -> Result<u64, Fault>>(
    world: &mut World,
    kinds: &Kinds,
    now: u32,
    edits: &[Edit],
    next: &mut u64,
    tick: &F,
) -> Result<u64, AllocError>
    requires accepts { AcceptsTicks kinds.now (F.pre tick.now) }
    requires takes { TakesTicks kinds.now (F.post tick.now) }
    requires ready { IsReady (kind_count kinds.now) world.old }
    requires sound { is_broken world.old ≡ false }
    requires edits { All (CanApply (kind_count kinds.now) world.old) edits.now }
    requires next { NothingBefore next.old (land_of world.old) }
    ensures done { OnOk result (land_of world.new ≡ ticked (kinds_of kinds.now) now
        (number_sets edits.now) (land_of world.old)) }
    ensures count { IfOk result (λ count. count ≡ tick_count (kinds_of kinds.now) now
        (number_sets edits.now) (land_of world.old)) }
    ensures next { OnOk result (NothingBefore next.new (land_of world.new)) }
    ensures ready { OnOk result (IsReady (kind_count kinds.now) world.new) }
    ensures chunks { OnOk result (HasSameChunks world.old world.new) }
    ensures broken { OnErr result (is_broken world.new ≡ true) }
{
    let idle = is_idle(edits, now, *next);
    if idle {
        return Ok(0);
    }
    let Ok(count) = tick(world, now, edits) else {
        return Err(AllocError);
    };
    *next = soonest(world);
    Ok(count)
}

/// Where a run stands.
#[derive(Drop)]
struct Schedule {
    /// The edits before this index are done.
    from: usize,
    /// Nothing is due before this tick.
    next: u64,
}

/// One tick more, after `done` ticks.
fn next_tick<F: Fn(&mut World, u32, &[Edit]) -> Result<u64, Fault>>(
    world: &mut World,
    kinds: &Kinds,
    edits: &[Edit],
    done: u32,
    schedule: &mut Schedule,
    tick: &F,
) -> Result<u64, AllocError>
    requires accepts { AcceptsTicks kinds.now (F.pre tick.now) }
    requires takes { TakesTicks kinds.now (F.post tick.now) }
    requires few { done + 1 < 2 ^ 32 }
    requires ready { IsReady (kind_count kinds.now) world.old }
    requires sound { is_broken world.old ≡ false }
    requires edits { All (CanApply (kind_count kinds.now) world.old) edits.now }
    requires sorted { IsNonDecreasingBy tick_of edits.now }
    requires schedule { IsAfterTicks done schedule.old.from schedule.old.next edits.now
        (land_of world.old) }
    ensures done { OnOk result (land_of world.new ≡ ticked (kinds_of kinds.now) (done + 1)
        (number_sets edits.now) (land_of world.old)) }
    ensures count { IfOk result (λ count. count ≡ tick_count (kinds_of kinds.now) (done + 1)
        (number_sets edits.now) (land_of world.old)) }
    ensures schedule { OnOk result (IsAfterTicks (done + 1) schedule.new.from schedule.new.next
        edits.now (land_of world.new)) }
    ensures ready { OnOk result (IsReady (kind_count kinds.now) world.new) }
    ensures chunks { OnOk result (HasSameChunks world.old world.new) }
    ensures broken { OnErr result (is_broken world.new ≡ true) }
{
    let now = done + 1;
    let from = schedule.from;
    let to = end_of(edits, from, now);
    schedule.from = to;
    tick_from(
        world,
        kinds,
        now,
        &edits[from..to],
        &mut schedule.next,
        tick,
    )
}

/// Ticks 1 to `n`, of edits that are sorted by their ticks.
fn run_sorted<F: Fn(&mut World, u32, &[Edit]) -> Result<u64, Fault>>(
    world: &mut World,
    kinds: &Kinds,
    edits: &[Edit],
    n: u32,
    tick: &F,
) -> Result<u128, AllocError>
    requires accepts { AcceptsTicks kinds.now (F.pre tick.now) }
    requires takes { TakesTicks kinds.now (F.post tick.now) }
    requires ready { IsReady (kind_count kinds.now) world.old }
    requires sound { is_broken world.old ≡ false }
    requires edits { All (CanApply (kind_count kinds.now) world.old) edits.now }
    requires sorted { IsNonDecreasingBy tick_of edits.now }
    ensures done { OnOk result (land_of world.new ≡ run (kinds_of kinds.now)
        (number_sets edits.now) n (land_of world.old)) }
    ensures count { IfOk result (λ total. total ≡ run_count (kinds_of kinds.now)
        (number_sets edits.now) n (land_of world.old)) }
    ensures ready { OnOk result (IsReady (kind_count kinds.now) world.new) }
    ensures chunks { OnOk result (HasSameChunks world.old world.new) }
    ensures broken { OnErr result (is_broken world.new ≡ true) }
{
    let next = soonest(world);
    let mut schedule = Schedule { from: 0, next };
    let mut total: u128 = 0;
    for done in 0..n {
        let count = next_tick(world, kinds, edits, done, &mut schedule, tick)?;
        total += count as u128;
    }
    Ok(total)
}

/// Ticks 1 to `n`, with the edits of each, where `tick` takes one tick of a world that is not broken. Returns how many
/// entries were taken in all of them. A tick without edits in which nothing is due takes no time to speak of.
///
/// # Errors
/// `Broken` of a broken world, which stays as it is. `OutOfMemory`: before the first tick the world stays as it is, and
/// in a tick it is broken.
pub fn run_ticks_with<F: Fn(&mut World, u32, &[Edit]) -> Result<u64, Fault>>(
    alloc: Global,
    world: &mut World,
    kinds: &Kinds,
    edits: &[Edit],
    n: u32,
    tick: &F,
) -> Result<u128, Fault>
    requires accepts { AcceptsTicks kinds.now (F.pre tick.now) }
    requires takes { TakesTicks kinds.now (F.post tick.now) }
    requires ready { is_broken world.old ≡ false → IsReady (kind_count kinds.now) world.old }
    requires edits { is_broken world.old ≡ false → All
        (CanApply (kind_count kinds.now) world.old) edits.now }
    ensures done { OnOk result (land_of world.new ≡ run (kinds_of kinds.now)
        (number_sets edits.now) n (land_of world.old)) }
    ensures count { IfOk result (λ total. total ≡ run_count (kinds_of kinds.now)
        (number_sets edits.now) n (land_of world.old)) }
    ensures ready { OnOk result (IsReady (kind_count kinds.now) world.new) }
    ensures chunks { OnOk result (HasSameChunks world.old world.new) }
    ensures sound { OnOk result (is_broken world.old ≡ false) }
    ensures stands { OnErr result ((world.new ≡ world.old) ⊎ (is_broken world.new ≡ true)) }
    ensures unchanged { is_broken world.old ≡ true → world.new ≡ world.old }
    ensures err { IfErr result (λ e. e ≡ (if is_broken world.old then Broken else OutOfMemory)) }
{
    if world.broken() {
        return Err(Fault::Broken);
    }
    let sorted = sorted_by_tick(alloc, edits)?;
    Ok(run_sorted(world, kinds, sorted.as_slice(), n, tick)?)
}

/// Ticks 1 to `n` on one thread, with the edits of each. Returns how many entries were taken in all of them.
///
/// # Errors
/// Those of `run_ticks_with`.
pub fn run_ticks(
    alloc: Global,
    world: &mut World,
    kinds: &Kinds,
    edits: &[Edit],
    n: u32,
) -> Result<u128, Fault>
    requires ready { is_broken world.old ≡ false → IsReady (kind_count kinds.now) world.old }
    requires edits { is_broken world.old ≡ false → All
        (CanApply (kind_count kinds.now) world.old) edits.now }
    ensures done { OnOk result (land_of world.new ≡ run (kinds_of kinds.now)
        (number_sets edits.now) n (land_of world.old)) }
    ensures count { IfOk result (λ total. total ≡ run_count (kinds_of kinds.now)
        (number_sets edits.now) n (land_of world.old)) }
    ensures ready { OnOk result (IsReady (kind_count kinds.now) world.new) }
    ensures chunks { OnOk result (HasSameChunks world.old world.new) }
    ensures sound { OnOk result (is_broken world.old ≡ false) }
    ensures stands { OnErr result ((world.new ≡ world.old) ⊎ (is_broken world.new ≡ true)) }
    ensures unchanged { is_broken world.old ≡ true → world.new ≡ world.old }
    ensures err { IfErr result (λ e. e ≡ (if is_broken world.old then Broken else OutOfMemory)) }
{
    run_ticks_with(
        alloc,
        world,
        kinds,
        edits,
        n,
        &|world: &mut World, now: u32, edits: &[Edit]| -> Result<u64, Fault>
            requires { CanTick kinds.now world.old edits.now }
            ensures { IsTick kinds.entry.now now edits.now world.old world.new result }
        { ticks::tick(world, kinds, now, edits) },
    )
}
