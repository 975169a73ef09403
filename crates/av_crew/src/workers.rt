//! Workers that take jobs from a ring.
ghost use Rattle.std.specs.Prelude.{◌≡◌, ◌<◌, ◌≤◌, [], IfOk, IfErr, OnOk, All, vec_len, map};
ghost use Rattle.std.specs.List.{AllZip, flat_map};
ghost use Rattle.av_types.specs.declared.fault.Fault.TheVariants.{OutOfMemory};
ghost use Rattle.av_cells.specs.Kinds.{kinds_of};
ghost use Rattle.av_ring.specs.Numbers.{HaveDistinctNumbers};
ghost use Rattle.av_crew.specs.Work.{CanWork};
ghost use Rattle.av_crew.specs.Answer.{AnswersAll};
ghost use Rattle.av_crew.specs.Workers.{Worked, IsNewSeat, HasWorked, IsWorkerOf, GivesBack};

use crate::gates::Gate;
use crate::jobs::{Done, Job};
use crate::pages::make_room;
use crate::turns::work;
use av_ring::{JobRing, Seat};
use av_rules::Kinds;
use av_types::Fault;
use std::alloc::{AllocError, Global};
use std::snapshot::Snapshot;
use std::sync::Wait;
use std::thread;
use std::thread::{Promise, PromisedHandle, Scope, Threads};

/// What a worker gives back: its seat, and the answers to the jobs that it took.
pub type Returned = (Seat<Job>, Vec<Done>);

#[derive(Drop)]
struct AnswersTaken {
    now: u32,
    kinds: Snapshot<Kinds>,
    seat: Snapshot<Seat<Job>>,
}

impl Promise<Returned> for AnswersTaken {
    ghost kept_by = { λ p r. Worked (kinds_of p.kinds.value) p.now p.seat.value r.0 r.1.items };
}

type Worker = PromisedHandle<Returned, AnswersTaken>;

/// Takes jobs and works them off, until none is left or memory runs out.
fn work_seat<R: Wait, G: Gate>(
    rt: &R,
    alloc: Global,
    jobs: &JobRing<Job>,
    mut seat: Seat<Job>,
    kinds: &Kinds,
    now: u32,
    gate: &G,
) -> Returned
    requires new { IsNewSeat jobs.now seat }
    requires able { All (CanWork kinds.now) seat.jobs }
    ensures { Worked (kinds_of kinds.now) now seat result.0 result.1.items }
{
    make_room(alloc);
    let mut dones = Vec::new(alloc);
    for _ in rt.forever() {
        if dones.reserve(1).is_err() {
            break;
        }
        match jobs.take(rt, &mut seat) {
            Some(job) => dones.push_reserved(work(job, kinds, now, gate)),
            None => break,
        }
    }
    (seat, dones)
}

/// Starts a worker with a seat.
fn start_one<'s, E, R: Wait + Sync, G: Gate + Sync>(
    scope: &'s Scope<'s, E>,
    rt: &'s R,
    alloc: Global,
    jobs: &'s JobRing<Job>,
    seat: Seat<Job>,
    kinds: &'s Kinds,
    now: u32,
    gate: &'s G,
) -> Result<Worker, AllocError>
    requires new { IsNewSeat jobs.now seat }
    requires able { All (CanWork kinds.now) seat.jobs }
    ensures { IfOk result (λ w. (w.promise.now ≡ now) × (w.promise.kinds.value ≡ kinds.now)
        × (w.promise.seat.value ≡ seat)) }
{
    let promise = AnswersTaken {
        now,
        kinds: Snapshot::of(kinds),
        seat: Snapshot::of(&seat),
    };
    let worker = scope.spawn_with(
        promise,
        move || -> Returned
            requires { IsNewSeat jobs.now seat × All (CanWork kinds.now) seat.jobs }
            ensures { Worked (kinds_of kinds.entry.now) now seat result.0 result.1.items }
        { work_seat(rt, alloc, jobs, seat, kinds, now, gate) },
    )?;
    Ok(worker)
}

/// Starts a worker for each seat.
fn start_all<'s, E, R: Wait + Sync, G: Gate + Sync>(
    scope: &'s Scope<'s, E>,
    rt: &'s R,
    alloc: Global,
    jobs: &'s JobRing<Job>,
    seats: Vec<Seat<Job>>,
    kinds: &'s Kinds,
    now: u32,
    gate: &'s G,
    workers: &mut Vec<Worker>,
) -> Result<(), AllocError>
    requires none { workers.old.items ≡ [] }
    requires new { All (IsNewSeat jobs.now) seats.items }
    requires able { All (λ s. All (CanWork kinds.now) s.jobs) seats.items }
    ensures { OnOk result (AllZip (IsWorkerOf now kinds.now) seats.items workers.new.items) }
{
    for seat in seats {
        workers.reserve(1)?;
        let worker = start_one(scope, rt, alloc, jobs, seat, kinds, now, gate)?;
        workers.push_reserved(worker);
    }
    Ok(())
}

/// Joins all workers, also where memory is refused.
fn join_all<R: Threads>(rt: &R, workers: Vec<Worker>) -> Result<Vec<Returned>, AllocError>
    ensures { IfOk result (λ returned. AllZip GivesBack workers.items returned.items) }
{
    match thread::join_promised(rt, workers) {
        Ok(returned) => Ok(returned),
        Err(refused) => {
            for worker in refused.value {
                let _ = worker.join(rt);
            }
            Err(AllocError)
        }
    }
}

/// Works in a thread for each seat but the last, and at that one here.
fn in_scope<'s, E, R: Threads + Wait + Sync, G: Gate + Sync>(
    scope: &'s Scope<'s, E>,
    rt: &'s R,
    alloc: Global,
    jobs: &'s JobRing<Job>,
    mut seats: Vec<Seat<Job>>,
    kinds: &'s Kinds,
    now: u32,
    gate: &'s G,
) -> Result<Vec<Returned>, AllocError>
    requires some { 0 < vec_len seats }
    requires new { All (IsNewSeat jobs.now) seats.items }
    requires able { All (λ s. All (CanWork kinds.now) s.jobs) seats.items }
    ensures { IfOk result (λ returned. AllZip (HasWorked (kinds_of kinds.now) now) seats.items
        returned.items) }
{
    let Some(last) = seats.pop() else {
        unreachable!()
    };
    let mut workers = Vec::new(alloc);
    let started = start_all(
        scope,
        rt,
        alloc,
        jobs,
        seats,
        kinds,
        now,
        gate,
        &mut workers,
    );
    let mine = work_seat(rt, alloc, jobs, last, kinds, now, gate);
    let joined = join_all(rt, workers);
    started?;
    let mut returned = joined?;
    returned.reserve(1)?;
    returned.push_reserved(mine);
    Ok(returned)
}

/// Seats and answers apart.
#[tactic(auto, using(crate::proofs::Zips::flat_push))]
fn apart(
    returned: Vec<Returned>,
    seats: &mut Vec<Seat<Job>>,
    dones: &mut Vec<Done>,
) -> Result<(), AllocError>
    requires no_seats { seats.old.items ≡ [] }
    requires no_dones { dones.old.items ≡ [] }
    ensures seats { OnOk result (seats.new.items ≡ map (λ p. p.0) returned.items) }
    ensures dones { OnOk result (dones.new.items ≡ flat_map (λ p. p.1.items) returned.items) }
{
    for one in returned {
        let (seat, mut mine) = one;
        seats.reserve(1)?;
        seats.push_reserved(seat);
        dones.append(&mut mine)?;
    }
    Ok(())
}

/// Works at all seats, at the last one here.
fn in_threads<R: Threads + Wait + Sync, G: Gate + Sync>(
    rt: &R,
    alloc: Global,
    jobs: &JobRing<Job>,
    seats: Vec<Seat<Job>>,
    kinds: &Kinds,
    now: u32,
    gate: &G,
) -> Result<Vec<Returned>, AllocError>
    requires some { 0 < vec_len seats }
    requires new { All (IsNewSeat jobs.now) seats.items }
    requires able { All (λ s. All (CanWork kinds.now) s.jobs) seats.items }
    ensures { IfOk result (λ returned. AllZip (HasWorked (kinds_of kinds.now) now) seats.items
        returned.items) }
{
    thread::scope(
        thread::scope_env(),
        rt,
        |scope| -> Result<Vec<Returned>, AllocError>
            requires { (0 < vec_len seats) × All (IsNewSeat jobs.now) seats.items
                × All (λ s. All (CanWork kinds.now) s.jobs) seats.items }
            ensures { IfOk result (λ returned. AllZip
                (HasWorked (kinds_of kinds.entry.now) now) seats.items returned.items) }
        { in_scope(scope, rt, alloc, jobs, seats, kinds, now, gate) },
    )
}

/// The answers to all jobs, whose numbers differ, by so many workers, 1 to 8, that take them from a ring. The calling
/// thread is one of them, and there are no more than jobs. All have ended when this returns.
///
/// # Errors
/// `OutOfMemory`, also where a worker can't be started.
pub fn work_all<R: Threads + Wait + Sync, G: Gate + Sync>(
    rt: &R,
    jobs: Vec<Job>,
    kinds: &Kinds,
    now: u32,
    workers: usize,
    gate: &G,
) -> Result<Vec<Done>, Fault>
    requires workers { (0 < workers) × (workers ≤ 8) }
    requires numbers { HaveDistinctNumbers (λ job. job.number) jobs.items }
    requires able { All (CanWork kinds.now) jobs.items }
    ensures ok { IfOk result (λ dones. AnswersAll (kinds_of kinds.now) now jobs.items dones.items) }
    ensures memory { IfErr result (λ e. e ≡ OutOfMemory) }
{
    let alloc = *jobs.allocator();
    if jobs.is_empty() {
        return Ok(Vec::new(alloc));
    }
    let seats = workers.min(jobs.len());
    let Ok((ring, seats)) = JobRing::fill(rt, alloc, jobs, seats) else {
        return Err(Fault::OutOfMemory);
    };
    let returned = in_threads(rt, alloc, &ring, seats, kinds, now, gate)?;
    let mut seats = Vec::new(alloc);
    let mut dones = Vec::new(alloc);
    apart(returned, &mut seats, &mut dones)?;
    let Ok(left) = ring.close(rt, alloc, seats) else {
        return Err(Fault::OutOfMemory);
    };
    // A job is left only where memory was refused at every seat: where one is dry none is left.
    if !left.is_empty() {
        return Err(Fault::OutOfMemory);
    }
    Ok(dones)
}
