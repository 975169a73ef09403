//! Jobs that are their own numbers, taken by one worker and by eight in threads of their own.
ghost use Rattle.std.specs.Prelude.{◌≡◌, ◌+◌, ◌<◌, ◌≤◌, ◌++◌, IfOk, All, vec_len};
ghost use Rattle.std.specs.List.Sorted.{IsPermutation};
ghost use Rattle.av_ring.specs.Numbers.{HaveDistinctNumbers};
ghost use Rattle.av_ring.specs.Shown.{IsSeatOf};

use crate::{JobRing, Numbered, Seat};
use av_types::Fault;
use std::alloc::{AllocError, Global};
use std::sync::Wait;
use std::test::Fail;
use std::thread;
use std::thread::Threads;

impl Numbered for u32 {
    ghost number_of = { λ n. n };

    fn number(&self) -> u32 {
        *self
    }
}

/// What a worker gives back: its seat, and the jobs that it took.
type Part = (Seat<u32>, Vec<u32>);

/// Takes jobs until there is none, or so many.
fn take_up_to<R: Wait>(
    rt: &R,
    alloc: Global,
    ring: &JobRing<u32>,
    mut seat: Seat<u32>,
    most: usize,
) -> Part
    requires { IsSeatOf ring.now seat }
    ensures of_ring { IsSeatOf ring.now result.0 }
    ensures jobs { result.0.jobs ≡ seat.jobs }
    ensures taken { result.0.taken ≡ seat.taken ++ result.1.items }
{
    let mut taken = Vec::new(alloc);
    for _ in 0..most {
        if taken.reserve(1).is_err() {
            break;
        }
        match ring.take(rt, &mut seat) {
            Some(job) => taken.push_reserved(job),
            None => break,
        }
    }
    (seat, taken)
}

/// Fills a ring, takes up to so many jobs at its one seat, and closes it: what was taken, in order, and what was left.
fn exchange_alone<R: Wait>(
    rt: &R,
    alloc: Global,
    jobs: Vec<u32>,
    most: usize,
) -> Result<(Vec<u32>, Vec<u32>), Fault>
    requires { HaveDistinctNumbers (λ n. n) jobs.items }
    ensures { IfOk result (λ r. IsPermutation jobs.items (r.0.items ++ r.1.items)) }
{
    let Ok((ring, mut seats)) = JobRing::fill(rt, alloc, jobs, 1) else {
        return Err(Fault::OutOfMemory);
    };
    let Some(seat) = seats.pop() else {
        unreachable!()
    };
    let (seat, taken) = take_up_to(rt, alloc, &ring, seat, most);
    seats.push(seat)?;
    let Ok(left) = ring.close(rt, alloc, seats) else {
        return Err(Fault::OutOfMemory);
    };
    Ok((taken, left))
}

/// Takes at each seat in a thread of its own.
fn take_in_threads<R: Threads + Wait + Sync>(
    rt: &R,
    alloc: Global,
    ring: &JobRing<u32>,
    seats: Vec<Seat<u32>>,
    most: usize,
) -> Result<Vec<Part>, AllocError>
    requires { All (IsSeatOf ring.now) seats.items }
    ensures count { IfOk result (λ parts. vec_len parts ≡ vec_len seats) }
    ensures seats { IfOk result (λ parts. All (λ p. IsSeatOf ring.now p.0) parts.items) }
{
    thread::map_vec(
        rt,
        seats,
        &|seat: Seat<u32>| -> Part
            requires { IsSeatOf ring.now seat }
            ensures { IsSeatOf ring.entry.now result.0 }
        { take_up_to(rt, alloc, ring, seat, most) },
    )
}

/// The seats, and behind `taken` the jobs that were taken at them.
fn apart(
    _ring: &JobRing<u32>,
    alloc: Global,
    mut parts: Vec<Part>,
    taken: &mut Vec<u32>,
) -> Result<Vec<Seat<u32>>, AllocError>
    requires { All (λ p. IsSeatOf _ring.now p.0) parts.items }
    ensures count { IfOk result (λ seats. vec_len seats ≡ vec_len parts) }
    ensures seats { IfOk result (λ seats. All (IsSeatOf _ring.now) seats.items) }
{
    let mut seats = Vec::new(alloc);
    while let Some((seat, mut mine)) = parts.pop() {
        taken.append(&mut mine)?;
        seats.push(seat)?;
    }
    Ok(seats)
}

/// Fills a ring, takes up to so many jobs at each of its seats, and closes it: what was taken, in order, and what was left.
fn exchange<R: Threads + Wait + Sync>(
    rt: &R,
    alloc: Global,
    jobs: Vec<u32>,
    seats: usize,
    most: usize,
) -> Result<(Vec<u32>, Vec<u32>), Fault>
    requires seats { (0 < seats) × (seats ≤ 8) }
    requires numbers { HaveDistinctNumbers (λ n. n) jobs.items }
{
    let Ok((ring, seats)) = JobRing::fill(rt, alloc, jobs, seats) else {
        return Err(Fault::OutOfMemory);
    };
    let parts = take_in_threads(rt, alloc, &ring, seats, most)?;
    let mut taken = Vec::new(alloc);
    let seats = apart(&ring, alloc, parts, &mut taken)?;
    let Ok(left) = ring.close(rt, alloc, seats) else {
        return Err(Fault::OutOfMemory);
    };
    taken.sort()?;
    Ok((taken, left))
}

/// Jobs 7, 3 and 9.
fn three(alloc: Global) -> Result<Vec<u32>, AllocError>
    ensures { IfOk result (λ jobs. HaveDistinctNumbers (λ n. n) jobs.items) }
{
    let jobs = vec![in alloc; 7, 3, 9]?;
    Ok(jobs)
}

/// Jobs 0 to 999.
fn thousand(alloc: Global) -> Result<Vec<u32>, AllocError>
    ensures { IfOk result (λ jobs. HaveDistinctNumbers (λ n. n) jobs.items) }
{
    let mut jobs = Vec::new(alloc);
    for number in 0..1_000 {
        jobs.push(number)?;
    }
    Ok(jobs)
}

#[test]
fn three_takes_give_each_job_and_the_fourth_none(rt: HostRuntime) -> Result<(), Fail> {
    let (taken, left) = exchange(&rt, rt.alloc(), three(rt.alloc())?, 1, 4)?;
    assert_eq!(rt; taken.as_slice(), [3, 7, 9].as_slice());
    assert!(rt; left.is_empty());
    Ok(())
}

#[test]
fn after_two_takes_one_job_is_left(rt: HostRuntime) -> Result<(), Fail> {
    let (mut all, left) = exchange(&rt, rt.alloc(), three(rt.alloc())?, 1, 2)?;
    assert_eq!(rt; all.len(), 2);
    assert_eq!(rt; left.len(), 1);
    all.push(left[0])?;
    all.sort()?;
    assert_eq!(rt; all.as_slice(), [3, 7, 9].as_slice());
    assert_eq!(rt; left[0].number(), left[0]);
    Ok(())
}

#[test]
fn one_seat_takes_two_jobs_and_leaves_one(rt: HostRuntime) -> Result<(), Fail> {
    let (mut taken, mut left) = exchange_alone(&rt, rt.alloc(), three(rt.alloc())?, 2)?;
    assert_eq!(rt; taken.len(), 2);
    assert_eq!(rt; left.len(), 1);
    taken.append(&mut left)?;
    taken.sort()?;
    assert_eq!(rt; taken.as_slice(), [3, 7, 9].as_slice());
    Ok(())
}

#[test]
fn eight_threads_take_each_of_a_thousand_jobs_once(rt: HostRuntime) -> Result<(), Fail> {
    let (taken, left) = exchange(&rt, rt.alloc(), thousand(rt.alloc())?, 8, 2_000)?;
    assert_eq!(rt; taken.as_slice(), thousand(rt.alloc())?.as_slice());
    assert!(rt; left.is_empty());
    Ok(())
}
