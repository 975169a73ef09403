//! The ring and its seats.
ghost use Rattle.std.specs.Prelude.{◌≡◌, ◌≢◌, ◌+◌, ◌-◌, ◌<◌, ◌≤◌, ◌++◌, ◌||◌, [], ◌∷◌, length, true, false, All, IfOk, IfErr, IfSome, IfNone, None, vec_len, vec_capacity, map};
ghost use Rattle.std.specs.List.{AllByRecursion, flat_map, list_any};
ghost use Rattle.std.specs.List.Sorted.{IsPermutation};
ghost use Rattle.crossbeam_queue.specs.Passes.{view as known, IsPassOf, ruled_capacity};
ghost use Rattle.av_types.specs.declared.fault.Fault.TheVariants.{OutOfMemory};
ghost use Rattle.av_ring.specs.Numbers.{HaveDistinctNumbers};
ghost use Rattle.av_ring.specs.Ring.{view_of, filler, put, IsPart};
ghost use Rattle.av_ring.specs.Shown.{RingShown, SeatShown, ring_shown, seat_shown, seat_view, IsSeatOf};

use crate::numbered::Numbered;
use crate::view::{Hands, Law, Puts, Takes, View};
use av_types::Fault;
use crossbeam_queue::{Pass, RuledArrayQueue};
use std::alloc::Global;
use std::marker::Model;
use std::sync::Wait;

type Queue<J> = RuledArrayQueue<Option<J>, View<J>, Law>;

/// Jobs that wait for the workers at the ring's seats. The threads share it by `&`.
#[derive(Drop)]
pub struct JobRing<J: Numbered> {
    queue: Queue<J>,
    jobs: usize,
    seats: usize,
}

impl<J: Numbered> Model for JobRing<J> {
    ghost Value = { RingShown };

    ghost view = { λ r. ring_shown r.queue.table.shared.table_id r.jobs r.seats };

    ghost invariant = { λ r. 0 < r.seats };
}

/// The right of one worker to take jobs of one ring. In proofs it knows which jobs were filled and which were taken here.
#[derive(Drop)]
pub struct Seat<J: Numbered> {
    pass: Pass<Option<J>, View<J>>,
    dry: bool,
}

impl<J: Numbered> Model for Seat<J> {
    ghost Value = { SeatShown J };

    ghost view = { λ s. seat_shown s.pass.table_id (known s.pass).all (known s.pass).told (known s.pass).taken s.dry };

    ghost invariant = { λ s. (s.pass.me.1 ≡ []) × (known s.pass ≡ seat_view (known s.pass).all (known s.pass).told (known s.pass).taken s.dry)
        × HaveDistinctNumbers J.number_of (known s.pass).told };
}

impl<J: Numbered + Drop + Send> JobRing<J> {
    /// A ring of these jobs, and so many seats of it, 1 to 8.
    ///
    /// # Errors
    /// `OutOfMemory`, with the jobs as they were given.
    pub fn fill<R: Wait>(
        rt: &R,
        alloc: Global,
        jobs: Vec<J>,
        seats: usize,
    ) -> Result<(JobRing<J>, Vec<Seat<J>>), (Fault, Vec<J>)>
        requires seats { (0 < seats) × (seats ≤ 8) }
        requires numbers { HaveDistinctNumbers J.number_of jobs.items }
        ensures ring { IfOk result (λ r. (r.0.jobs ≡ vec_len jobs) × (r.0.seats ≡ seats)) }
        ensures seats { IfOk result (λ r. (vec_len r.1 ≡ seats)
            × All (λ s. s ≡ seat_shown r.0.ring seats jobs.items [] false) r.1.items) }
        ensures of_ring { IfOk result (λ r. All (IsSeatOf r.0) r.1.items) }
        ensures err { IfErr result (λ e. (e.0 ≡ OutOfMemory) × (e.1.items ≡ jobs.items)) }
    {
        let count = jobs.len();
        let Ok(handed) = Vec::with_capacity(alloc, seats) else {
            return Err((Fault::OutOfMemory, jobs));
        };
        let Some(room) = count.checked_add(seats) else {
            return Err((Fault::OutOfMemory, jobs));
        };
        let Ok((queue, mut pass)) = Queue::ruled(alloc, room) else {
            return Err((Fault::OutOfMemory, jobs));
        };
        put_jobs(rt, &queue, &mut pass, jobs);
        put_ends(rt, &queue, &mut pass, seats);
        let handed = hand_out(&queue, pass, seats, handed);
        let ring = JobRing {
            queue,
            jobs: count,
            seats,
        };
        Ok((ring, handed))
    }

    /// Ends the ring, whose seats have all come back, and hands out the jobs that are left. Those and what was taken at
    /// all seats are together the jobs that were filled, which each seat tells, each once. Where a seat is dry, nothing is left.
    ///
    /// # Errors
    /// `OutOfMemory`, with the ring and the seats as they were given.
    pub fn close<R: Wait>(
        self,
        rt: &R,
        alloc: Global,
        mut seats: Vec<Seat<J>>,
    ) -> Result<Vec<J>, (Fault, JobRing<J>, Vec<Seat<J>>)>
        requires all { vec_len seats ≡ self.seats }
        requires seats { All (IsSeatOf self) seats.items }
        ensures whole { IfOk result (λ left. All (λ s.
            IsPermutation s.jobs (flat_map (λ r. r.taken) seats.items ++ left.items)) seats.items) }
        ensures dry { IfOk result (λ left. list_any (λ s. s.dry) seats.items ≡ true
            → left.items ≡ []) }
        ensures err { IfErr result (λ e. (e.0 ≡ OutOfMemory) × (e.1 ≡ self) × (e.2 ≡ seats)) }
    {
        let Ok(left) = Vec::with_capacity(alloc, self.jobs) else {
            return Err((Fault::OutOfMemory, self, seats));
        };
        let Some(first) = seats.pop() else {
            unreachable!()
        };
        let JobRing {
            queue,
            jobs: _,
            seats: _,
        } = self;
        let Seat { mut pass, dry: _ } = first;
        take_back(&queue, &mut pass, seats);
        Ok(drain(rt, &queue, &mut pass, left))
    }

    /// A job that was filled, of a number that was not taken here before. None where no job is left in the ring: the
    /// seat is dry from then on, and in no other way. Takes no memory.
    pub fn take<R: Wait>(&self, rt: &R, seat: &mut Seat<J>) -> Option<J>
        requires { seat.old.ring ≡ self.now.ring }
        ensures ring { seat.new.ring ≡ seat.old.ring }
        ensures jobs { (seat.new.jobs ≡ seat.old.jobs) × (seat.new.seats ≡ seat.old.seats) }
        ensures some { IfSome result (λ x. (seat.new.taken ≡ seat.old.taken ++ x ∷ [])
            × IsPart seat.old.jobs seat.new.taken × (seat.old.dry ≡ false)
            × (seat.new.dry ≡ false)) }
        // no job taken here before has its number
        ensures fresh { IfSome result (λ x. All (λ y. J.number_of y ≢ J.number_of x)
            seat.old.taken) }
        ensures none { IfNone result ((seat.new.taken ≡ seat.old.taken) × (seat.new.dry ≡ true)) }
    {
        if seat.dry {
            return None;
        }
        match self.queue.pop_as::<Takes, R>(rt, &mut seat.pass) {
            Some(Some(job)) => Some(job),
            Some(None) => {
                seat.dry = true;
                None
            }
            None => unreachable!(),
        }
    }
}

/// Fills the ring with jobs, through the pass that has every part of the right to it.
fn put_jobs<J: Numbered + Drop + Send, R: Wait>(
    rt: &R,
    queue: &Queue<J>,
    pass: &mut Pass<Option<J>, View<J>>,
    jobs: Vec<J>,
)
    requires pass { IsPassOf queue.now pass.old × (known pass.old ≡ filler) }
    requires room { vec_len jobs < ruled_capacity queue.now }
    ensures { IsPassOf queue.now pass.new × (known pass.new ≡ view_of 1 0 1 jobs.items [] false) }
{
    for job in jobs {
        match queue.push_as::<Puts, R>(rt, pass, Some(job)) {
            Ok(()) => {}
            Err(_) => unreachable!(),
        }
    }
}

/// Puts an end marker for each seat behind the jobs. A seat that pops one is dry.
fn put_ends<J: Numbered + Drop + Send, R: Wait>(
    rt: &R,
    queue: &Queue<J>,
    pass: &mut Pass<Option<J>, View<J>>,
    seats: usize,
)
    requires pass { IsPassOf queue.now pass.old × (known pass.old
        ≡ view_of 1 0 1 (known pass.old).told [] false) }
    requires room { (0 < seats) × (length (known pass.old).told + seats
        ≤ ruled_capacity queue.now) }
    ensures { IsPassOf queue.now pass.new × (known pass.new
        ≡ view_of seats seats seats (known pass.old).told [] false) }
{
    put_end(rt, queue, pass);
    for _ in 1..seats {
        put_end(rt, queue, pass);
    }
}

/// Puts one end marker.
fn put_end<J: Numbered + Drop + Send, R: Wait>(
    rt: &R,
    queue: &Queue<J>,
    pass: &mut Pass<Option<J>, View<J>>,
)
    requires pass { IsPassOf queue.now pass.old }
    requires parts { (0 < (known pass.old).parts) ×
        ((known pass.old).parts ≡ (known pass.old).all) }
    requires room { ((known pass.old).taken ≡ []) ×
        (length (known pass.old).told + (known pass.old).ends < ruled_capacity queue.now) }
    ensures { IsPassOf queue.now pass.new × (known pass.new ≡ put (known pass.old) None) }
{
    match queue.push_as::<Puts, R>(rt, pass, None) {
        Ok(()) => {}
        Err(_) => unreachable!(),
    }
}

/// Cuts the pass into those of the seats.
fn hand_out<J: Numbered + Drop + Send>(
    queue: &Queue<J>,
    mut pass: Pass<Option<J>, View<J>>,
    seats: usize,
    mut handed: Vec<Seat<J>>,
) -> Vec<Seat<J>>
    requires seats { 0 < seats }
    requires pass { IsPassOf queue.now pass × (known pass
        ≡ view_of seats seats seats (known pass).told [] false) }
    requires numbers { HaveDistinctNumbers J.number_of (known pass).told }
    requires room { (handed.items ≡ []) × (seats ≤ vec_capacity handed) }
    ensures { (vec_len result ≡ seats) × All (λ s. s
        ≡ seat_shown queue.now.table.shared.table_id seats (known pass).told [] false)
        result.items }
{
    for _ in 0..seats - 1 {
        let seat = Seat {
            pass: queue.another::<Hands>(&mut pass),
            dry: false,
        };
        handed.push_reserved(seat);
    }
    handed.push_reserved(Seat { pass, dry: false });
    handed
}

/// Joins the passes of these seats to a pass.
fn take_back<J: Numbered + Drop + Send>(
    queue: &Queue<J>,
    pass: &mut Pass<Option<J>, View<J>>,
    seats: Vec<Seat<J>>,
)
    requires pass { IsPassOf queue.now pass.old × (0 < (known pass.old).parts) }
    requires seats { All (λ s. s.ring ≡ queue.now.table.shared.table_id) seats.items }
    ensures pass { IsPassOf queue.now pass.new }
    ensures parts { (known pass.new).parts ≡ (known pass.old).parts + vec_len seats }
    ensures told { ((known pass.new).told ≡ (known pass.old).told)
        × ((known pass.new).all ≡ (known pass.old).all) }
    ensures taken { (known pass.new).taken ≡ (known pass.old).taken
        ++ flat_map (λ s. s.taken) seats.items }
    ensures heard { (known pass.new).heard ≡ (known pass.old).heard
        ++ map (λ s. s.jobs) seats.items }
    ensures dry { (known pass.new).dry ≡ ((known pass.old).dry
        || list_any (λ s. s.dry) seats.items) }
{
    for seat in seats {
        let Seat {
            pass: theirs,
            dry: _,
        } = seat;
        queue.absorb::<Hands>(pass, theirs);
    }
}

/// Takes out all that the ring holds, which no seat can do any more, and passes over the end markers.
fn drain<J: Numbered + Drop + Send, R: Wait>(
    rt: &R,
    queue: &Queue<J>,
    pass: &mut Pass<Option<J>, View<J>>,
    mut left: Vec<J>,
) -> Vec<J>
    requires pass { IsPassOf queue.now pass.old }
    requires parts { (0 < (known pass.old).parts) ×
        ((known pass.old).parts ≡ (known pass.old).all) }
    requires room { (left.items ≡ []) × (length (known pass.old).told ≤ vec_capacity left) }
    ensures whole { IsPermutation (known pass.old).told ((known pass.old).taken ++ result.items) }
    ensures heard { AllByRecursion (λ t. t ≡ (known pass.old).told) (known pass.old).heard }
    ensures dry { (known pass.old).dry ≡ true → result.items ≡ [] }
{
    for _ in rt.forever() {
        match queue.pop_as::<Takes, R>(rt, pass) {
            Some(Some(job)) => left.push_reserved(job),
            Some(None) => {}
            None => return left,
        }
    }
    unreachable!()
}
