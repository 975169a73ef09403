//! Gates that hold jobs up until others have come as far, or count what they are told of.
use av_cells::Cells;
use av_crew::{Done, Gate, Job, Step};
use av_types::Pos;
use std::sync::atomic::Ordering::SeqCst;
use std::sync::atomic::{AtomicU64, AtomicUsize};

/// After so many turns of its loop a gate gives up.
const TURNS: u32 = 50_000_000;

/// Waits until a counter has come to `wanted`. If that takes too long, `gave_up` counts one more.
fn wait_for(counter: &AtomicU64, wanted: u64, gave_up: &AtomicU64) {
    for _ in 0..TURNS {
        if wanted <= counter.load(SeqCst) {
            return;
        }
    }
    gave_up.fetch_add(1, SeqCst);
}

/// Lets no job go on before so many have come.
#[derive(Drop)]
pub struct Meeting {
    jobs: u64,
    come: AtomicU64,
    gave_up: AtomicU64,
}

impl Meeting {
    pub fn of(jobs: u64) -> Meeting {
        Meeting {
            jobs,
            come: AtomicU64::new(0),
            gave_up: AtomicU64::new(0),
        }
    }

    /// How many jobs came, and how often it gave up.
    pub fn counts(&self) -> (u64, u64) {
        (self.come.load(SeqCst), self.gave_up.load(SeqCst))
    }
}

impl Gate for Meeting {
    ghost saw_job = { λ _ _. Unit {0} };

    ghost saw_done = { λ _ _. Unit {0} };

    fn before(&self, _job: &Job) {
        self.come.fetch_add(1, SeqCst);
        wait_for(&self.come, self.jobs, &self.gave_up);
    }

    fn after(&self, _done: &Done) {}
}

/// Holds one job until so many others are done.
#[derive(Drop)]
pub struct Holding {
    job: u32,
    others: u64,
    done: AtomicU64,
    gave_up: AtomicU64,
}

impl Holding {
    pub fn of(job: u32, others: u64) -> Holding {
        Holding {
            job,
            others,
            done: AtomicU64::new(0),
            gave_up: AtomicU64::new(0),
        }
    }

    /// How many others were done, and how often it gave up.
    pub fn counts(&self) -> (u64, u64) {
        (self.done.load(SeqCst), self.gave_up.load(SeqCst))
    }
}

impl Gate for Holding {
    ghost saw_job = { λ _ _. Unit {0} };

    ghost saw_done = { λ _ _. Unit {0} };

    fn before(&self, job: &Job) {
        if job.number == self.job {
            wait_for(&self.done, self.others, &self.gave_up);
        }
    }

    fn after(&self, done: &Done) {
        if done.number != self.job {
            self.done.fetch_add(1, SeqCst);
        }
    }
}

/// How many blocks of water there are at y 64 in the chunks (0, 0) and (1, 0).
fn wet_in<C: Cells>(cells: &C) -> u64 {
    let mut wet = 0u64;
    for z in 0..16 {
        for x in 0..32 {
            wet = wet.wrapping_add(u64::from(is_wet(cells, Pos { x, y: 64, z })));
        }
    }
    wet
}

/// Whether a block is loaded and water.
fn is_wet<C: Cells>(cells: &C, pos: Pos) -> bool {
    if !cells.loaded(pos) {
        return false;
    }
    let number = cells.number(pos);
    1 <= number && number <= 9
}

/// Holds one of two jobs, whose water has not spread, until the other one's has.
#[derive(Drop)]
pub struct Watching {
    job: u32,
    dry: AtomicU64,
    spread: AtomicU64,
    gave_up: AtomicU64,
}

impl Watching {
    pub fn of(job: u32) -> Watching {
        Watching {
            job,
            dry: AtomicU64::new(0),
            spread: AtomicU64::new(0),
            gave_up: AtomicU64::new(0),
        }
    }

    /// How often the held job had one block of water, how often the other one had five, and how often it gave up.
    pub fn counts(&self) -> (u64, u64, u64) {
        (
            self.dry.load(SeqCst),
            self.spread.load(SeqCst),
            self.gave_up.load(SeqCst),
        )
    }
}

impl Gate for Watching {
    ghost saw_job = { λ _ _. Unit {0} };

    ghost saw_done = { λ _ _. Unit {0} };

    fn before(&self, job: &Job) {
        if job.number == self.job {
            self.dry
                .fetch_add(u64::from(wet_in(&job.parcel) == 1), SeqCst);
            wait_for(&self.spread, 1, &self.gave_up);
        }
    }

    fn after(&self, done: &Done) {
        if done.number != self.job {
            self.spread
                .fetch_add(u64::from(wet_in(&done.parcel) == 5), SeqCst);
        }
    }
}

/// Counts the jobs that it is told of, whether it has to be told or not.
#[derive(Drop)]
pub struct Counting {
    watching: bool,
    told: AtomicU64,
}

impl Counting {
    pub fn of(watching: bool) -> Counting {
        Counting {
            watching,
            told: AtomicU64::new(0),
        }
    }

    /// How many jobs it was told of.
    pub fn count(&self) -> u64 {
        self.told.load(SeqCst)
    }
}

impl Gate for Counting {
    ghost saw_job = { λ _ _. Unit {0} };

    ghost saw_done = { λ _ _. Unit {0} };

    fn watches(&self) -> bool {
        self.watching
    }

    fn before(&self, _job: &Job) {
        self.told.fetch_add(1, SeqCst);
    }

    fn after(&self, _done: &Done) {}
}

/// Wants to be told of these steps, in this order, and counts the others.
#[derive(Drop)]
pub struct Expecting<'a> {
    steps: &'a [Step],
    told: AtomicUsize,
    others: AtomicUsize,
}

impl<'a> Expecting<'a> {
    pub fn of(steps: &'a [Step]) -> Expecting<'a> {
        Expecting {
            steps,
            told: AtomicUsize::new(0),
            others: AtomicUsize::new(0),
        }
    }

    /// How many steps it was told of, and how many of them were others than those wanted.
    pub fn counts(&self) -> (usize, usize) {
        (self.told.load(SeqCst), self.others.load(SeqCst))
    }
}

impl<'a> Gate for Expecting<'a> {
    ghost saw_job = { λ _ _. Unit {0} };

    ghost saw_done = { λ _ _. Unit {0} };

    fn watches(&self) -> bool {
        false
    }

    fn before(&self, _job: &Job) {}

    fn after(&self, _done: &Done) {}

    fn reached(&self, step: Step) {
        let order = self.told.fetch_add(1, SeqCst);
        if self.steps.get(order) != Some(&step) {
            self.others.fetch_add(1, SeqCst);
        }
    }
}
