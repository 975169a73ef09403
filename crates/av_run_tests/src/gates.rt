//! Gates of runs: one that holds a job, and one that is told of the steps.
use crate::given::{Given, flat, one_region, run_gated, table_with};
use av_crew::{Done, Gate, Job, Step};
use av_image_tests::flat::flat_region;
use std::alloc::Global;
use std::sync::Wait;
use std::sync::atomic::Ordering::SeqCst;
use std::sync::atomic::{AtomicU64, AtomicUsize};
use std::test::Fail;
use std::thread::Threads;

/// After so many turns of its loop the gate gives up.
const TURNS: u32 = 50_000_000;

/// Sources in two chunks, which are parts of their own.
const EDITS: &str = "1 8 64 8 minecraft:water[level=0]\n1 24 64 8 minecraft:water[level=0]";

/// Counts the jobs that it is told of, whether it has to be told or not, and holds job 0 until so many others are done.
#[derive(Drop)]
pub struct Holding {
    watching: bool,
    others: u64,
    told: AtomicU64,
    done: AtomicU64,
    gave_up: AtomicU64,
}

impl Holding {
    pub fn of(watching: bool, others: u64) -> Holding {
        Holding {
            watching,
            others,
            told: AtomicU64::new(0),
            done: AtomicU64::new(0),
            gave_up: AtomicU64::new(0),
        }
    }

    /// How many jobs it was told of, and how often it gave up.
    pub fn counts(&self) -> (u64, u64) {
        (self.told.load(SeqCst), self.gave_up.load(SeqCst))
    }

    /// Waits until the others are done.
    fn wait(&self) {
        for _ in 0..TURNS {
            if self.others <= self.done.load(SeqCst) {
                return;
            }
        }
        self.gave_up.fetch_add(1, SeqCst);
    }
}

impl Gate for Holding {
    ghost saw_job = { λ _ _. Unit {0} };

    ghost saw_done = { λ _ _. Unit {0} };

    fn watches(&self) -> bool {
        self.watching
    }

    fn before(&self, job: &Job) {
        self.told.fetch_add(1, SeqCst);
        if job.number == 0 {
            self.wait();
        }
    }

    fn after(&self, done: &Done) {
        if done.number != 0 {
            self.done.fetch_add(1, SeqCst);
        }
    }
}

/// Wants to be told of these steps, in this order, and counts the others.
#[derive(Drop)]
struct Expecting<'a> {
    steps: &'a [Step],
    told: AtomicUsize,
    others: AtomicUsize,
}

impl<'a> Expecting<'a> {
    fn of(steps: &'a [Step]) -> Expecting<'a> {
        Expecting {
            steps,
            told: AtomicUsize::new(0),
            others: AtomicUsize::new(0),
        }
    }

    /// How many steps it was told of, and how many of them were others than those wanted.
    fn counts(&self) -> (usize, usize) {
        (self.told.load(SeqCst), self.others.load(SeqCst))
    }
}

impl<'a> Gate for Expecting<'a> {
    ghost saw_job = { λ _ _. Unit {0} };

    ghost saw_done = { λ _ _. Unit {0} };

    fn watches(&self) -> bool {
        false
    }

    fn before(&self, _job: &Job) {}

    fn after(&self, _done: &Done) {}

    fn reached(&self, step: Step) {
        let order = self.told.fetch_add(1, SeqCst);
        if self.steps.get(order) != Some(&step) {
            self.others.fetch_add(1, SeqCst);
        }
    }
}

/// Six ticks of two flat chunks with so many workers tell the gate of their steps.
fn run_six<G: Gate + Sync>(
    rt: &(impl Threads + Wait + Sync),
    alloc: Global,
    workers: u32,
    gate: &G,
) -> Result<(), Fail> {
    let table = table_with(alloc, "version = 1")?;
    let given = Given {
        table: table.as_slice(),
        edits: EDITS,
        ticks: 6,
        workers,
    };
    let files = one_region(alloc, flat_region(alloc, flat(&[], &[]), 2)?)?;
    run_gated(rt, alloc, files, given, gate)?;
    Ok(())
}

/// Two chunks are read, sources are set in tick 1 and turned in tick 6, and then the light and the one file are made.
#[test]
fn a_run_tells_of_its_steps(rt: HostRuntime) -> Result<(), Fail> {
    let steps = [
        Step::Loaded { chunks: 2 },
        Step::Ticks { done: 1, all: 6 },
        Step::Ticks { done: 6, all: 6 },
        Step::Light { chunks: 2 },
        Step::Files { files: 1 },
    ];
    for workers in [1, 2] {
        let gate = Expecting::of(&steps);
        run_six(&rt, rt.alloc(), workers, &gate)?;
        assert_eq!(rt; gate.counts(), (5, 0));
    }
    Ok(())
}
