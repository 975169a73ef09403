//! What is told of each job before and after its work, and of the steps of a run.
ghost use Rattle.av_crew.specs.declared.jobs.Job.{Job};
ghost use Rattle.av_crew.specs.declared.jobs.Done.{Done};

use crate::jobs::{Done, Job};

/// A step of a run, as a gate is told of it.
#[derive(Clone, Copy, Debug, PartialEq, Eq)]
pub enum Step {
    /// The files' chunks were read; so many are loaded.
    Loaded { chunks: u64 },
    /// So many of the run's ticks are done.
    Ticks { done: u32, all: u32 },
    /// The light of so many chunks is computed next.
    Light { chunks: u64 },
    /// So many files are made next.
    Files { files: u64 },
}

/// Is told of each job before and after its work, by the thread that works it off. It may hold that thread up.
pub trait Gate {
    /// In clauses: `before` was called with this job.
    ghost saw_job: { Self → Job → Type 0 };

    /// In clauses: `after` was called with this answer.
    ghost saw_done: { Self → Done → Type 0 };

    /// Whether it has to be told of all jobs. If not, entries may be turned without jobs, of which it is told nothing.
    fn watches(&self) -> bool {
        true
    }

    /// Before the first turn of a job.
    fn before(&self, job: &Job)
        ensures { saw_job self.now job.now };

    /// After its last turn.
    fn after(&self, done: &Done)
        ensures { saw_done self.now done.now };

    /// Is told of a step of a run, by the calling thread.
    fn reached(&self, _step: Step) {}
}

/// A gate that does nothing.
pub struct NoGate;

impl Gate for NoGate {
    ghost saw_job = { λ _ _. Unit {0} };

    ghost saw_done = { λ _ _. Unit {0} };

    fn watches(&self) -> bool {
        false
    }

    fn before(&self, _job: &Job) {}

    fn after(&self, _done: &Done) {}
}
