//! The steps of a run, as they are told on standard error.
ghost use Rattle.std.specs.Prelude.{◌≤◌};

use av_crew::{Done, Gate, Job, Step};
use av_folders::progress::tell_step;
use av_reports::manner::Progress;
use av_sink::Teller;
use std::fmt;

/// How often ticks are told by lines.
const MOST_LINES: u32 = 20;

/// How often they are where one line is written anew.
const MOST_REWRITES: u32 = 200;

/// Whether it is told that so many of a run's ticks are done, where that is told so often at most and at the end.
fn is_told(done: u32, all: u32, most: u32) -> bool
    requires { 1 ≤ most }
{
    done == all || done % all.div_ceil(most).max(1) == 0
}

/// A step, as it is told.
#[derive(Drop)]
struct Told(Step);

impl fmt::Display for Told {
    ghost use Rattle.std.specs.Prelude.{Some};
    ghost use Rattle.av_outcomes.specs.Steps.{step_text};

    ghost output = { λ t. Some (step_text t.0) };

    fn fmt<W: fmt::Write>(&self, f: &mut fmt::Formatter<W>) -> fmt::Result {
        match self.0 {
            Step::Loaded { chunks } => write!(f, "{chunks} chunks loaded"),
            Step::Ticks { done, all } => write!(f, "{done} of {all} ticks run"),
            Step::Light { chunks } => write!(f, "light of {chunks} chunks"),
            Step::Files { files } => write!(f, "making {files} files"),
        }
    }
}

/// Tells of the steps of a run.
#[derive(Drop)]
pub struct StepTeller<'a, R> {
    pub rt: &'a R,
    pub progress: Progress,
}

impl<'a, R: Eprint> StepTeller<'a, R> {
    /// Whether a step is told. That a run has no ticks is none.
    fn tells(&self, step: Step) -> bool {
        match (self.progress, step) {
            (_, Step::Ticks { all: 0, .. }) => false,
            (Progress::Lines, Step::Ticks { done, all }) => is_told(done, all, MOST_LINES),
            (Progress::OneLine, Step::Ticks { done, all }) => is_told(done, all, MOST_REWRITES),
            (_, _) => true,
        }
    }
}

impl<'a, R: Eprint> Gate for StepTeller<'a, R> {
    ghost saw_job = { λ _ _. Unit {0} };

    ghost saw_done = { λ _ _. Unit {0} };

    fn watches(&self) -> bool {
        false
    }

    fn before(&self, _job: &Job) {}

    fn after(&self, _done: &Done) {}

    fn reached(&self, step: Step) {
        if self.tells(step) {
            tell_step(self.rt, self.progress, Told(step));
        }
    }
}

impl<'a, R: Eprint> Teller for StepTeller<'a, R> {
    fn taken(&self, done: usize, all: usize) {
        tell_step(
            self.rt,
            self.progress,
            format_args!("{done} of {all} files written"),
        );
    }
}
