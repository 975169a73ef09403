//! A world as the definitions of a tick see it: its loaded chunks, what stands at each block, and each chunk's entries.
//! With it the tick, the run of ticks, and their laws. Each law is a function that does nothing and ensures it.
#![tactic(auto)]

ghost use Rattle.av_land.specs.Good.{RunKeeps};
ghost use Rattle.av_land.specs.Idle.{TicksIdly, NothingDueBefore, OtherEditsDoNothing, RunByTicks, RunSorted};
ghost use Rattle.av_land.specs.Moved.{TurnMoves, RunMoves, CountMoves};
ghost use Rattle.av_land.specs.Resumed.{RunResumes};

/// A turn does not depend on how states are numbered beyond air and water, nor on the tick: with other numbers, and so
/// many ticks later, it sets the same blocks and makes the same entries, those many ticks later.
pub fn turn_moves()
    ensures { TurnMoves }
{}

/// A run does not depend on how states are numbered, nor on the tick in which it begins.
pub fn run_moves()
    ensures { RunMoves }
{}

/// As many entries leave their lists in a run with other numbers and so many ticks later.
pub fn count_moves()
    ensures { CountMoves }
{}

/// A run keeps what a world needs to be written: numbers that are known, air where nothing is loaded, and entries of
/// loaded blocks, one for a block at most, whose due times fit an Int when the ticks of the run are taken off.
pub fn run_keeps()
    ensures { RunKeeps }
{}

/// A run that is stopped, with all due times and later edits moved to the front, and then resumed leads to the world
/// and the count of one run.
pub fn run_resumes()
    ensures { RunResumes }
{}

/// A tick in which nothing is due, without edits of its own, leaves the world as it is and counts 0.
pub fn idle_tick()
    ensures { TicksIdly }
{}

/// Nothing is due before the soonest: where nothing is due in a tick, nothing is due in an earlier one.
pub fn due_times_rise()
    ensures { NothingDueBefore }
{}

/// Edits of other ticks change nothing in a tick.
pub fn own_edits()
    ensures { OtherEditsDoNothing }
{}

/// Two lists of edits that have the same ones for each tick, in the same order, give the same run.
pub fn run_by_ticks()
    ensures { RunByTicks }
{}

/// Edits sorted stably by tick give the same run.
pub fn run_of_sorted_edits()
    ensures { RunSorted }
{}
