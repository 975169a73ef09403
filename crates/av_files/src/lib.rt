//! What region files say of a world, and the laws of that: the world and the rest that files denote, the first fault of
//! an input, the files that a world is written as, and a run over them. Each function is a law, which its contract
//! states; it does nothing when it is called.
#![tactic(auto)]

ghost use Rattle.av_files.specs.FirstFault.{OneFirstFault};
ghost use Rattle.av_files.specs.Laws.{DenoteOne, LayoutDenotes};
ghost use Rattle.av_files.specs.Resumption.{FilesResume};
ghost use Rattle.av_files.specs.Run.{OneRun, RunContinues};

/// Files denote one world at most, and one rest.
pub fn denote_one()
    ensures { DenoteOne }
{}

/// An input has one first fault at most, and none where it is accepted.
pub fn one_first_fault()
    ensures { OneFirstFault }
{}

/// The files that a world and a rest are written as after some ticks denote that world, each entry due so many ticks
/// sooner, and the same rest.
pub fn layout_denotes()
    ensures { LayoutDenotes }
{}

/// A world, edits and a number of ticks lead to one world, whatever table gives the numbers of states.
pub fn one_run()
    ensures { OneRun }
{}

/// A run that is stopped and resumed leads to the world of one run.
pub fn run_continues()
    ensures { RunContinues }
{}

/// Ticks on the files that were written after earlier ones give, byte for byte, the files of all these ticks in one run.
pub fn files_resume()
    ensures { FilesResume }
{}
