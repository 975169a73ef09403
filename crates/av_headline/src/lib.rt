//! The laws of what a run of the whole program answers. Each function is a law, which its contract states; it does nothing
//! when it is called.
#![tactic(auto)]

ghost use Rattle.av_headline.specs.Answers.{OneAnswer, OneRefusal, AnswerOrRefusal};
ghost use Rattle.av_headline.specs.Resumed.{RunsResume};

/// An input has one answer at most, byte for byte, whatever the number of workers.
pub fn one_answer()
    ensures { OneAnswer }
{}

/// An input is refused for one cause at most, want of memory aside.
pub fn one_refusal()
    ensures { OneRefusal }
{}

/// An input that has an answer is refused for no cause but want of memory.
pub fn answer_or_refusal()
    ensures { AnswerOrRefusal }
{}

/// A run that is stopped, and resumed on the files that were written, gives the files of one run, byte for byte, and as
/// many turns in all.
pub fn runs_resume()
    ensures { RunsResume }
{}
