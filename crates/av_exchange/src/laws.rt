//! What a folder stands for, whenever an exchange or a repair of it is cut off. Each function is a law, which its contract states; it does
//! nothing when it is called.
ghost use Rattle.av_exchange.specs.Exchange.{BesideKeeps, GivenUpLeavesOld, GivenUpLeavesOldOrNew, LeavesNew, LeavesOldOrNew, RepairHolds, RepairKeeps};
ghost use Rattle.av_exchange.specs.Marks.{LeavesUnwritten, RepairLeavesUnwritten};

/// New files that are only written, or taken away, change nothing of what a folder stands for.
pub fn steps_beside_change_nothing()
    ensures { BesideKeeps }
{}

/// A crash at any moment of an exchange leaves a folder that stands for the old files, or for all new ones.
pub fn a_crash_leaves_old_or_new()
    ensures { LeavesOldOrNew }
{}

/// An exchange that came to its end leaves the new files.
pub fn an_exchange_leaves_new()
    ensures { LeavesNew }
{}

/// A crash while an exchange is given up whose journal has its name leaves a folder that stands for the old files, or for all new ones.
pub fn a_crash_of_one_given_up_leaves_old_or_new()
    ensures { GivenUpLeavesOldOrNew }
{}

/// An exchange that was given up leaves the old files.
pub fn one_given_up_leaves_old()
    ensures { GivenUpLeavesOld }
{}

/// A crash at any moment of a repair leaves a folder that stands for the same files.
pub fn a_repair_may_be_cut_off()
    ensures { RepairKeeps }
{}

/// A repair that came to its end leaves a folder without a journal that holds the files for which it stood.
pub fn a_repair_holds()
    ensures { RepairHolds }
{}

/// A crash at any moment of an exchange leaves nothing for which a repair refuses, while nobody else writes, and no new file has the mark of what
/// it is to replace.
pub fn a_crash_leaves_what_can_be_repaired()
    ensures { LeavesUnwritten }
{}

/// So does a crash at any moment of a repair, which can be done again.
pub fn a_repair_can_be_done_again()
    ensures { RepairLeavesUnwritten }
{}
