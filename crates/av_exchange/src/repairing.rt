//! What an exchange that was cut off has left.
ghost use Rattle.std.specs.Prelude.{◌≡◌, IfOk, OnErr, OnOk, map, string_bytes};
ghost use Rattle.std.specs.List.{AllByRecursion};
ghost use Rattle.av_exchange.specs.Exchange.{sweeping};
ghost use Rattle.av_exchange.specs.Marks.{IsUnwritten};
ghost use Rattle.av_exchange.specs.Names.{IsBeside};
ghost use Rattle.av_exchange.specs.Outcomes.{AreAllBeside, HasStopped, HoldsNoneBeside, IsFinished, IsRepaired, IsSwept, IsSweepStopped, IsUnrepaired};
ghost use Rattle.av_exchange.specs.Steps.{IfTold, Removed, with_steps};

use crate::folder::Folder;
use crate::journal::read_journal;
use crate::marks::check_marks;
use crate::moving::{finish, moves_of};
use crate::names::{JOURNAL, is_beside};
use av_sink::{Repair, Teller};
use std::alloc::{AllocError, Global};
use std::io::{self, ErrorKind};

/// Does what a journal says, where there is one, nothing that it lists was written since, and no new file is lost.
fn finish_left<F: Folder, T: Teller>(
    alloc: Global,
    folder: &mut F,
    teller: &T,
) -> io::Result<Option<usize>>
    ensures ok { IfOk result (IsFinished (F.history folder.old) (F.history folder.new)) }
    ensures unwritten { OnOk result (IfTold (F.history folder.old)
        (IsUnwritten (F.mark_of folder.old))) }
    ensures err { OnErr result (IsUnrepaired (F.history folder.old) (F.history folder.new)) }
{
    let Some(text) = folder.read_text(alloc, JOURNAL)? else {
        return Ok(None);
    };
    let Some(journal) = read_journal(alloc, text.as_str())? else {
        return Err(io::Error::new(ErrorKind::InvalidData, "it is no journal of this program"));
    };
    check_marks(alloc, folder, &journal)?;
    let moves = moves_of(alloc, journal.names.as_slice(), journal.marks.as_slice())?;
    finish(alloc, folder, moves.as_slice(), teller)?;
    Ok(Some(moves.len()))
}

/// The names among these that are an exchange's, other than the journal's.
fn those_beside(alloc: Global, names: Vec<String>) -> Result<Vec<String>, AllocError>
    ensures beside { IfOk result (λ beside. AllByRecursion IsBeside
        (map string_bytes beside.items)) }
    ensures all { IfOk result (λ beside. AreAllBeside (map string_bytes names.items)
        (map string_bytes beside.items)) }
{
    let mut beside = Vec::new(alloc);
    for name in names {
        if is_beside(alloc, name.as_str())? {
            beside.push(name)?;
        }
    }
    Ok(beside)
}

/// Takes files away.
fn remove_all<F: Folder>(folder: &mut F, names: &[String]) -> io::Result<()>
    ensures ok { OnOk result (F.history folder.new
        ≡ with_steps (F.history folder.old) (map Removed (map string_bytes names.now))) }
    ensures err { OnErr result (HasStopped (sweeping (map string_bytes names.now))
        (F.history folder.old) (F.history folder.new)) }
{
    for name in names {
        folder.remove(name.as_str())?;
    }
    Ok(())
}

/// Takes the files of an exchange away that have no names to take, where there is no journal, and answers how many. None is left.
///
/// # Errors
/// What the system says, and want of memory: some may be left.
pub fn sweep<F: Folder>(alloc: Global, folder: &mut F) -> io::Result<usize>
    ensures ok { IfOk result (IsSwept (F.history folder.old) (F.history folder.new)) }
    ensures gone { OnOk result (IfTold (F.history folder.new) HoldsNoneBeside) }
    ensures err { OnErr result (IsSweepStopped (F.history folder.old) (F.history folder.new)) }
{
    let names = folder.names(alloc)?;
    let beside = those_beside(alloc, names)?;
    if beside.is_empty() {
        return Ok(0);
    }
    remove_all(folder, beside.as_slice())?;
    folder.sync()?;
    Ok(beside.len())
}

/// Finishes an exchange of a folder that was cut off behind the moment from which on its files were to take their names, and takes away
/// what is left of one that was cut off before. That one was finished is told before its journal goes. No other process may work on the
/// folder.
///
/// # Errors
/// What the system says, want of memory, and `InvalidData` where the journal is of another form, or where what it lists was written since, as
/// by the game, while its new file waits, or is what it was without a new file, which is lost then: then nothing is done.
pub fn repair<F: Folder, T: Teller>(alloc: Global, folder: &mut F, teller: &T) -> io::Result<Repair>
    ensures ok { IfOk result (IsRepaired (F.history folder.old) (F.history folder.new)) }
    ensures gone { OnOk result (IfTold (F.history folder.new) HoldsNoneBeside) }
    ensures unwritten { OnOk result (IfTold (F.history folder.old)
        (IsUnwritten (F.mark_of folder.old))) }
    ensures err { OnErr result (IsUnrepaired (F.history folder.old) (F.history folder.new)) }
{
    let finished = finish_left(alloc, folder, teller)?;
    let removed = sweep(alloc, folder)?;
    Ok(Repair { finished, removed })
}
