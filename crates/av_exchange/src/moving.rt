//! New files that take their names behind a journal.
ghost use Rattle.std.specs.Prelude.{◌≡◌, ◌∷◌, [], IfErr, IfOk, OnErr, OnOk, Some, is_some, length, map, string_bytes, true};
ghost use Rattle.av_exchange.specs.Exchange.{AreTaken, closing, renamed, repairing};
ghost use Rattle.av_exchange.specs.Names.{part_of};
ghost use Rattle.av_exchange.specs.Outcomes.{HasStopped, IsMovedInPart, IsRenamedInPart, IsSettledInPart, IsUnsettled, IsWithdrawn, name_of};
ghost use Rattle.av_exchange.specs.Steps.{IfTold, Synced, all_of, with_steps};

use crate::exchange::NotCommitted;
use crate::folder::Folder;
use crate::marks::{check_mark, check_waiting, lost, taken_away};
use crate::moves::Move;
use crate::names::JOURNAL;
use av_sink::Teller;
use std::alloc::{AllocError, Global};
use std::io;

/// The new files of these names, with the marks of what has them.
pub(crate) fn moves_of(
    alloc: Global,
    names: &[String],
    marks: &[String],
) -> Result<Vec<Move>, AllocError>
    requires { length marks.now ≡ length names.now }
    ensures { IfOk result (λ moves. map name_of moves.items ≡ map string_bytes names.now) }
{
    let mut moves = Vec::new(alloc);
    for index in 0..names.len() {
        let name = names[index].as_str();
        moves.push(Move::new(alloc, name, marks[index].as_str())?)?;
    }
    Ok(moves)
}

/// Lets a new file take its name, where what has that is as it was marked, and answers whether it waited.
fn move_marked<F: Folder>(alloc: Global, folder: &mut F, file: &Move) -> io::Result<bool>
    ensures ok { OnOk result (F.history folder.new
        ≡ with_steps (F.history folder.old) (renamed (name_of file.now) ∷ [])) }
    ensures there { IfOk result (λ there. IfTold (F.history folder.old)
        (λ h. there ≡ is_some (h (part_of (name_of file.now))))) }
    ensures err { OnErr result (IsRenamedInPart (name_of file.now) (F.history folder.old)
        (F.history folder.new)) }
{
    let name = file.name.as_str();
    let part = file.part.as_str();
    let waits = check_mark(alloc, folder, name, file.mark.as_str())?;
    let there = folder.move_over(part, name)?;
    if there == waits {
        return Ok(there);
    }
    Err(lost(alloc, name))
}

/// Lets a new file take its name, which waits.
fn move_one<F: Folder>(alloc: Global, folder: &mut F, file: &Move) -> io::Result<()>
    ensures ok { OnOk result (F.history folder.new
        ≡ with_steps (F.history folder.old) (renamed (name_of file.now) ∷ [])) }
    ensures there { OnOk result (IfTold (F.history folder.old)
        (λ h. is_some (h (part_of (name_of file.now))) ≡ true)) }
    ensures err { OnErr result (IsRenamedInPart (name_of file.now) (F.history folder.old)
        (F.history folder.new)) }
{
    let there = move_marked(alloc, folder, file)?;
    if there {
        return Ok(());
    }
    Err(taken_away(alloc, file.name.as_str()))
}

/// Lets each new file take its name.
///
/// # Errors
/// What the system says, want of memory, and `InvalidData` where one is gone, or what has its name was written since.
fn move_all<F: Folder>(alloc: Global, folder: &mut F, moves: &[Move]) -> io::Result<()>
    ensures ok { OnOk result (F.history folder.new
        ≡ with_steps (F.history folder.old) (map renamed (map name_of moves.now))) }
    ensures taken { OnOk result (IfTold (F.history folder.old) (AreTaken (map name_of moves.now))) }
    ensures err { OnErr result (IsMovedInPart (map name_of moves.now) (F.history folder.old)
        (F.history folder.new)) }
{
    for file in moves {
        move_one(alloc, folder, file)?;
    }
    Ok(())
}

/// Lets each new file that still waits take its name. One that doesn't has it, as its mark says.
fn move_waiting<F: Folder>(alloc: Global, folder: &mut F, moves: &[Move]) -> io::Result<()>
    ensures ok { OnOk result (F.history folder.new
        ≡ with_steps (F.history folder.old) (map renamed (map name_of moves.now))) }
    ensures err { OnErr result (IsMovedInPart (map name_of moves.now) (F.history folder.old)
        (F.history folder.new)) }
{
    for file in moves {
        move_marked(alloc, folder, file)?;
    }
    Ok(())
}

/// Takes the journal away, and waits until it is gone.
pub(crate) fn drop_journal<F: Folder>(folder: &mut F) -> io::Result<()>
    ensures ok { OnOk result (F.history folder.new
        ≡ with_steps (F.history folder.old) (all_of closing)) }
    ensures err { OnErr result (HasStopped closing (F.history folder.old) (F.history folder.new)) }
{
    folder.remove(JOURNAL)?;
    folder.sync()?;
    Ok(())
}

/// Lets new files take their names, and waits until they have them.
fn settle<F: Folder>(alloc: Global, folder: &mut F, moves: &[Move]) -> io::Result<()>
    ensures ok { OnOk result (F.history folder.new
        ≡ with_steps (F.history folder.old) (all_of (map renamed (map name_of moves.now) ∷ []))) }
    ensures taken { OnOk result (IfTold (F.history folder.old) (AreTaken (map name_of moves.now))) }
    ensures err { OnErr result (IsMovedInPart (map name_of moves.now) (F.history folder.old)
        (F.history folder.new)) }
{
    move_all(alloc, folder, moves)?;
    folder.sync()?;
    Ok(())
}

/// Looks once more before the first file moves, when the journal's name is on the device: all others may have changed meanwhile.
fn look_behind<F: Folder>(alloc: Global, folder: &mut F, moves: &[Move]) -> io::Result<()>
    ensures { F.history folder.new ≡ F.history folder.old }
{
    folder.look_again()?;
    check_waiting(alloc, folder, moves)
}

/// Takes the journal away again, for this cause. Where it may stand the new files wait.
fn withdraw<F: Folder>(folder: &mut F, error: io::Error) -> NotCommitted
    ensures { IsWithdrawn (F.history folder.old) (F.history folder.new) result.begun }
{
    match drop_journal(folder) {
        Ok(()) => NotCommitted {
            begun: false,
            error,
        },
        Err(_) => NotCommitted { begun: true, error },
    }
}

/// Lets new files take their names behind a journal that is on the device. Where one can't, and none has moved, the journal goes again.
pub(crate) fn settle_recorded<F: Folder>(
    alloc: Global,
    folder: &mut F,
    moves: &[Move],
) -> Result<(), NotCommitted>
    ensures ok { OnOk result (F.history folder.new
        ≡ with_steps (F.history folder.old) (all_of (map renamed (map name_of moves.now) ∷ []))) }
    ensures taken { OnOk result (IfTold (F.history folder.old) (AreTaken (map name_of moves.now))) }
    ensures err { IfErr result (λ e. IsUnsettled (map name_of moves.now) (F.history folder.old)
        (F.history folder.new) e.begun) }
{
    if let Err(error) = look_behind(alloc, folder, moves) {
        return Err(withdraw(folder, error));
    }
    match settle(alloc, folder, moves) {
        Ok(()) => Ok(()),
        Err(error) => Err(NotCommitted { begun: true, error }),
    }
}

/// Lets new files that still wait take their names, and waits until all have theirs.
fn settle_waiting<F: Folder>(alloc: Global, folder: &mut F, moves: &[Move]) -> io::Result<()>
    ensures ok { OnOk result (F.history folder.new
        ≡ with_steps (F.history folder.old) (all_of (map renamed (map name_of moves.now) ∷ []))) }
    ensures err { OnErr result (IsMovedInPart (map name_of moves.now) (F.history folder.old)
        (F.history folder.new)) }
{
    move_waiting(alloc, folder, moves)?;
    folder.sync()?;
    Ok(())
}

/// Lets new files that were left take their names once the journal's name is on the device.
fn settle_left<F: Folder>(alloc: Global, folder: &mut F, moves: &[Move]) -> io::Result<()>
    ensures ok { OnOk result (F.history folder.new
        ≡ with_steps (F.history folder.old) (Synced ∷ all_of
        (map renamed (map name_of moves.now) ∷ []))) }
    ensures err { OnErr result (IsSettledInPart (map name_of moves.now) (F.history folder.old)
        (F.history folder.new)) }
{
    folder.sync()?;
    settle_waiting(alloc, folder, moves)?;
    Ok(())
}

/// Does what the journal says, by the new files that it lists, tells it, and takes the journal away. The journal's name may not be on the
/// device yet.
pub(crate) fn finish<F: Folder, T: Teller>(
    alloc: Global,
    folder: &mut F,
    moves: &[Move],
    teller: &T,
) -> io::Result<()>
    ensures ok { OnOk result (F.history folder.new ≡ with_steps (F.history folder.old)
        (all_of (repairing (Some (map name_of moves.now)) []))) }
    ensures err { OnErr result (HasStopped (repairing (Some (map name_of moves.now)) [])
        (F.history folder.old) (F.history folder.new)) }
{
    settle_left(alloc, folder, moves)?;
    teller.finished(moves.len());
    drop_journal(folder)?;
    Ok(())
}
