//! New files take their names.
ghost use Rattle.std.specs.Prelude.{◌≡◌, ◌∷◌, [], IfErr, IfOk, OnErr, OnOk, is_none, map, string_bytes};
ghost use Rattle.av_sink.specs.Account.{file_named};
ghost use Rattle.av_exchange.specs.Exchange.{renamed, staged};
ghost use Rattle.av_exchange.specs.Names.{part_of};
ghost use Rattle.av_exchange.specs.Outcomes.{AreCommitted, IsClosed, IsNotCommitted, IsRenamedInPart, IsUnstaged};
ghost use Rattle.av_exchange.specs.Steps.{Removed, Synced, with_steps};

use crate::folder::Folder;
use crate::journal::journal_text;
use crate::marks::{check_staged, mark_lines, taken_away};
use crate::moving::{moves_of, settle_recorded};
use crate::names::{JOURNAL, part_name};
use crate::recording::record;
use std::alloc::{AllocError, Global};
use std::io;

/// Why new files did not take their names.
#[derive(Debug, Drop)]
pub struct NotCommitted {
    /// Whether the journal has its name, so that a repair lets them take their names.
    pub begun: bool,
    pub error: io::Error,
}

/// Writes a new file beside the one of that name, which it is to replace.
///
/// # Errors
/// What the system says, and want of memory. The old file stays. What is left of the new one goes by `unstage`, and that of a region's
/// by a repair too.
pub fn stage<F: Folder>(alloc: Global, folder: &mut F, name: &str, bytes: &[u8]) -> io::Result<()>
    ensures ok { OnOk result (F.history folder.new
        ≡ with_steps (F.history folder.old) (staged (file_named name.now bytes.now) ∷ [])) }
    ensures err { OnErr result (IsUnstaged name.now (F.history folder.old) (F.history folder.new)) }
{
    let part = part_name(alloc, name)?;
    folder.write_new(part.as_str(), bytes, name)?;
    Ok(())
}

/// Takes away what a call that was cut off has left of the new file of that name. No other process may write that file.
///
/// # Errors
/// What the system says, and want of memory: it may still be there.
pub fn unstage<F: Folder>(alloc: Global, folder: &mut F, name: &str) -> io::Result<()>
    ensures ok { OnOk result (F.history folder.new
        ≡ with_steps (F.history folder.old) (Removed (part_of name.now) ∷ [])) }
    ensures err { OnErr result (F.history folder.new ≡ F.history folder.old) }
{
    let part = part_name(alloc, name)?;
    folder.remove(part.as_str())?;
    Ok(())
}

/// Lets one new file that was staged take its name, at once.
///
/// # Errors
/// What the system says, want of memory, and `InvalidData` where the new file is gone: it may stay beside the old one.
pub fn commit_alone<F: Folder>(alloc: Global, folder: &mut F, name: &str) -> io::Result<()>
    ensures ok { OnOk result (F.history folder.new
        ≡ with_steps (F.history folder.old) (renamed name.now ∷ Synced ∷ [])) }
    ensures err { OnErr result (IsRenamedInPart name.now (F.history folder.old)
        (F.history folder.new)) }
{
    let part = part_name(alloc, name)?;
    let there = folder.move_over(part.as_str(), name)?;
    if !there {
        return Err(taken_away(alloc, name));
    }
    folder.sync()?;
    Ok(())
}

/// Takes the journal away, which is the last of an exchange, and answers why its end may not be on the device, where that can't be waited
/// for: all new files have their names there, so that a repair then has nothing to do but to take the journal away.
///
/// # Errors
/// What the system says: the journal stays.
pub fn close<F: Folder>(folder: &mut F) -> io::Result<Option<io::Error>>
    ensures ok { IfOk result (λ unsynced. IsClosed (F.history folder.old) (F.history folder.new)
        (is_none unsynced)) }
    ensures err { OnErr result (F.history folder.new ≡ F.history folder.old) }
{
    folder.remove(JOURNAL)?;
    match folder.sync() {
        Ok(()) => Ok(None),
        Err(error) => Ok(Some(error)),
    }
}

/// Lets new files that were staged take their names, all or none: a journal is written, and once it has its name they are to do so, and
/// do. It stays until `close`, and has the marks of what they replace, by which a repair sees what was written since. When its name is on the
/// device all is looked at again before the first file moves, and each file just before it does.
///
/// # Errors
/// What the system says, want of memory, and `InvalidData` where a new file is gone, as where another program took it away, or where what it
/// is to replace was written meanwhile. Where none has moved then the journal goes again, the old files stay, and a repair takes the new ones
/// away; where one has, or the journal may have its name, a repair lets the others take their names too.
pub fn commit<F: Folder>(
    alloc: Global,
    folder: &mut F,
    names: &[String],
) -> Result<(), NotCommitted>
    ensures ok { OnOk result (AreCommitted (F.mark_of folder.old) (map string_bytes names.now)
        (F.history folder.old) (F.history folder.new)) }
    ensures err { IfErr result (λ e. IsNotCommitted (F.mark_of folder.old) (map string_bytes names.now)
        (F.history folder.old) (F.history folder.new) e.begun) }
{
    let marks = mark_lines(alloc, folder, names)?;
    let moves = moves_of(alloc, names, marks.as_slice())?;
    check_staged(alloc, folder, moves.as_slice())?;
    let text = journal_text(alloc, names, marks.as_slice())?;
    record(alloc, folder, text.as_str())?;
    settle_recorded(alloc, folder, moves.as_slice())?;
    Ok(())
}

impl From<io::Error> for NotCommitted {
    ghost use Rattle.std.specs.Prelude.{false};

    ghost from_gives = { λ _ not. not.begun ≡ false };

    fn from(error: io::Error) -> NotCommitted {
        NotCommitted {
            begun: false,
            error,
        }
    }
}

impl From<AllocError> for NotCommitted {
    ghost use Rattle.std.specs.Prelude.{false};

    ghost from_gives = { λ _ not. not.begun ≡ false };

    fn from(error: AllocError) -> NotCommitted {
        NotCommitted {
            begun: false,
            error: error.into(),
        }
    }
}
