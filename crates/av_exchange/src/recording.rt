//! The journal is written, and gets its name.
ghost use Rattle.std.specs.Prelude.{◌≡◌, ◌∷◌, [], IfErr, None, OnErr, OnOk, false};
ghost use Rattle.av_exchange.specs.Exchange.{recording};
ghost use Rattle.av_exchange.specs.Names.{journal_name, new_journal_name};
ghost use Rattle.av_exchange.specs.Outcomes.{IsBesideAlone, IsUnnamed, IsUnrecorded};
ghost use Rattle.av_exchange.specs.Steps.{IfTold, Moved, Synced, Written, all_of, with_steps};

use crate::exchange::NotCommitted;
use crate::folder::Folder;
use crate::marks::GONE;
use crate::names::{JOURNAL, NEW_JOURNAL};
use std::alloc::Global;
use std::io::{self, ErrorKind};

/// Whether there may be a journal.
fn may_stand<F: Folder>(alloc: Global, folder: &F) -> bool
    ensures { result ≡ false → IfTold (F.history folder.now) (λ h. h journal_name ≡ None) }
{
    match folder.mark(alloc, JOURNAL) {
        Ok(None) => false,
        _ => true,
    }
}

/// The error of a journal's name that was not given.
fn unnamed<F: Folder>(alloc: Global, folder: &F, error: io::Error) -> NotCommitted
    ensures { result.begun ≡ false → IfTold (F.history folder.now) (λ h. h journal_name ≡ None) }
{
    NotCommitted {
        begun: may_stand(alloc, folder),
        error,
    }
}

/// Gives the journal its name. Where that fails it is looked whether it has it.
fn name_journal<F: Folder>(alloc: Global, folder: &mut F) -> Result<(), NotCommitted>
    ensures ok { OnOk result (F.history folder.new ≡ with_steps (F.history folder.old)
        (Moved new_journal_name journal_name ∷ [])) }
    ensures err { IfErr result (λ e. IsUnnamed (F.history folder.old) (F.history folder.new)
        e.begun) }
{
    match folder.move_over(NEW_JOURNAL, JOURNAL) {
        Ok(true) => Ok(()),
        Ok(false) => {
            let error = io::Error::new(ErrorKind::InvalidData, GONE);
            Err(unnamed(alloc, folder, error))
        }
        Err(error) => Err(unnamed(alloc, folder, error)),
    }
}

/// Writes the journal.
fn write_journal<F: Folder>(folder: &mut F, text: &str) -> io::Result<()>
    ensures ok { OnOk result (F.history folder.new ≡ with_steps (F.history folder.old)
        (Written new_journal_name text.now ∷ Synced ∷ [])) }
    ensures err { OnErr result (IsBesideAlone (F.history folder.old) (F.history folder.new)) }
{
    folder.write_new(NEW_JOURNAL, text.as_bytes(), JOURNAL)?;
    folder.sync()?;
    Ok(())
}

/// Gives the journal its name, and waits until it has it.
fn name_synced<F: Folder>(alloc: Global, folder: &mut F) -> Result<(), NotCommitted>
    ensures ok { OnOk result (F.history folder.new ≡ with_steps (F.history folder.old)
        (Moved new_journal_name journal_name ∷ Synced ∷ [])) }
    ensures err { IfErr result (λ e. IsUnnamed (F.history folder.old) (F.history folder.new)
        e.begun) }
{
    name_journal(alloc, folder)?;
    match folder.sync() {
        Ok(()) => Ok(()),
        Err(error) => Err(NotCommitted { begun: true, error }),
    }
}

/// Writes the journal, gives it its name, and waits until it has it.
pub(crate) fn record<F: Folder>(
    alloc: Global,
    folder: &mut F,
    text: &str,
) -> Result<(), NotCommitted>
    ensures ok { OnOk result (F.history folder.new
        ≡ with_steps (F.history folder.old) (all_of (recording text.now))) }
    ensures err { IfErr result (λ e. IsUnrecorded text.now (F.history folder.old)
        (F.history folder.new) e.begun) }
{
    if let Err(error) = write_journal(folder, text) {
        return Err(NotCommitted {
            begun: false,
            error,
        });
    }
    name_synced(alloc, folder)?;
    Ok(())
}
