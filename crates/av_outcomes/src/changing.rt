//! What the files of a run change in a folder.
ghost use Rattle.std.specs.Prelude.{IfOk, IfSome};
ghost use Rattle.av_changes.specs.Changes.{AreChangesByName};
ghost use Rattle.av_outcomes.specs.Telling.{outcome_files};

use av_answers::Ran;
use av_changes::{CHANGED, Change, by_name, write_changes};
use av_folders::progress::end_steps;
use av_reports::failure::Failure;
use av_reports::manner::Progress;
use av_requests::changes_in;
use std::io::Write;
use std::rt::Files;

/// What a run would change in a folder, in the order of the files' names.
pub fn changes_of<R: Files + AllocGlobal>(
    rt: &R,
    folder: &str,
    ran: &Ran,
) -> Result<Vec<Change>, Failure>
    ensures { IfOk result (λ changes. AreChangesByName (outcome_files ran.now) changes.items) }
{
    match ran {
        Ran::Done { outcome, .. } => {
            let changes = changes_in(rt, folder, outcome.files.as_slice())?;
            Ok(by_name(changes)?)
        }
        Ran::Uncovered(_) => Ok(Vec::new(rt.alloc())),
    }
}

/// What the files of a run change in the folder that they go to, where it is asked how far it is, and where that can be told.
pub fn changes_asked<R: Files + AllocGlobal>(
    rt: &R,
    folder: &str,
    ran: &Ran,
    progress: Progress,
) -> Option<Vec<Change>>
    ensures { IfSome result (λ changes. AreChangesByName (outcome_files ran.now) changes.items) }
{
    if progress == Progress::Silent {
        return None;
    }
    changes_of(rt, folder, ran).ok()
}

/// Says what files have changed, as well as that can be written.
pub fn note_changes<E: Write>(changes: Option<Vec<Change>>, progress: Progress, err: &mut E) {
    if let Some(changes) = changes {
        end_steps(err, progress);
        let _ = write_changes(err, changes.as_slice(), CHANGED);
    }
}
