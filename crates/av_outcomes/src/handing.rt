//! Files of a run, handed to a folder.
ghost use Rattle.std.specs.Prelude.{◌≡◌, IfErr, OnErr, OnOk, map};
ghost use Rattle.av_sink.specs.Account.{with_files, with_commit};
ghost use Rattle.av_sink.specs.Saving.{named_file};
ghost use Rattle.av_folders.specs.Folders.{IsFolderFault};
ghost use Rattle.av_outcomes.specs.Handing.{IsHandedOver, IsNotHandedOver, IsNotTaken};

use crate::steps::StepTeller;
use av_answers::Ran;
use av_region_files::RegionFile;
use av_reports::manner::Progress;
use av_sink::{OutputFolder, save_all};
use av_types::Fault;
use std::alloc::Global;

/// Lets the files that a folder has taken take their names there.
///
/// Refuses with `Device` and the folder's name where they can't.
fn commit<S: OutputFolder>(alloc: Global, folder: &str, sink: &mut S) -> Result<(), Fault>
    ensures ok { OnOk result (S.account sink.new ≡ with_commit (S.account sink.old)) }
    ensures err { OnErr result (S.account sink.new ≡ S.account sink.old) }
    ensures named { IfErr result (IsFolderFault folder.now) }
{
    match sink.commit() {
        Ok(()) => Ok(()),
        Err(_) => Err(Fault::Device(String::from_str(alloc, folder)?)),
    }
}

/// Hands files to a folder that has taken none yet and has not failed, where they take their names.
fn hand_over<R: Eprint + AllocGlobal, S: OutputFolder>(
    rt: &R,
    folder: &str,
    files: &[RegionFile],
    sink: &mut S,
    progress: Progress,
) -> Result<(), Fault>
    requires failures { (S.account sink.old).failures ≡ 0 }
    requires handed { (S.account sink.old).handed ≡ 0 }
    ensures ok { OnOk result (S.account sink.new ≡ with_commit
        (with_files (S.account sink.old) (map named_file files.now))) }
    ensures err { IfErr result (IsNotTaken folder.now (S.account sink.old) (S.account sink.new)
        (map named_file files.now)) }
{
    let teller = StepTeller { rt, progress };
    save_all(rt.alloc(), sink, files, &teller)?;
    commit(rt.alloc(), folder, sink)?;
    Ok(())
}

/// Hands the files of a run over, where it has some.
pub fn hand_over_run<R: Eprint + AllocGlobal, S: OutputFolder>(
    rt: &R,
    folder: &str,
    ran: &Ran,
    sink: &mut S,
    progress: Progress,
) -> Result<(), Fault>
    requires failures { (S.account sink.old).failures ≡ 0 }
    requires handed { (S.account sink.old).handed ≡ 0 }
    ensures ok { OnOk result (IsHandedOver ran.now (S.account sink.old) (S.account sink.new)) }
    ensures err { IfErr result (IsNotHandedOver folder.now ran.now (S.account sink.old)
        (S.account sink.new)) }
{
    match ran {
        Ran::Done { outcome, .. } => {
            hand_over(rt, folder, outcome.files.as_slice(), sink, progress)
        }
        Ran::Uncovered(_) => Ok(()),
    }
}
