//! The folder of a run: what is said of it when it is found, and when it is left.
ghost use Rattle.std.specs.Prelude.{◌≡◌};
ghost use Rattle.av_outcomes.specs.Closing.{IsLeft, goes_on};

use av_folders::failing::failure_of_folder;
use av_folders::note_removed;
use av_reports::manner::Manner;
use av_reports::output::FAULT;
use av_reports::reasons::report_failure;
use av_requests::Request;
use av_sink::{FailedFile, OutputFolder, Repair};
use std::alloc::Global;
use std::io::Write;

/// Says why a folder failed, as well as that can be written, and answers the status.
pub fn report_folder<S: OutputFolder, E: Write>(
    alloc: Global,
    folder: &str,
    sink: &mut S,
    manner: Manner,
    err: &mut E,
) -> u8
    ensures status { result ≡ FAULT }
    ensures same { S.account sink.new ≡ S.account sink.old }
{
    let failed = sink.last_failed();
    let failure = failure_of_folder(alloc, folder, failed);
    report_failure(alloc, err, &failure, manner.explains)
}

/// Says what failed behind a run that is done, where something did, as well as that can be written.
fn note_unsynced<E: Write>(folder: &str, failed: Option<FailedFile>, err: &mut E) {
    if let Some(failed) = failed {
        let error = failed.error;
        let _ = writeln!(
            err,
            "{folder}: the run is done; after a power cut the next command may finish it once more: {error}"
        );
    }
}

/// Notes that all is told of a run, and answers its status, unless that can't be noted. Of a run that failed it notes nothing: where its
/// files have their names and that could not be told, the next command tells it, and no tick is run twice.
pub fn close<S: OutputFolder, E: Write>(
    alloc: Global,
    folder: &str,
    status: u8,
    sink: &mut S,
    manner: Manner,
    err: &mut E,
) -> u8
    ensures { IsLeft (S.account sink.old) (S.account sink.new) status result }
{
    if status != 0 {
        return status;
    }
    match sink.close() {
        Ok(()) => {
            note_unsynced(folder, sink.last_failed(), err);
            0
        }
        Err(_) => report_folder(alloc, folder, sink, manner, err),
    }
}

/// Whether a run goes on, by what was found in its folder.
pub fn goes_on(again: bool, repaired: Repair) -> bool
    ensures { result ≡ goes_on again repaired }
{
    again || repaired.finished.is_none()
}

/// Says what was found in the folder of a run, as well as that can be written.
pub fn note_repair<E: Write>(request: Request<'_>, repaired: Repair, err: &mut E) {
    note_removed(err, request.output, repaired);
    if !goes_on(request.again, repaired) {
        let _ = writeln!(
            err,
            "  nothing else is done, so that no tick is run twice: --again runs it anew"
        );
    }
}
