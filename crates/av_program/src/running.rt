//! The command `run`: edits, water and light over the region files of a folder.
ghost use Rattle.std.specs.Prelude.{◌≡◌};
ghost use Rattle.av_requests.specs.Requests.{IsReadBy};
ghost use Rattle.av_program.specs.RunCommand.{HasRunInto, HasRunOver, IsRunOf};

use av_folders::LockFiles;
use av_folders::failing::failure_of_file;
use av_folders::progress::note_step;
use av_outcomes::{StepTeller, changes_asked, hand_over_run, note_changes};
use av_reports::failure::Failure;
use av_reports::manner::Manner;
use av_requests::{Inputs, Request, failure_of_run, read_inputs};
use av_run::{Ran, run_checked};
use av_sink::OutputFolder;
use av_types::Fault;
use std::io::{Input, Write};
use std::rt::Files;
use std::sync::Wait;
use std::thread::Threads;

/// Runs what was read.
pub(crate) fn run_inputs<R: Files + Input + Eprint + AllocGlobal + Threads + Wait + Sync, E: Write>(
    rt: &R,
    inputs: Inputs,
    request: Request<'_>,
    manner: Manner,
    err: &mut E,
) -> Result<Ran, Fault>
    requires { IsReadBy request inputs }
    ensures { IsRunOf request.entry inputs result }
{
    note_step(err, manner.progress, "running");
    run_checked(
        rt,
        rt.alloc(),
        inputs.files,
        inputs.table.as_slice(),
        inputs.edits.as_slice(),
        request.ticks,
        request.workers,
        request.strict,
        &StepTeller {
            rt,
            progress: manner.progress,
        },
    )
}

/// Runs what was read, and hands the files to a sink that has taken none yet and has not failed.
fn run_into<
    R: Files + Input + Eprint + AllocGlobal + Threads + Wait + Sync,
    S: OutputFolder,
    E: Write,
>(
    rt: &R,
    inputs: Inputs,
    request: Request<'_>,
    sink: &mut S,
    manner: Manner,
    err: &mut E,
) -> Result<Ran, Fault>
    requires read { IsReadBy request inputs }
    requires failures { (S.account sink.old).failures ≡ 0 }
    requires handed { (S.account sink.old).handed ≡ 0 }
    ensures { HasRunInto request.entry inputs (S.account sink.old) (S.account sink.new) result }
{
    let ran = run_inputs(rt, inputs, request, manner, err)?;
    let changes = changes_asked(rt, request.output, &ran, manner.progress);
    hand_over_run(rt, request.output, &ran, sink, manner.progress)?;
    note_changes(changes, manner.progress, err);
    Ok(ran)
}

/// The failure of a run with a fault: what a folder knows of a file that failed, or what else can be found.
fn failure_after<R: LockFiles + Input + Eprint + AllocGlobal + Clone + Drop, S: OutputFolder>(
    rt: &R,
    request: Request<'_>,
    fault: Fault,
    sink: &mut S,
    explains: bool,
) -> Failure
    ensures fault { result.fault ≡ fault }
    ensures same { S.account sink.new ≡ S.account sink.old }
{
    match sink.last_failed() {
        Some(failed) => failure_of_file(fault, failed),
        None => failure_of_run(rt, request, fault, explains),
    }
}

/// Reads what is asked for, runs it, and hands the files to a sink that has taken none yet and has not failed.
pub(crate) fn run_over<
    R: LockFiles + Input + Eprint + AllocGlobal + Clone + Drop + Threads + Wait + Sync,
    S: OutputFolder,
    E: Write,
>(rt: &R, request: Request<'_>, sink: &mut S, manner: Manner, err: &mut E) -> Result<Ran, Failure>
    requires failures { (S.account sink.old).failures ≡ 0 }
    requires handed { (S.account sink.old).handed ≡ 0 }
    ensures { HasRunOver request.entry (S.account sink.old) (S.account sink.new) result }
{
    let inputs = read_inputs(rt, request, manner, err)?;
    match run_into(rt, inputs, request, sink, manner, err) {
        Ok(ran) => Ok(ran),
        Err(fault) => Err(failure_after(rt, request, fault, sink, manner.explains)),
    }
}
