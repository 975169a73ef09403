//! What a run would change, where it is only asked for that.
ghost use Rattle.std.specs.Prelude.{◌≤◌, IfOk};
ghost use Rattle.av_program.specs.DryRun.{HasRunDry, IsForeseen};

use crate::running::run_inputs;
use av_folders::progress::{end_steps, note_step};
use av_folders::{LockFiles, tidy};
use av_outcomes::{Foreseen, changes_of, tell};
use av_reports::failure::Failure;
use av_reports::manner::Manner;
use av_reports::output::REFUSED;
use av_reports::reasons::report_failure;
use av_requests::{Request, failure_of_run, look_for, read_inputs};
use std::io::{Input, Write};
use std::sync::Wait;
use std::thread::Threads;

/// Reads what is asked for, runs it, and looks what would change in a folder.
fn foresee<
    R: LockFiles + Input + Eprint + AllocGlobal + Clone + Drop + Threads + Wait + Sync,
    E: Write,
>(
    rt: &R,
    request: Request<'_>,
    folder: &str,
    manner: Manner,
    err: &mut E,
) -> Result<Foreseen, Failure>
    ensures { IfOk result (IsForeseen request.entry) }
{
    look_for(rt, folder)?;
    tidy(rt, folder, folder, err)?;
    let inputs = read_inputs(rt, request, manner, err)?;
    let ran = match run_inputs(rt, inputs, request, manner, err) {
        Ok(ran) => ran,
        Err(fault) => return Err(failure_of_run(rt, request, fault, manner.explains)),
    };
    note_step(err, manner.progress, "comparing");
    let changes = changes_of(rt, folder, &ran)?;
    Ok(Foreseen { ran, changes })
}

/// Writes a line for each file of a folder that a run would change, in the order of their names, and `chunks C turns T`; nothing else is
/// written. The answer is the program's status, as that of a run.
pub(crate) fn run_dry<
    R: LockFiles + Input + Eprint + AllocGlobal + Clone + Drop + Threads + Wait + Sync,
    O: Write,
    E: Write,
>(rt: &R, request: Request<'_>, folder: &str, manner: Manner, out: &mut O, err: &mut E) -> u8
    ensures status { result ≤ REFUSED }
    ensures ran { HasRunDry request.entry (O.contents out.old) (O.contents out.new) result }
{
    let foreseen = foresee(rt, request, folder, manner, err);
    end_steps(err, manner.progress);
    match foreseen {
        Ok(foreseen) => tell(rt.alloc(), foreseen, manner.explains, out, err),
        Err(failure) => report_failure(rt.alloc(), err, &failure, manner.explains),
    }
}
