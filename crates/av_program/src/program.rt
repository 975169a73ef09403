//! The program's way from its words to its status.
ghost use Rattle.std.specs.Prelude.{◌≡◌, ◌≤◌, map};
ghost use Rattle.std.specs.List.{All};
ghost use Rattle.av_requests.specs.Skipping.{IsSkipped};
ghost use Rattle.av_program.specs.RunCommand.{HasRunRegions};
ghost use Rattle.av_program.specs.Running.{HasRunBy, HasRunCommand, HasRunInFolder, HasRunOpened, HasRunProgram, HasRunWords};
ghost use Rattle.av_sink.specs.Account.{IsFresh};

use crate::dry_run::run_dry;
use crate::running::run_over;
use av_folders::progress::end_steps;
use av_folders::{LockFiles, RepairTeller, hold_output};
use av_outcomes::{close, goes_on, note_repair, report, report_folder};
use av_queries::{MapRequest, run_block, run_check, run_map, run_states};
use av_reports::manner::Manner;
use av_reports::output::{REFUSED, report_fault};
use av_reports::reasons::report_failure;
use av_requests::{
    Request, as_texts, explain_words, given_words, judge_skips, refuse_twice, report_skip,
    request_of,
};
use av_sink::OutputFolder;
use av_types::Fault;
use av_words::{RunWords, Words, words};
use std::io::{self, Input, Write};
use std::rt::Env;
use std::sync::Wait;
use std::thread::Threads;

/// Runs `run`, and hands its files to a folder that has taken none yet and has not failed.
fn run_regions<
    R: LockFiles + Input + Eprint + AllocGlobal + Clone + Drop + Threads + Wait + Sync,
    S: OutputFolder,
    O: Write,
    E: Write,
>(rt: &R, request: Request<'_>, sink: &mut S, manner: Manner, out: &mut O, err: &mut E) -> u8
    requires failures { (S.account sink.old).failures ≡ 0 }
    requires handed { (S.account sink.old).handed ≡ 0 }
    ensures status { result ≤ REFUSED }
    ensures ran { HasRunRegions request.entry (S.account sink.old) (S.account sink.new)
        (O.contents out.old) (O.contents out.new) result }
{
    let ran = run_over(rt, request, sink, manner, err);
    end_steps(err, manner.progress);
    report(rt.alloc(), &ran, manner.explains, out, err)
}

/// Runs `run` in its folder, which was opened.
fn run_opened<
    R: LockFiles + Input + Eprint + AllocGlobal + Clone + Drop + Threads + Wait + Sync,
    S: OutputFolder,
    O: Write,
    E: Write,
>(rt: &R, request: Request<'_>, sink: &mut S, manner: Manner, out: &mut O, err: &mut E) -> u8
    requires failures { (S.account sink.old).failures ≡ 0 }
    requires handed { (S.account sink.old).handed ≡ 0 }
    ensures status { result ≤ REFUSED }
    ensures ran { HasRunOpened request.entry (S.account sink.old) (S.account sink.new)
        (O.contents out.old) (O.contents out.new) result }
{
    let teller = RepairTeller {
        rt,
        folder: request.output,
    };
    let repaired = match sink.repair(&teller) {
        Ok(repaired) => repaired,
        Err(_) => return report_folder(rt.alloc(), request.output, sink, manner, err),
    };
    note_repair(request, repaired, err);
    if !goes_on(request.again, repaired) {
        return 0;
    }
    let status = run_regions(rt, request, sink, manner, out, err);
    close(rt.alloc(), request.output, status, sink, manner, err)
}

/// Runs `run`, and hands its files to its folder, which is held and looked at before anything is read.
fn run_in_folder<
    R: LockFiles + Input + Eprint + AllocGlobal + Clone + Drop + Threads + Wait + Sync,
    S: OutputFolder,
    O: Write,
    E: Write,
>(rt: &R, request: Request<'_>, sink: &mut S, manner: Manner, out: &mut O, err: &mut E) -> u8
    requires fresh { IsFresh (S.account sink.old) }
    ensures status { result ≤ REFUSED }
    ensures ran { HasRunInFolder request.entry (S.account sink.old) (S.account sink.new)
        (O.contents out.old) (O.contents out.new) result }
{
    let _held = match hold_output(rt, request.output, request.in_use) {
        Ok(held) => held,
        Err(failure) => return report_failure(rt.alloc(), err, &failure, manner.explains),
    };
    match sink.open(request.output, request.in_use) {
        Ok(()) => run_opened(rt, request, sink, manner, out, err),
        Err(_) => report_fault(err, &Fault::OutOfMemory),
    }
}

/// Runs `run`, or says what it would change where that alone is asked for.
fn run_asked<
    R: LockFiles + Input + Eprint + AllocGlobal + Clone + Drop + Threads + Wait + Sync,
    S: OutputFolder,
    O: Write,
    E: Write,
>(rt: &R, words: &RunWords<'_>, sink: &mut S, manner: Manner, out: &mut O, err: &mut E) -> u8
    requires fresh { IsFresh (S.account sink.old) }
    requires skipped { All (λ n. IsSkipped n.now) words.now.skip.items }
    ensures status { result ≤ REFUSED }
    ensures ran { HasRunBy words.now (S.account sink.old) (S.account sink.new) (O.contents out.old)
        (O.contents out.new) result }
{
    let request = request_of(rt, words);
    if words.dry_run {
        return run_dry(rt, request, words.output, manner, out, err);
    }
    run_in_folder(rt, request, sink, manner, out, err)
}

/// The same. A file that is to be skipped and isn't there is refused before anything is read.
fn run_run<
    R: LockFiles + Input + Eprint + AllocGlobal + Clone + Drop + Threads + Wait + Sync,
    S: OutputFolder,
    O: Write,
    E: Write,
>(rt: &R, words: &RunWords<'_>, sink: &mut S, manner: Manner, out: &mut O, err: &mut E) -> u8
    requires fresh { IsFresh (S.account sink.old) }
    ensures status { result ≤ REFUSED }
    ensures ran { HasRunBy words.now (S.account sink.old) (S.account sink.new) (O.contents out.old)
        (O.contents out.new) result }
{
    match judge_skips(rt, words.input, words.skip.as_slice()) {
        Ok(()) => run_asked(rt, words, sink, manner, out, err),
        Err(refusal) => report_skip(err, &refusal),
    }
}

/// Runs a command. Where standard error is a terminal, it says how far long work is, and why it failed.
fn run_command<
    R: LockFiles + Input + Eprint + AllocGlobal + Clone + Drop + Threads + Wait + Sync,
    S: OutputFolder,
    O: Write,
    E: Write,
>(rt: &R, is_terminal: bool, command: Words<'_>, sink: &mut S, out: &mut O, err: &mut E) -> u8
    requires fresh { IsFresh (S.account sink.old) }
    ensures status { result ≤ REFUSED }
    ensures ran { HasRunCommand command.entry (S.account sink.old) (S.account sink.new)
        (O.contents out.old) (O.contents out.new) result }
{
    let manner = Manner::new(
        is_terminal,
        command.wants_progress(),
        command.wants_reasons(),
    );
    match command {
        Words::Block {
            file,
            pos,
            table,
            ..
        } => run_block(rt, file, pos, table, manner, out, err),
        Words::Check { input, table, .. } => run_check(rt, input, table, manner, out, err),
        Words::Run(run) => run_run(rt, &run, sink, manner, out, err),
        Words::Map {
            input,
            picture,
            table,
            colours,
            light,
            ..
        } => {
            let request = MapRequest {
                input,
                picture,
                table,
                colours,
                light,
            };
            run_map(rt, request, sink, manner, err)
        }
        Words::States { input, table, .. } => run_states(rt, input, table, manner, out, err),
    }
}

/// Runs the command that the words name.
fn run_words<
    R: LockFiles + Input + Eprint + AllocGlobal + Clone + Drop + Threads + Wait + Sync,
    S: OutputFolder,
    O: Write,
    E: Write,
>(rt: &R, is_terminal: bool, given: &[&str], sink: &mut S, out: &mut O, err: &mut E) -> u8
    requires fresh { IsFresh (S.account sink.old) }
    ensures status { result ≤ REFUSED }
    ensures ran { HasRunWords (map (λ s. s.now) given.now) (S.account sink.old) (S.account sink.new)
        (O.contents out.old) (O.contents out.new) result }
{
    match words(rt.alloc(), given) {
        Ok(command) => {
            if command.asks_twice() {
                return refuse_twice(err);
            }
            run_command(rt, is_terminal, command, sink, out, err)
        }
        Err(error) => explain_words(out, err, &error),
    }
}

/// Reads the words that the program was called with and does what they say. Where standard error is a terminal, long work
/// says there how far it is. The region files of `run` go to the folder that its words name, and
/// the picture of `map` to that of its path, which the sink opens; it has opened none. Each other command leaves it as it is. The
/// answer is the program's status: 0, also where the version is asked for; 1 after a fault, where `check` found something, and
/// where `states` left chunks out; 2 after words that are refused or call for help.
pub fn run<
    R: Env + LockFiles + Input + Eprint + AllocGlobal + Clone + Drop + Threads + Wait + Sync,
    S: OutputFolder,
    O: Write,
    E: Write,
>(rt: &R, is_terminal: bool, sink: &mut S, out: &mut O, err: &mut E) -> u8
    requires fresh { IsFresh (S.account sink.old) }
    ensures status { result ≤ REFUSED }
    ensures ran { HasRunProgram (S.account sink.old) (S.account sink.new) (O.contents out.old)
        (O.contents out.new) result }
{
    let given = match given_words(rt) {
        Ok(given) => given,
        Err(error) if error.kind() == io::ErrorKind::OutOfMemory => return report_fault(
            err,
            &Fault::OutOfMemory,
        ),
        Err(_) => {
            let _ = writeln!(err, "error: the words are no text in UTF-8");
            return REFUSED;
        }
    };
    match as_texts(rt.alloc(), given.as_slice()) {
        Ok(given) => run_words(rt, is_terminal, given.as_slice(), sink, out, err),
        Err(_) => report_fault(err, &Fault::OutOfMemory),
    }
}
