//! The words that the program was called with, and what is said where they name no command.
ghost use Rattle.std.specs.Prelude.{◌≡◌, ◌≤◌, IfOk, map, string_bytes};
ghost use Rattle.clap.specs.Words.{kind_of};
ghost use Rattle.av_requests.specs.Refusals.{IsRefusalStatus};

use av_reports::output::{FAULT, REFUSED, report_fault, report_output};
use av_types::Fault;
use clap::Error;
use clap::error::ErrorKind;
use std::alloc::{AllocError, Global};
use std::env;
use std::io::{self, Write};
use std::rt::Env;

/// The words that the program was called with, without its own name. One that is no text in UTF-8 is an error.
pub fn given_words<R: Env + AllocGlobal>(rt: &R) -> io::Result<Vec<String>> {
    let arguments = env::args(rt)?;
    Ok(arguments.skip(1).collect(rt.alloc())?)
}

/// The texts of words, in their order.
pub fn as_texts(alloc: Global, words: &[String]) -> Result<Vec<&str>, AllocError>
    ensures { IfOk result (λ texts. map (λ text. text.now) texts.items
        ≡ map string_bytes words.now) }
{
    let mut texts = Vec::with_capacity(alloc, words.len())?;
    for word in words {
        texts.push(word.as_str())?;
    }
    Ok(texts)
}

/// Writes the version that was asked for, and answers the status.
fn tell_version<O: Write, E: Write>(out: &mut O, err: &mut E, error: &Error) -> u8
    ensures { result ≤ FAULT }
{
    match write!(out, "{error}") {
        Ok(()) => 0,
        Err(error) => report_output(err, &error),
    }
}

/// Writes why words were refused, or the help or the version that was called for, and answers the status.
pub fn explain_words<O: Write, E: Write>(out: &mut O, err: &mut E, error: &Error) -> u8
    ensures { IsRefusalStatus (kind_of error.now) result }
{
    match error.kind() {
        ErrorKind::OutOfMemory => return report_fault(err, &Fault::OutOfMemory),
        ErrorKind::DisplayVersion => return tell_version(out, err, error),
        _ => {}
    }
    let _ = if error.use_stderr() {
        write!(err, "{error}")
    } else {
        write!(out, "{error}")
    };
    REFUSED
}

/// Says that standard input can't be read twice, and answers the status.
pub fn refuse_twice<E: Write>(err: &mut E) -> u8
    ensures { result ≡ REFUSED }
{
    let _ = writeln!(
        err,
        "error: - is standard input, which can be read once, and two files are -"
    );
    REFUSED
}
