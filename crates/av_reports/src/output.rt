//! What the program prints.
ghost use Rattle.std.specs.Prelude.{◌≡◌, OnErr, OnOk};
ghost use Rattle.std.specs.Io.{WritesAtMost};
ghost use Rattle.std.specs.Io.KnownBytes.{Appends, WriteAppends};
ghost use Rattle.av_types.specs.Faults.{fault_text};
ghost use Rattle.av_reports.specs.Output.{HasBegun, advice, fault_lines, is_compression, left_out_text, line, packed_advice};

use av_types::Fault;
use std::io::{self, ErrorKind, Write};

/// The status after a fault.
pub const FAULT: u8 = 1;

/// The status after words that are refused, and after a call for help.
pub const REFUSED: u8 = 2;

/// How many times a write is tried that a signal interrupts.
const TRIES: u32 = 64;

/// One write, tried again where a signal interrupts it.
fn write_some<O: Write>(out: &mut O, bytes: &[u8]) -> io::Result<usize>
    ensures bound { WritesAtMost result bytes.now }
    ensures bytes { WriteAppends (O.contents out.old) (O.contents out.new) result bytes.now }
{
    for _ in 0..TRIES {
        match out.write(bytes) {
            Ok(written) => return Ok(written),
            Err(error) if error.kind() == ErrorKind::Interrupted => {}
            Err(error) => return Err(error),
        }
    }
    Err(ErrorKind::Interrupted.into())
}

/// Writes bytes, and nothing behind a write that is refused: what was written until then are the first of them.
pub fn write_first<O: Write>(out: &mut O, bytes: &[u8]) -> io::Result<()>
    ensures ok { OnOk result (Appends (O.contents out.old) (O.contents out.new) bytes.now) }
    ensures err { OnErr result (HasBegun (O.contents out.old) (O.contents out.new) bytes.now) }
{
    let mut rest = bytes;
    while !rest.is_empty() {
        let written = write_some(out, rest)?;
        if written == 0 {
            return Err(ErrorKind::WriteZero.into());
        }
        rest = &rest[written..];
    }
    Ok(())
}

/// Whether a fault is that of a chunk of another compression.
pub fn is_compression(fault: &Fault) -> bool
    ensures { result ≡ is_compression fault.now }
{
    matches!(fault, Fault::Compression(_))
}

/// Writes how files of other compressions are made readable.
pub fn write_packed_advice<E: Write>(err: &mut E) -> io::Result<()>
    ensures { OnOk result (Appends (E.contents err.old) (E.contents err.new) packed_advice) }
{
    writeln!(
        err,
        "  scripts/worlds.py plain IN OUT makes such files readable; anvilwater-world WORLD does the whole way"
    )
}

/// Writes how to go on after a fault, where its line does not say it.
fn write_advice<E: Write>(err: &mut E, fault: &Fault) -> io::Result<()>
    ensures { OnOk result (Appends (E.contents err.old) (E.contents err.new) (advice fault.now)) }
{
    if is_compression(fault) {
        return write_packed_advice(err);
    }
    Ok(())
}

/// Writes a fault's line.
fn write_line<E: Write>(err: &mut E, fault: &Fault) -> io::Result<()>
    ensures { OnOk result (Appends (E.contents err.old) (E.contents err.new)
        (line (fault_text fault.now))) }
{
    writeln!(err, "{fault}")
}

/// Writes a fault's line, and how to go on behind that of a chunk of another compression. What was written is not said where
/// writing fails.
pub fn write_fault<E: Write>(err: &mut E, fault: &Fault) -> io::Result<()>
    ensures { OnOk result (Appends (E.contents err.old) (E.contents err.new)
        (fault_lines fault.now)) }
{
    write_line(err, fault)?;
    write_advice(err, fault)
}

/// Writes how many chunks, and files cut short, were left out for their faults.
pub fn write_left_out<E: Write>(err: &mut E, left_out: u64) -> io::Result<()>
    ensures { OnOk result (Appends (E.contents err.old) (E.contents err.new)
        (line (left_out_text left_out))) }
{
    writeln!(
        err,
        "{left_out} chunks or files have a fault and are left out: `anvilwater check --in DIR` lists them"
    )
}

/// Says that standard output failed, with the system's words, as well as that can be written, and answers the status.
pub fn report_output<E: Write>(err: &mut E, error: &io::Error) -> u8
    ensures { result ≡ FAULT }
{
    let _ = writeln!(err, "standard output: {error}");
    FAULT
}

/// Writes a fault, as well as that can be written, and answers the status.
pub fn report_fault<E: Write>(err: &mut E, fault: &Fault) -> u8
    ensures { result ≡ FAULT }
{
    let _ = write_fault(err, fault);
    FAULT
}
