//! The command `check`: what is wrong with the region files of a folder.
ghost use Rattle.std.specs.Prelude.{◌≡◌, MatchResult, OnOk};
ghost use Rattle.std.specs.Io.KnownBytes.{Appends};
ghost use Rattle.av_types.specs.Faults.{fault_text};
ghost use Rattle.av_reports.specs.Output.{line};
ghost use Rattle.av_commands.specs.CheckCommand.{HasFindings, TellsUnread, advice_on, counts_text, finding_lines, written_at};

use av_reports::failure::{Failure, UnreadFile};
use av_reports::output::{FAULT, is_compression, report_fault, report_output, write_packed_advice};
use av_reports::reasons::write_failure;
use av_survey::Finding;
use av_types::{ChunkPos, Fault, RegionPos};
use std::alloc::Global;
use std::io::{self, Write};

/// Writes the line for a finding.
fn write_finding<O: Write>(out: &mut O, finding: &Finding) -> io::Result<()>
    ensures { OnOk result (Appends (O.contents out.old) (O.contents out.new)
        (written_at finding.now.region finding.now.chunk (fault_text finding.now.fault))) }
{
    let RegionPos { x, z } = finding.region;
    let fault = &finding.fault;
    match finding.chunk {
        None => writeln!(out, "r.{x}.{z}.mca {fault}"),
        Some(chunk) => {
            let ChunkPos { x: cx, z: cz } = chunk;
            writeln!(out, "r.{x}.{z}.mca {cx} {cz} {fault}")
        }
    }
}

/// Writes a line for each finding, in their order: `r.X.Z.mca FAULT` for one of a file, and `r.X.Z.mca CX CZ FAULT`, with the
/// chunk's coordinates in the world, for one of a chunk.
pub fn write_findings<O: Write>(out: &mut O, found: &[Finding]) -> io::Result<()>
    ensures { OnOk result (Appends (O.contents out.old) (O.contents out.new)
        (finding_lines found.now)) }
{
    for finding in found {
        write_finding(out, finding)?;
    }
    Ok(())
}

/// Writes, once, how files of other compressions are made readable, where a finding is of one.
pub fn write_advice<E: Write>(err: &mut E, found: &[Finding]) -> io::Result<()>
    ensures { OnOk result (Appends (E.contents err.old) (E.contents err.new)
        (advice_on found.now)) }
{
    for finding in found {
        if is_compression(&finding.fault) {
            return write_packed_advice(err);
        }
    }
    Ok(())
}

/// Writes each file that could not be read as a failure, in their order.
pub fn write_unread<E: Write>(
    alloc: Global,
    err: &mut E,
    unread: Vec<UnreadFile>,
    explains: bool,
) -> io::Result<()>
    ensures { OnOk result (TellsUnread explains unread.items (E.contents err.old)
        (E.contents err.new)) }
{
    for file in unread {
        let failure = Failure::from(file);
        write_failure(alloc, err, &failure, explains)?;
    }
    Ok(())
}

/// How much was looked at, and how much was found.
#[derive(Clone, Copy, Debug)]
pub struct Counts {
    /// The files that were read.
    pub files: usize,
    /// The chunks that their headers have.
    pub chunks: u64,
    pub findings: usize,
}

/// Writes how much was looked at and found: `4 files, 3012 chunks, 2 findings`.
pub fn write_counts<E: Write>(err: &mut E, counts: Counts) -> io::Result<()>
    ensures { OnOk result (Appends (E.contents err.old) (E.contents err.new)
        (line (counts_text counts))) }
{
    let Counts {
        files,
        chunks,
        findings,
    } = counts;
    writeln!(err, "{files} files, {chunks} chunks, {findings} findings")
}

/// Lists findings on the program's output, and answers its status.
fn list<O: Write, E: Write>(found: &[Finding], out: &mut O, err: &mut E) -> u8
    ensures { HasFindings found.now (O.contents out.old) (O.contents out.new) result }
{
    if found.is_empty() {
        return 0;
    }
    if let Err(error) = write_findings(out, found) {
        return report_output(err, &error);
    }
    let _ = write_advice(err, found);
    FAULT
}

/// Lists what was found wrong with region files, a line for each finding, or writes the fault for which nothing was looked
/// for. Where a finding is of a chunk of another compression, how to go on is said once on standard error, and so is why the
/// lines could not be written. The answer is the program's status: 0 where nothing was found; 1 where something was, and after a
/// fault.
pub fn findings<O: Write, E: Write>(
    surveyed: &Result<Vec<Finding>, Fault>,
    out: &mut O,
    err: &mut E,
) -> u8
    ensures { MatchResult surveyed.now (λ found. HasFindings found.items (O.contents out.old) (O.contents out.new) result)
        (λ _. (O.contents out.new ≡ O.contents out.old) × (result ≡ FAULT)) }
{
    match surveyed {
        Ok(found) => list(found.as_slice(), out, err),
        Err(fault) => report_fault(err, fault),
    }
}
