//! The command `block`: the state of a block of a region file.
ghost use Rattle.std.specs.Prelude.{◌≡◌, IfErr, IfOk, option_map};
ghost use Rattle.av_types.specs.Positions.{IsInLimits};
ghost use Rattle.av_types.specs.declared.fault.Fault.TheVariants.{OutOfMemory};
ghost use Rattle.av_state.specs.States.{state_of};
ghost use Rattle.av_commands.specs.BlockCommand.{HasAnswered, answer_line, IsBlockLine, IsBlockRefusal, IsPathOf, IsPathRefused, status_of};

use av_codec::block_at;
use av_reports::failure::{Failure, Reason};
use av_reports::names::{file_name, region_of_name};
use av_reports::output::{REFUSED, report_output, write_first};
use av_reports::reasons::report_failure;
use av_state::State;
use av_types::{Fault, Height, Pos, RegionPos};
use std::alloc::Global;
use std::io::Write;

pub mod refusal;

use refusal::Refusal;

/// The region of a path that ends in its name.
fn region_of_path(alloc: Global, path: &str) -> Result<RegionPos, Refusal>
    ensures path { IfOk result (IsPathOf path.now) }
    ensures limits { IfOk result IsInLimits }
    ensures refused { IfErr result (IsPathRefused path.now) }
{
    match region_of_name(alloc, file_name(path))? {
        None => Err(Refusal::Name),
        Some(region) if region.is_in_limits() => Ok(region),
        Some(_) => Err(Refusal::Fault(Fault::RegionRange)),
    }
}

/// The line for a block: the state as `NAME` or `NAME[k=v,..]`, or `unloaded`.
pub fn block_line(alloc: Global, block: &Option<State>) -> Result<Vec<u8>, Fault>
    ensures line { IfOk result (λ line. line.items ≡ answer_line (option_map state_of block.now)) }
    ensures memory { IfErr result (λ e. e ≡ OutOfMemory) }
{
    let mut line = match block {
        Some(state) => state.text(alloc)?,
        None => Vec::from_slice(alloc, b"unloaded")?,
    };
    line.push(b'\n')?;
    Ok(line)
}

/// The line for the block of a path's file.
fn answer(
    alloc: Global,
    path: &str,
    bytes: &[u8],
    pos: Pos,
    height: Height,
) -> Result<Vec<u8>, Refusal>
    ensures line { IfOk result (λ line. IsBlockLine path.now bytes.now pos height line.items) }
    ensures refused { IfErr result (IsBlockRefusal path.now bytes.now pos height) }
{
    let region = region_of_path(alloc, path)?;
    let block = block_at(alloc, bytes, region, pos, height)?;
    Ok(block_line(alloc, &block)?)
}

/// Which file or chunk has a fault that the block at a position is refused for, where one has it.
fn cause(alloc: Global, path: &str, pos: Pos, fault: &Fault) -> Option<Reason> {
    let region = region_of_name(alloc, file_name(path)).ok()??;
    match fault {
        Fault::OutOfMemory | Fault::RegionRange => None,
        Fault::ShortHeader => Some(Reason::Chunk {
            region,
            chunk: None,
        }),
        _ => Some(Reason::Chunk {
            region,
            chunk: Some(pos.chunk()),
        }),
    }
}

/// Writes why there is no line, as well as that can be written, and answers the status.
fn explain<E: Write>(
    alloc: Global,
    path: &str,
    pos: Pos,
    refusal: Refusal,
    explains: bool,
    err: &mut E,
) -> u8
    ensures { result ≡ status_of refusal }
{
    match refusal {
        Refusal::Name => {
            let _ = writeln!(
                err,
                "the file's name is not r.X.Z.mca, with X and Z the region's coordinates"
            );
            REFUSED
        }
        Refusal::Fault(fault) => {
            let reason = cause(alloc, path, pos, &fault);
            report_failure(alloc, err, &Failure { fault, reason }, explains)
        }
    }
}

/// Says which file has a position, where that is another than the one of this path, as well as that can be written.
pub fn note_other_file<E: Write>(alloc: Global, path: &str, pos: Pos, err: &mut E) {
    let Ok(Some(region)) = region_of_name(alloc, file_name(path)) else {
        return;
    };
    let there = pos.chunk().region();
    if region != there {
        let RegionPos { x, z } = there;
        let _ = writeln!(err, "  that position is in r.{x}.{z}.mca");
    }
}

/// Writes the line for the block at a position of a region file, whose position is taken from what follows the last `/` of
/// its path, or why there is none, and where that is asked for, what is known of it. The answer is the program's status: 0; 1 after a
/// fault, and where the line could not be written, or only its beginning; 2 where the file's name is not that of a region.
pub fn block_text<O: Write, E: Write>(
    alloc: Global,
    path: &str,
    bytes: &[u8],
    pos: Pos,
    height: Height,
    explains: bool,
    out: &mut O,
    err: &mut E,
) -> u8
    ensures { HasAnswered path.now bytes.now pos height (O.contents out.old)
        (O.contents out.new) result }
{
    match answer(alloc, path, bytes, pos, height) {
        Ok(line) => match write_first(out, line.as_slice()) {
            Ok(()) => 0,
            Err(error) => report_output(err, &error),
        },
        Err(refusal) => explain(alloc, path, pos, refusal, explains, err),
    }
}
