//! The command `block`: a block of a region's file.
ghost use Rattle.std.specs.Prelude.{◌≤◌, IfErr, IfOk, option_map};
ghost use Rattle.av_commands.specs.Tables.{IsHeightBy};
ghost use Rattle.av_folders.specs.Folders.{IsFolderFault};
ghost use Rattle.av_queries.specs.BlockCommand.{HasRunBlock, IsUnreadBlock};

use av_commands::block::{block_text, note_other_file};
use av_commands::tables::read_height;
use av_folders::{LockFiles, tidy};
use av_reports::device::read_file;
use av_reports::failure::Failure;
use av_reports::manner::Manner;
use av_reports::names::split_path;
use av_reports::output::REFUSED;
use av_reports::reasons::report_failure;
use av_types::{Height, Pos};
use std::io::{Input, Write};

/// Repairs the folder of a file where a run was cut off there.
fn tidy_around<R: LockFiles + Eprint + AllocGlobal + Clone + Drop, E: Write>(
    rt: &R,
    file: &str,
    err: &mut E,
) -> Result<(), Failure>
    ensures { IfErr result (λ e. IsFolderFault file.now e.fault) }
{
    let (folder, _) = split_path(rt.alloc(), file)?;
    let folder = if folder.is_empty() {
        "."
    } else {
        folder.as_str()
    };
    tidy(rt, folder, file, err)
}

/// What `block` reads: the world's height, by the block table, and then the file.
fn read_inputs<R: LockFiles + Input + Eprint + AllocGlobal + Clone + Drop, E: Write>(
    rt: &R,
    file: &str,
    table: Option<&str>,
    err: &mut E,
) -> Result<(Height, Vec<u8>), Failure>
    ensures height { IfOk result (λ read. IsHeightBy (option_map (λ t. t.now) table.entry) read.0) }
    ensures unread { IfErr result (λ e. IsUnreadBlock file.now
        (option_map (λ t. t.now) table.entry) e.fault) }
{
    let height = read_height(rt, table)?;
    tidy_around(rt, file, err)?;
    Ok((height, read_file(rt, file)?))
}

/// Reads a region file, and answers what block it has at a position.
fn answer_block<R: LockFiles + Input + Eprint + AllocGlobal + Clone + Drop, O: Write, E: Write>(
    rt: &R,
    file: &str,
    pos: Pos,
    table: Option<&str>,
    manner: Manner,
    out: &mut O,
    err: &mut E,
) -> u8
    ensures status { result ≤ REFUSED }
    ensures ran { HasRunBlock file.now pos (option_map (λ t. t.now) table.entry)
        (O.contents out.old) (O.contents out.new) result }
{
    match read_inputs(rt, file, table, err) {
        Ok((height, bytes)) => block_text(
            rt.alloc(),
            file,
            bytes.as_slice(),
            pos,
            height,
            manner.explains,
            out,
            err,
        ),
        Err(failure) => report_failure(rt.alloc(), err, &failure, manner.explains),
    }
}

/// Runs `block`: writes the block at a position in a region's file, by the height of the block table that is named. The answer is the
/// program's status.
pub fn run_block<R: LockFiles + Input + Eprint + AllocGlobal + Clone + Drop, O: Write, E: Write>(
    rt: &R,
    file: &str,
    pos: Pos,
    table: Option<&str>,
    manner: Manner,
    out: &mut O,
    err: &mut E,
) -> u8
    ensures status { result ≤ REFUSED }
    ensures ran { HasRunBlock file.now pos (option_map (λ t. t.now) table.entry)
        (O.contents out.old) (O.contents out.new) result }
{
    let status = answer_block(rt, file, pos, table, manner, out, err);
    if manner.explains && status == 0 {
        note_other_file(rt.alloc(), file, pos, err);
    }
    status
}
