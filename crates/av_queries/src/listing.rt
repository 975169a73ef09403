//! The command `states`: the block states of the region files of a folder.
ghost use Rattle.std.specs.Prelude.{◌≡◌, IfOk, option_map};
ghost use Rattle.av_queries.specs.StatesCommand.{HasListed, IsListingBy, status_after};

use av_census::{census, listing};
use av_commands::tables::{read_rules, world_height};
use av_folders::{LockFiles, read_folder};
use av_reports::failure::Failure;
use av_reports::manner::Manner;
use av_reports::output::{FAULT, report_output, write_first, write_left_out};
use av_reports::reasons::report_failure;
use std::io::{Input, Write};

/// The lines of `states`.
#[derive(Drop)]
pub struct Listing {
    pub text: Vec<u8>,
    /// How many chunks, and files cut short, were left out for their faults.
    pub left_out: u64,
}

/// Reads the table and the folder, and lists the states.
fn list_states<R: LockFiles + Input + Eprint + AllocGlobal + Clone + Drop, E: Write>(
    rt: &R,
    folder: &str,
    table: Option<&str>,
    manner: Manner,
    err: &mut E,
) -> Result<Listing, Failure>
    ensures { IfOk result (λ l. IsListingBy (option_map (λ t. t.now) table.entry) l.text.items
        l.left_out) }
{
    let rules = read_rules(rt, table)?;
    let files = read_folder(rt, folder, manner, err)?;
    let census = census(rt.alloc(), files, world_height(&rules))?;
    let text = listing(rt.alloc(), census.counts.as_slice(), rules.as_ref())?;
    Ok(Listing {
        text,
        left_out: census.left_out,
    })
}

/// Says how many chunks were left out, where some were, and answers the status.
fn report_left_out<E: Write>(err: &mut E, left_out: u64) -> u8
    ensures { result ≡ status_after left_out }
{
    if left_out == 0 {
        return 0;
    }
    let _ = write_left_out(err, left_out);
    FAULT
}

/// Runs `states`. The answer is the program's status: 0; 1 after a fault, where chunks were left out, and where the lines could
/// not be written, or only their beginning.
pub fn run_states<R: LockFiles + Input + Eprint + AllocGlobal + Clone + Drop, O: Write, E: Write>(
    rt: &R,
    folder: &str,
    table: Option<&str>,
    manner: Manner,
    out: &mut O,
    err: &mut E,
) -> u8
    ensures { HasListed (option_map (λ t. t.now) table.entry) (O.contents out.old)
        (O.contents out.new) result }
{
    match list_states(rt, folder, table, manner, err) {
        Ok(listing) => match write_first(out, listing.text.as_slice()) {
            Ok(()) => report_left_out(err, listing.left_out),
            Err(error) => report_output(err, &error),
        },
        Err(failure) => report_failure(rt.alloc(), err, &failure, manner.explains),
    }
}
