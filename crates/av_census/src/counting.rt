//! A census of region files.
ghost use Rattle.std.specs.Prelude.{◌≢◌, IfOk, IfErr};
ghost use Rattle.av_types.specs.declared.fault.Fault.TheVariants.{OutOfMemory};
ghost use Rattle.av_survey.specs.Listing.{IsListFault};
ghost use Rattle.av_census.specs.Census.{IsCensus};

use crate::counts::Census;
use crate::regions::tally_files;
use crate::tally::{listed, sorted};
use av_region_files::RegionFile;
use av_survey::listing::judged;
use av_types::{Fault, Height};
use std::alloc::Global;

/// How many blocks of region files have each state: of the chunks that are loaded, in the height. The states of each chunk
/// are read alone. A chunk with a fault is left out, and so is a file that is cut short.
///
/// Refuses more than 1,024 files (`BadCount`), a region out of the limits (`RegionRange`), and then two files of one
/// region (`RepeatedRegion`).
pub fn census(alloc: Global, files: Vec<RegionFile>, height: Height) -> Result<Census, Fault>
    ensures ok { IfOk result (IsCensus height files.items) }
    ensures err { IfErr result (λ e. e ≢ OutOfMemory → IsListFault files.items e) }
{
    let files = judged(files)?;
    let totals = tally_files(alloc, files, height)?;
    let counts = sorted(listed(alloc, totals.tally)?)?;
    Ok(Census {
        counts,
        left_out: totals.left_out,
    })
}
