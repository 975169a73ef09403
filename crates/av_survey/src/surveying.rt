//! A survey of region files.
ghost use Rattle.std.specs.Prelude.{◌≢◌, IfOk, IfErr};
ghost use Rattle.std.specs.List.{All};
ghost use Rattle.av_types.specs.declared.fault.Fault.TheVariants.{OutOfMemory};
ghost use Rattle.av_types.specs.Positions.{IsInLimits};
ghost use Rattle.av_survey.specs.Listing.{IsListFault};
ghost use Rattle.av_survey.specs.Survey.{FindsInAll, FindsInFile, FindsUpTo, IsSurvey};

use crate::faults::fault_at;
use crate::finding::Finding;
use crate::listing::judged;
use av_region::{CHUNKS, Region};
use av_region_files::RegionFile;
use av_types::{Fault, Height, RegionPos};
use std::alloc::{AllocError, Global};

/// What is wrong with the chunks of a region, in the order of their indices.
fn survey_indices(
    alloc: Global,
    region: &Region<'_>,
    pos: RegionPos,
    height: Height,
) -> Result<Vec<Finding>, AllocError>
    requires { IsInLimits pos }
    ensures { IfOk result (λ found. FindsUpTo height pos region.now.bytes.now 1024 found.items) }
{
    let mut found = Vec::new(alloc);
    for index in 0..CHUNKS {
        let fault = fault_at(alloc, region, pos, index, height)?;
        Finding::note(&mut found, pos, pos.chunk_at(index), fault)?;
    }
    Ok(found)
}

/// What is wrong with a file.
fn survey_file(alloc: Global, file: &RegionFile, height: Height) -> Result<Vec<Finding>, AllocError>
    requires { IsInLimits file.now.pos }
    ensures { IfOk result (λ found. FindsInFile height file.now found.items) }
{
    match Region::read(file.bytes.as_slice()) {
        Err(fault) => {
            let mut found = Vec::new(alloc);
            found.push(Finding {
                region: file.pos,
                chunk: None,
                fault,
            })?;
            Ok(found)
        }
        Ok(region) => survey_indices(alloc, &region, file.pos, height),
    }
}

/// What is wrong with files, one after the other.
fn survey_all(
    alloc: Global,
    files: Vec<RegionFile>,
    height: Height,
) -> Result<Vec<Finding>, AllocError>
    requires { All (λ f. IsInLimits f.pos) files.items }
    ensures { IfOk result (λ found. FindsInAll height files.items found.items) }
{
    let mut found = Vec::new(alloc);
    for file in files {
        let mut more = survey_file(alloc, &file, height)?;
        found.append(&mut more)?;
    }
    Ok(found)
}

/// All that is wrong with region files: of a file that is cut short `ShortHeader`, and of each other file's chunks the
/// first fault that holds, from `BadLocation` to `TooManyStates`. The states of each chunk are numbered alone. The findings
/// come by (z, x) of their regions and then by the chunks' indices.
///
/// Refuses more than 1,024 files (`BadCount`), a region out of the limits (`RegionRange`), and then two files of one
/// region (`RepeatedRegion`).
pub fn survey(alloc: Global, files: Vec<RegionFile>, height: Height) -> Result<Vec<Finding>, Fault>
    ensures ok { IfOk result (λ found. IsSurvey height files.items found.items) }
    ensures err { IfErr result (λ e. e ≢ OutOfMemory → IsListFault files.items e) }
{
    let files = judged(files)?;
    Ok(survey_all(alloc, files, height)?)
}
