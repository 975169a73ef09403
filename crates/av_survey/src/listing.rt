//! A list of files, judged before any of them is looked at.
ghost use Rattle.std.specs.Prelude.{◌≡◌, ◌≢◌, IfOk, IfErr, IsPermutation};
ghost use Rattle.std.specs.List.{list_any};
ghost use Rattle.av_types.specs.declared.fault.Fault.TheVariants.{OutOfMemory};
ghost use Rattle.av_survey.specs.Listing.{IsListInOrder, IsListFault, in_order, share_a_region};
ghost use Rattle.av_region_files.specs.Regions.{same_region};

use av_region_files::{RegionFile, are_in_limits};
use av_types::{Fault, MOST_FILES, RegionPos};
use std::alloc::AllocError;

/// Whether two positions are those of one region.
fn is_same(a: RegionPos, b: RegionPos) -> bool
    ensures { result ≡ same_region a b }
{
    a == b
}

/// Whether a file is of this region.
fn is_among(region: RegionPos, files: &[RegionFile]) -> bool
    ensures { result ≡ list_any (λ f. same_region region f.pos) files.now }
{
    files.iter().any(|file| is_same(region, file.pos))
}

/// Whether two files are of one region.
fn share_a_region(files: &[RegionFile]) -> bool
    ensures { result ≡ share_a_region files.now }
{
    let mut rest = files;
    while let Some((file, others)) = rest.split_first() {
        if is_among(file.pos, others) {
            return true;
        }
        rest = others;
    }
    false
}

/// The files by (z, x) of their regions.
fn sorted(files: Vec<RegionFile>) -> Result<Vec<RegionFile>, AllocError>
    ensures ok { IfOk result (λ fs. fs.items ≡ in_order files.items) }
    ensures same { IfOk result (λ fs. IsPermutation files.items fs.items) }
{
    let mut files = files;
    files.sort_by_key(|file| (file.pos.z, file.pos.x))?;
    Ok(files)
}

/// Files by (z, x) of their regions, before any of them is looked at.
///
/// Refuses more than 1,024 files (`BadCount`), a region out of the limits (`RegionRange`), and then two files of one
/// region (`RepeatedRegion`).
pub fn judged(files: Vec<RegionFile>) -> Result<Vec<RegionFile>, Fault>
    ensures ok { IfOk result (λ fs. IsListInOrder files.items fs.items) }
    ensures err { IfErr result (λ e. e ≢ OutOfMemory → IsListFault files.items e) }
{
    if files.len() > MOST_FILES {
        return Err(Fault::BadCount);
    }
    if !are_in_limits(files.as_slice()) {
        return Err(Fault::RegionRange);
    }
    if share_a_region(files.as_slice()) {
        return Err(Fault::RepeatedRegion);
    }
    Ok(sorted(files)?)
}
