//! How much a run may be given.
ghost use Rattle.std.specs.Prelude.{IsTrue, ◌↔◌, map};
ghost use Rattle.av_files.specs.FirstFault.{AreCountsGood};
ghost use Rattle.av_image.specs.Views.{file_in};
ghost use Rattle.av_run.specs.Input.{AreFew};

use av_region_files::RegionFile;
use av_types::{MOST_FILES, MOST_TICKS, MOST_WORKERS};

/// Whether there are 1 to 8 workers, at most 1,000,000 ticks and at most 1,024 files.
pub(crate) fn are_counts_good(files: &[RegionFile], ticks: u32, workers: u32) -> bool
    ensures { IsTrue result ↔ AreCountsGood (map file_in files.now) ticks workers }
{
    1 <= workers && workers <= MOST_WORKERS && ticks <= MOST_TICKS && files.len() <= MOST_FILES
}

/// Whether there are at most 1,000,000 ticks and at most 1,024 files.
pub(crate) fn are_few(files: &[RegionFile], ticks: u32) -> bool
    ensures { IsTrue result ↔ AreFew (map file_in files.now) ticks }
{
    are_counts_good(files, ticks, 1)
}
