//! How many chunks files have, by their headers.
ghost use Rattle.std.specs.Prelude.{◌≤◌, ◌↔◌, ◌-◌, IsTrue};
ghost use Rattle.av_region.specs.Region.{IsAbsent};
ghost use Rattle.av_survey.specs.Counting.{HasChunks, AreChunksBelow, IsChunkTotal};

use av_region::{CHUNKS, Region};
use av_region_files::RegionFile;

/// Whether a region has no chunk at an index.
fn is_absent(region: &Region<'_>, index: usize) -> bool
    requires { index ≤ 1023 }
    ensures { IsTrue result ↔ IsAbsent region.now.bytes.now index }
{
    match region.payload(index) {
        Ok(None) => true,
        _ => false,
    }
}

/// How many chunks a region has.
fn chunks_of(region: &Region<'_>) -> u64
    ensures chunks { AreChunksBelow region.now.bytes.now 1024 result }
    ensures bound { result ≤ 1024 }
{
    let mut chunks = 0;
    for index in 0..CHUNKS {
        if !is_absent(region, index) {
            chunks += 1;
        }
    }
    chunks
}

/// How many chunks a file has.
fn chunks_in(file: &[u8]) -> u64
    ensures chunks { HasChunks file.now result }
    ensures bound { result ≤ 1024 }
{
    match Region::read(file) {
        Ok(region) => chunks_of(&region),
        Err(_) => 0,
    }
}

/// How many chunks some files have together, by their headers, whatever faults these chunks have: as many as there are locations that are
/// not 0. A file that ends within its header has none. What 64 bits don't hold is not counted.
pub fn count_chunks(files: &[RegionFile]) -> u64
    ensures { IsChunkTotal files.now result }
{
    let mut chunks: u64 = 0;
    for file in files {
        chunks = chunks.saturating_add(chunks_in(file.bytes.as_slice()));
    }
    chunks
}
