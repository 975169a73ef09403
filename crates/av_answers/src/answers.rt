//! What a run answers.
use av_region_files::RegionFile;

/// What a run answers.
#[derive(Drop)]
pub struct Outcome {
    /// The files that are written, by z and then by x of their regions.
    pub files: Vec<RegionFile>,
    /// How many entries were taken in all ticks.
    pub turns: u128,
    /// How many chunks are loaded.
    pub chunks: u64,
}

/// What a run comes to that may ask for a row for each state.
#[derive(Drop)]
pub enum Ran {
    /// It is done. So many states of the loaded chunks' palettes have no row in the table.
    Done { outcome: Outcome, without_row: u32 },
    /// So many states have no row, and nothing was run.
    Uncovered(u32),
}
