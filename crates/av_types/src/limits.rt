//! How much a run may be given.

/// The most workers.
pub const MOST_WORKERS: u32 = 8;

/// The most ticks.
pub const MOST_TICKS: u32 = 1_000_000;

/// The most region files.
pub const MOST_FILES: usize = 1024;
