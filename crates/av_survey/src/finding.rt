//! What a survey finds.
ghost use Rattle.std.specs.Prelude.{◌≡◌, ◌++◌, OnOk};

use av_types::{ChunkPos, Fault, RegionPos};
use std::alloc::AllocError;

/// What is wrong with a region's file, or with one chunk of it.
#[derive(Debug, Drop)]
pub struct Finding {
    pub region: RegionPos,
    /// The chunk, or None where the fault is that of the file.
    pub chunk: Option<ChunkPos>,
    pub fault: Fault,
}

impl Finding {
    ghost use Rattle.av_survey.specs.Survey.{noted};

    /// Puts a chunk's finding behind others, where it has a fault.
    pub(crate) fn note(
        found: &mut Vec<Finding>,
        region: RegionPos,
        chunk: ChunkPos,
        fault: Option<Fault>,
    ) -> Result<(), AllocError>
        ensures { OnOk result (found.new.items ≡ found.old.items ++ noted region chunk fault) }
    {
        match fault {
            None => Ok(()),
            Some(fault) => Ok(found.push(Finding {
                region,
                chunk: Some(chunk),
                fault,
            })?),
        }
    }
}
