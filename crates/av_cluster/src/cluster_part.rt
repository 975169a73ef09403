//! A part of a tick.
use av_play::DueEntry;
use av_types::SectionPos;

/// A part of a tick.
#[derive(Drop)]
pub struct Cluster {
    /// Its entries, with their indices in the tick.
    pub entries: Vec<DueEntry>,
    /// The sections of their territories, each once.
    pub sections: Vec<SectionPos>,
}
