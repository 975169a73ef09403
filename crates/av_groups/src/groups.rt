//! Groups of a tick's entries.
use av_types::{ChunkPos, Entry};

/// A chunk that the turns of a group may read or change, its index among the world's positions, and what comes before the group
/// there: one more than the number of the last earlier group that touches the chunk, and 0 where none does.
#[derive(Clone, Copy, Debug, Drop)]
pub struct Touch {
    pub chunk: ChunkPos,
    pub index: usize,
    pub before: usize,
}

/// Entries of a tick that come one after the other: those of the tick from index `from` up to `to`, without that one. And the chunks
/// that their turns may touch.
#[derive(Drop)]
pub struct Group {
    pub from: usize,
    pub to: usize,
    pub touches: Vec<Touch>,
}

/// All entries of a tick, and their groups. `last` has for each chunk of the world one more than the number of the last group that
/// touches it, and 0 where none does.
#[derive(Drop)]
pub struct Groups {
    pub entries: Vec<Entry>,
    pub groups: Vec<Group>,
    pub last: Vec<usize>,
}
