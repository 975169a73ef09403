//! What a census counts.

use av_state::State;

/// How many blocks have a state.
#[derive(Debug, Drop)]
pub struct StateCount {
    pub state: State,
    pub blocks: u64,
}

/// The states of region files.
#[derive(Debug, Drop)]
pub struct Census {
    /// Each state that a block of a loaded chunk has, once, with the number of these blocks: the most blocks first, and
    /// of equal counts by the bytes of the name and then of the properties.
    pub counts: Vec<StateCount>,
    /// How many chunks with a fault, and files that are cut short, are left out.
    pub left_out: u64,
}
