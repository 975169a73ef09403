//! Edits.
use av_types::Pos;

/// An edit: in a tick a block is set to a state, by its number.
#[derive(Clone, Copy, Debug, PartialEq, Eq)]
pub struct Edit {
    /// The line that says so, from 1 on.
    pub line: u64,
    /// The tick in which the block is set, from 1 on.
    pub tick: u32,
    pub pos: Pos,
    /// The number of the state in its table.
    pub number: u16,
}
