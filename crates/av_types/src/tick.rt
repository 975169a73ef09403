//! Scheduled ticks (<https://minecraft.wiki/w/Tick#Scheduled_tick>). Times are in ticks of the game, 20 a second.
use crate::position::Pos;

/// A scheduled tick of water: a block that is to be turned.
#[derive(Clone, Copy, Debug, Default, PartialEq, Eq)]
pub struct Entry {
    /// The block.
    pub pos: Pos,
    /// Among entries that are due at the same time, a lower priority goes first. It stands here so that no bytes are left over:
    /// an entry has 24.
    pub priority: i32,
    /// The tick in which it is due, counted from the moment at which the world was saved; below 0 is overdue.
    pub due: i64,
}

/// An entry that a turn has made.
#[derive(Clone, Copy, Debug, Default, PartialEq, Eq)]
pub struct Made {
    /// The index of the turned entry among those that are due in the tick.
    pub maker: u64,
    /// Which of the entries that this turn made it is, counted from 0.
    pub number: u8,
    /// The entry itself.
    pub entry: Entry,
}
