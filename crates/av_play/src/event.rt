//! What happens in a tick whose parts are turned by several workers.
use av_types::Entry;

/// A due entry, with its index in the order of the tick.
#[derive(Clone, Copy, Debug, Default, PartialEq, Eq)]
pub struct DueEntry {
    /// Its index, counted from 0.
    pub index: u64,
    /// The entry itself.
    pub entry: Entry,
}

/// An event: who does it, and to which part.
#[derive(Clone, Copy, Debug, PartialEq, Eq)]
pub enum Event {
    /// A worker takes a part that waits.
    Take(u32, u32),
    /// A worker turns the next entry of a part that it holds.
    Turn(u32, u32),
    /// A worker gives back a part all of whose entries were turned.
    Back(u32, u32),
}

/// Where a part is.
#[derive(Clone, Copy, Debug, PartialEq, Eq)]
pub enum Stage {
    /// It waits.
    Waits,
    /// A worker holds it, and has turned so many of its entries.
    Held(u32, usize),
    /// It is back.
    Ended,
}
