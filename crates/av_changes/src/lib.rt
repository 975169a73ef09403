//! What would change in region files that are there, if others were written over them.
#![tactic(auto)]

pub mod change;
pub mod counting;
pub mod telling;

pub use change::{Change, add_change, by_name};
pub use counting::changed_chunks;
pub use telling::{CHANGED, WOULD_CHANGE, write_changes};
