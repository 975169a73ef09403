//! Lists of scheduled water ticks (<https://minecraft.wiki/w/Tick#Scheduled_tick>).
#![tactic(auto)]

pub mod laws;
pub mod list;
pub mod merge;
mod positions;
mod rising;
mod store;

pub use list::TickList;
pub use merge::merge_made;
