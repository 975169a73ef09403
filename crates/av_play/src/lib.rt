//! One entry of a tick turned, and why every interleaving of the parts of a tick gives the tick of one thread.
#![tactic(auto)]

pub mod event;
pub mod laws;
pub mod turning;

pub use event::{DueEntry, Event, Stage};
pub use turning::turn_one;
