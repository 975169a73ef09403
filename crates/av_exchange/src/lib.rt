//! New files of a folder that take the names of old ones all or none, whenever a process or the machine ends: they are written beside
//! the old ones, a journal says that they are to take their names, they do, and the journal goes. What was cut off is finished by the
//! journal, or taken away where there is none.
#![tactic(auto)]

pub mod exchange;
pub mod folder;
mod journal;
pub mod laws;
mod marks;
mod moves;
mod moving;
pub mod names;
mod recording;
pub mod repairing;

pub use exchange::{NotCommitted, close, commit, commit_alone, stage, unstage};
pub use folder::Folder;
pub use names::{JOURNAL, TRIAL, is_beside, is_own};
pub use repairing::{repair, sweep};
