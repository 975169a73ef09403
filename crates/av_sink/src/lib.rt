//! Where region files are handed to, and under which names.
#![tactic(auto)]

pub mod saving;
pub mod sink;

pub use saving::{NoTeller, Teller, save_all};
pub use sink::{FailedFile, OutputFolder, Repair, Sink, SinkFailed};
