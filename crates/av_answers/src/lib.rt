//! What a run from region files to region files answers.
#![tactic(auto)]

pub mod answers;

pub use answers::{Outcome, Ran};
