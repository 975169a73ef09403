//! The commands that only read region files: `block`, `check`, `states` and `map`, from their words to what they print and their status.
#![tactic(auto)]

pub mod block;
pub mod checking;
pub mod drawing;
pub mod listing;

pub use block::run_block;
pub use checking::run_check;
pub use drawing::{MapRequest, run_map};
pub use listing::run_states;
