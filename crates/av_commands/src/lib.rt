//! What the program's commands read beside region files, and what they print.
#![tactic(auto)]

pub mod block;
pub mod checking;
pub mod shipped;
pub mod tables;
pub mod texts;
