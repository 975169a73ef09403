//! Edits: blocks that are set in a tick, as the lines of a text say.
#![tactic(auto)]

pub mod edit;
pub mod reading;
#[cfg(test)]
mod tests;
mod words;

pub use edit::Edit;
pub use reading::read;
