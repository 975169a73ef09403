//! Runs of flat worlds, for the tests of edits and ticks, which cross crates.
#![tactic(auto)]

#[cfg(test)]
mod edit_tests;
pub mod runs;
#[cfg(test)]
mod tests;
#[cfg(test)]
mod ticks;
