//! Flat worlds, for the tests of worlds and of ticks, which cross crates.
#![tactic(auto)]

pub mod flat;
#[cfg(test)]
mod lending;
#[cfg(test)]
mod parcels;
pub mod reads;
#[cfg(test)]
mod tests;
pub mod worlds;
