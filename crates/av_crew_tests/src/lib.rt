//! Ticks on several workers, for the tests of the crew, which cross crates.
#![tactic(auto)]

pub mod crews;
#[cfg(test)]
mod gate_tests;
#[cfg(test)]
mod gates;
#[cfg(test)]
mod group_tests;
#[cfg(test)]
mod tests;
