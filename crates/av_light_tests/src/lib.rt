//! Worlds of air for the tests of light, which cross crates.
#![tactic(auto)]

#[cfg(test)]
mod states;
#[cfg(test)]
mod sweeps;
#[cfg(test)]
mod tests;
#[cfg(test)]
mod worlds;
