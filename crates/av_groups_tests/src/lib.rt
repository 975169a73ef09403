//! Ticks in groups, by hand: how they are cut, and what is lent for them, which crosses crates.
#![tactic(auto)]

#[cfg(test)]
mod cuts;
pub mod groups;
#[cfg(test)]
mod loans;
pub mod turns;
