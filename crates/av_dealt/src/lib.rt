//! Indices of a list that several threads deal among themselves: each makes the thing of the next that none has taken, since things
//! differ in their work and processors in their speed.
#![tactic(auto)]

mod dealing;
mod maker;

pub use dealing::{Dealt, gathered, taken};
pub use maker::Maker;

#[cfg(test)]
mod tests;
