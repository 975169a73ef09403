//! Tests of maps and of the pictures that they are written as, by the public calls of their crates.
#![tactic(auto)]

#[cfg(test)]
mod chunks;
#[cfg(test)]
mod colours;
#[cfg(test)]
mod expecting;
#[cfg(test)]
mod maps;
#[cfg(test)]
mod pictures;
#[cfg(test)]
mod refusals;
