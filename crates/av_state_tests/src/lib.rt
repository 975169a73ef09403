//! Tests of states and their numbers by the public calls of `av_state`.
#![tactic(auto)]

#[cfg(test)]
mod expecting;
#[cfg(test)]
mod one_hash;
#[cfg(test)]
mod tests;
