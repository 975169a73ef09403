//! Tests of counts of states by the public calls of `av_census`.
#![tactic(auto)]

#[cfg(test)]
mod chunks;
#[cfg(test)]
mod expecting;
#[cfg(test)]
mod tests;
