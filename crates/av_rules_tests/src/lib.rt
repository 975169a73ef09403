//! Tests of block tables by the public calls of `av_rules`.
#![tactic(auto)]

#[cfg(test)]
mod covered;
#[cfg(test)]
mod expecting;
#[cfg(test)]
mod rows;
#[cfg(test)]
mod soaked;
#[cfg(test)]
mod tests;
