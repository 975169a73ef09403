//! Tests of region files that are read and written back, by the public calls of `av_image`.
#![tactic(auto)]

pub mod flat;
#[cfg(test)]
mod saves;
#[cfg(test)]
mod tests;
