//! Tests of tags and their bytes by the public calls of `av_nbt`.
#![tactic(auto)]

#[cfg(test)]
mod documents;
#[cfg(test)]
mod expecting;
#[cfg(test)]
mod tags;
