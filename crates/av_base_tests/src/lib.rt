//! Tests of the lowest crates by their public calls: places and faults, packed entries, regions and their files, and lists of scheduled
//! ticks.
#![tactic(auto)]

#[cfg(test)]
mod expecting;
#[cfg(test)]
mod pack;
#[cfg(test)]
mod region;
#[cfg(test)]
mod region_files;
#[cfg(test)]
mod ticks;
#[cfg(test)]
mod types;
