//! Tests of words, of surveys of region files, of what the commands read and print, of changes, of files handed to a sink, and of files that take their names, by
//! the public calls of their crates.
#![tactic(auto)]

#[cfg(test)]
mod changes;
#[cfg(test)]
mod chunks;
#[cfg(test)]
mod exchange;
#[cfg(test)]
mod expecting;
#[cfg(test)]
mod lines;
#[cfg(test)]
mod locks;
#[cfg(test)]
mod sink;
#[cfg(test)]
mod survey;
#[cfg(test)]
mod texts;
#[cfg(test)]
mod words;
