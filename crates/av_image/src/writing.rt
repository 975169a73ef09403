//! A world and a rest, written as region files.
mod dealt;
pub(crate) mod job;
pub(crate) mod payloads;
pub(crate) mod saving;
