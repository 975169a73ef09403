//! Region files, read as a world and a rest.
mod ahead;
mod batch;
pub(crate) mod loading;
pub(crate) mod regions;
mod splits;
pub(crate) mod stored;
