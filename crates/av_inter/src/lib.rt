//! A tick whose parts are turned by several workers, stepped event by event.
#![tactic(auto)]

pub mod machine;
mod making;
mod parcels;
pub mod refused;
mod stages;
mod turning;

pub use machine::Core;
pub use refused::Refused;
