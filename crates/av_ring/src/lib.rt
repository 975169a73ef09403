//! A ring of jobs from which 1 to 8 workers in threads of their own take. Each job is handed out at most once, and what
//! is left comes back when the ring is closed. No lock is held and nothing is copied.
#![tactic(auto)]

pub mod numbered;
pub mod ring;
pub mod view;

pub use numbered::Numbered;
pub use ring::{JobRing, Seat};

#[cfg(test)]
mod tests;
