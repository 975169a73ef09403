//! A queue that threads share, with no lock. Each item fits one plan, which everyone who puts or takes knows: so a fact
//! about an item crosses from one thread to another.
#![tactic(auto)]

pub mod fits;
pub mod line;
pub mod rule;

pub use fits::Fits;
pub use line::{Line, LinePass};

#[cfg(test)]
mod tests;
