//! The smallest world on which turns run: some layers of one chunk.
#![tactic(auto)]

pub mod columns;

pub use columns::Column;
