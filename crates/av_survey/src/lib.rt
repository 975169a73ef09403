//! What is wrong with region files, file by file and chunk by chunk.
#![tactic(auto)]

pub mod counting;
mod faults;
pub mod finding;
pub mod listing;
pub mod surveying;

pub use counting::count_chunks;
pub use finding::Finding;
pub use surveying::survey;
