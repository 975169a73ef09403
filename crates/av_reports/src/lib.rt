//! What commands say: their lines, statuses and failures, with the names of region files and the texts that are read.
#![tactic(auto)]

pub mod device;
pub mod edit_trouble;
pub mod failure;
pub mod manner;
pub mod names;
pub mod output;
pub mod reasons;
pub mod table_trouble;
