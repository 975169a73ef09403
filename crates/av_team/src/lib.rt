//! The entries of a tick turned by several threads, which share its groups out among them.
#![tactic(auto)]

mod bell;
mod here;
mod lines;
mod serve;
mod team;
mod tend;
mod worth;

pub use team::turn_in_groups;
