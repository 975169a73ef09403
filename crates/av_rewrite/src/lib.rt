//! Reading every chunk of a region file and writing the region again, as measuring programs do.
#![tactic(auto)]

mod recoding;
mod rewriting;

pub use recoding::recode;
pub use rewriting::rewrite;
