//! Block tables: what water and light ask of a block.
#![tactic(auto)]

mod document;
mod first_rows;
pub mod kinds;
pub mod row;
pub mod rules;

pub use kinds::Kinds;
pub use row::Row;
pub use rules::Rules;
