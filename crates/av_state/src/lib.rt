//! Block states and their numbers.
#![tactic(auto)]

mod index;
mod slots;
pub mod state;
pub mod table;
pub mod text;

pub use state::{Property, State};
pub use table::StateTable;
pub use text::PropertyText;
