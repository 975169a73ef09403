//! The words of the command line, as a command with its values.
#![tactic(auto)]

pub(crate) mod arguments;
pub mod command_line;
pub(crate) mod values;

pub use command_line::commands::{RunWords, STANDARD_INPUT, Words};
pub use command_line::words;
