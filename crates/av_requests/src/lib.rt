//! The words that the program was called with; what `run` is asked for and what it reads, why it was refused, and what it would
//! change in a folder.
#![tactic(auto)]

pub mod calls;
pub mod causes;
pub mod old_files;
pub mod requests;
pub mod skipping;

pub use calls::{as_texts, explain_words, given_words, refuse_twice};
pub use causes::failure_of_run;
pub use old_files::{changes_in, look_for};
pub use requests::{Inputs, Request, read_inputs, request_of};
pub use skipping::{judge_skips, report_skip};
