//! What becomes of a run's answer: its files are handed to a folder, and it is told what they change and how the run ended.
#![tactic(auto)]

pub mod changing;
pub mod closing;
pub mod handing;
pub mod steps;
pub mod telling;

pub use changing::{changes_asked, changes_of, note_changes};
pub use closing::{close, goes_on, note_repair, report_folder};
pub use handing::hand_over_run;
pub use steps::StepTeller;
pub use telling::{Foreseen, report, tell};
