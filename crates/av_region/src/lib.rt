//! Region files (<https://minecraft.wiki/w/Region_file_format>): where chunks stand, their payloads
//! and timestamps, read and written.
#![tactic(auto)]

pub mod laws;
mod layout;
pub mod reading;
pub mod writing;

pub use laws::written_holds;
pub use layout::{CHUNKS, HEADER};
pub use reading::Region;
pub use writing::write;
