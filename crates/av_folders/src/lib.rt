//! Folders: region files that are read from one, and files that are written to one.
#![tactic(auto)]

pub mod bare;
pub mod failing;
pub mod folder_sink;
pub mod holding;
pub mod locks;
pub mod progress;
pub mod reading;
mod region_marks;
mod replacing;
pub mod session;
pub mod system_folder;
pub mod tidying;

pub use folder_sink::FolderSink;
pub use holding::{HeldFolder, LockFiles, hold_folder};
pub use locks::{FileNumbers, Lock, lock_in};
pub use reading::{FolderFiles, read_folder, read_readable};
pub use session::hold_output;
pub use system_folder::SystemFolder;
pub use tidying::{RepairTeller, note_removed, tidy};
