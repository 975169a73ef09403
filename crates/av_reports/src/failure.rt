//! Why a command failed: its fault, and what is known beside the fault's line.
ghost use Rattle.std.specs.Prelude.{◌≡◌, ◌⊎◌};
ghost use Rattle.av_types.specs.declared.fault.Fault.TheVariants.{OutOfMemory};
ghost use Rattle.av_sink.specs.Account.{IsDevice};

use crate::device::device_fault;
use crate::edit_trouble::EditTrouble;
use crate::table_trouble::{Trouble, table_trouble};
use av_types::{ChunkPos, Fault, RegionPos};
use std::alloc::{AllocError, AllocFailed, Global};
use std::io;

/// What is known of a fault beside its line.
#[derive(Debug, Drop)]
pub enum Reason {
    /// A file or folder failed: its path, and the system's error.
    Device {
        path: String,
        error: io::Error,
    },
    /// A table is refused: its path, and what is wrong.
    Table {
        path: String,
        trouble: Trouble,
    },
    /// So many workers are none that can work.
    Workers(u32),
    /// So many ticks are more than are run.
    Ticks(u32),
    /// A line of edits is refused.
    Edit(EditTrouble),
    /// The chunk has more bytes than a region's file holds, with its light.
    TooLarge(ChunkPos),
    /// A region's file has the fault, or a chunk of it.
    Chunk {
        region: RegionPos,
        chunk: Option<ChunkPos>,
    },
}

impl Reason {
    /// What is wrong with a block table, by its path and its text.
    pub fn of_table(alloc: Global, path: &str, text: &[u8]) -> Option<Reason> {
        let trouble = table_trouble(alloc, text).ok()??;
        let path = String::from_str(alloc, path).ok()?;
        Some(Reason::Table { path, trouble })
    }
}

/// A fault, and what is known of it.
#[derive(Debug, Drop)]
pub struct Failure {
    pub fault: Fault,
    pub reason: Option<Reason>,
}

impl Failure {
    /// That of a block table that is refused, by its path and its text. It has no reason where memory runs out for it.
    pub fn of_table(alloc: Global, fault: Fault, path: &str, text: &[u8]) -> Failure
        ensures { result.fault ≡ fault }
    {
        Failure {
            fault,
            reason: Reason::of_table(alloc, path, text),
        }
    }

    /// That of a file or folder, by its name in faults and its path, or want of memory.
    pub fn of_device(alloc: Global, error: io::Error, name: &str, path: &str) -> Failure
        ensures { (result.fault ≡ OutOfMemory) ⊎ IsDevice name.now result.fault }
    {
        let fault = device_fault(alloc, &error, name);
        match String::from_str(alloc, path) {
            Ok(path) => Failure {
                fault,
                reason: Some(Reason::Device { path, error }),
            },
            Err(_) => Failure {
                fault,
                reason: None,
            },
        }
    }
}

/// A file of a folder that could not be read: its name there, its path, and why.
#[derive(Debug, Drop)]
pub struct UnreadFile {
    pub name: String,
    pub path: String,
    pub error: io::Error,
}

impl From<UnreadFile> for Failure {
    ghost use Rattle.av_types.specs.declared.fault.Fault.TheVariants.{Device};

    ghost from_gives = { λ u failure. failure.fault ≡ Device u.name };

    fn from(unread: UnreadFile) -> Failure {
        Failure {
            fault: Fault::Device(unread.name),
            reason: Some(Reason::Device {
                path: unread.path,
                error: unread.error,
            }),
        }
    }
}

impl From<Fault> for Failure {
    ghost from_gives = { λ e failure. failure.fault ≡ e };

    fn from(fault: Fault) -> Failure {
        Failure {
            fault,
            reason: None,
        }
    }
}

impl From<AllocError> for Failure {
    ghost from_gives = { λ _ failure. failure.fault ≡ OutOfMemory };

    fn from(_: AllocError) -> Failure {
        Failure {
            fault: Fault::OutOfMemory,
            reason: None,
        }
    }
}

impl<T: Drop> From<AllocFailed<T>> for Failure {
    ghost from_gives = { λ _ failure. failure.fault ≡ OutOfMemory };

    fn from(_: AllocFailed<T>) -> Failure {
        Failure {
            fault: Fault::OutOfMemory,
            reason: None,
        }
    }
}
