//! What takes written files.
ghost use Rattle.std.specs.Prelude.{◌≡◌, ◌<◌, ◌^◌, ◌-◌, [], ◌∷◌, IfOk, None, OnOk, OnErr};
ghost use Rattle.av_sink.specs.Account.{Account, file_named, in_folder, with_end, with_failure, with_files, with_commit, with_repair};

use crate::saving::Teller;
use std::alloc::AllocError;
use std::io;
use thiserror::Error;

/// A file was not taken.
#[derive(Clone, Copy, Debug, Error)]
#[error("the file could not be written")]
pub struct SinkFailed;

/// What takes files, as a folder does, and counts them. A write fails exactly where the count of failures rises, by one,
/// and succeeds exactly where the count of files handed over rises, by one. Neither count goes beyond 2^64 - 1.
pub trait Sink {
    /// Both counts, the folder that it has opened, what became of the files there, and the files that it keeps, where it can tell: a
    /// sink in memory can, a folder can not.
    ghost account: { Self → Account };

    /// How many writes have failed.
    fn failures(&self) -> u64
        ensures { result ≡ (account self.now).failures };

    /// How many files were taken.
    fn handed(&self) -> u64
        ensures { result ≡ (account self.now).handed };

    /// Takes a file, whole or not at all.
    fn write_file(&mut self, name: &str, bytes: &[u8]) -> Result<(), SinkFailed>
        requires failures { (account self.old).failures < 2 ^ 64 - 1 }
        requires handed { (account self.old).handed < 2 ^ 64 - 1 }
        ensures ok { OnOk result (account self.new
            ≡ with_files (account self.old) (file_named name.now bytes.now ∷ [])) }
        ensures err { OnErr result (account self.new ≡ with_failure (account self.old)) };
}

/// What was done about a run of a folder that was cut off.
#[derive(Clone, Copy, Debug)]
pub struct Repair {
    /// How many files its journal lists, all of which have their names now, where there was one.
    pub finished: Option<usize>,
    /// How many files that it had left were taken away.
    pub removed: usize,
}

/// A file of a folder that failed: its path, and the system's error.
#[derive(Debug, Drop)]
pub struct FailedFile {
    pub path: String,
    pub error: io::Error,
}

/// A sink whose files go to a folder, which is opened once, by its name. They take their names there all or none.
pub trait OutputFolder: Sink {
    /// Opens the folder of that name, for all files that are taken from now on. Unless it may be in use, as where the game has its world open,
    /// that is looked for again before files take their names.
    ///
    /// Errors: only want of memory.
    fn open(&mut self, folder: &str, in_use: bool) -> Result<(), AllocError>
        requires unopened { (Self.account self.old).folder ≡ None }
        ensures ok { OnOk result (Self.account self.new
            ≡ in_folder folder.now (Self.account self.old)) }
        ensures err { OnErr result (Self.account self.new ≡ Self.account self.old) };

    /// Finishes a run of that folder that was cut off while its files took their names, which is told, and takes away what one left that
    /// was cut off before.
    fn repair<T: Teller>(&mut self, teller: &T) -> Result<Repair, SinkFailed>
        ensures ok { IfOk result (λ r. Self.account self.new
            ≡ with_repair r (Self.account self.old)) }
        ensures err { OnErr result (Self.account self.new ≡ Self.account self.old) };

    /// Lets the region files that were taken take their names. Until `close` a call that is cut off is finished by the next.
    fn commit(&mut self) -> Result<(), SinkFailed>
        ensures ok { OnOk result (Self.account self.new ≡ with_commit (Self.account self.old)) }
        ensures err { OnErr result (Self.account self.new ≡ Self.account self.old) };

    /// Notes that all is told of files that took their names. What failed behind it, `last_failed` tells.
    fn close(&mut self) -> Result<(), SinkFailed>
        ensures ok { OnOk result (Self.account self.new ≡ with_end (Self.account self.old)) }
        ensures err { OnErr result (Self.account self.new ≡ Self.account self.old) };

    /// What failed last, where that is known.
    fn last_failed(&mut self) -> Option<FailedFile>
        ensures { Self.account self.new ≡ Self.account self.old };
}
