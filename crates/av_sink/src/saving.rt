//! Handing files to a sink.
ghost use Rattle.std.specs.Prelude.{◌≡◌, ◌+◌, ◌<◌, ◌≤◌, ◌^◌, ◌-◌, [], ◌∷◌, IfErr, IfOk, OnErr, OnOk, length, map};
ghost use Rattle.av_types.specs.declared.fault.Fault.TheVariants.{OutOfMemory};
ghost use Rattle.av_sink.specs.Account.{IsDevice, with_failure, with_files};
ghost use Rattle.av_sink.specs.Saving.{IsStopped, entry_of, named_file};

use crate::sink::Sink;
use av_region_files::{RegionFile, region_name};
use av_types::Fault;
use std::alloc::{AllocError, Global};

/// A file's name and its bytes.
#[derive(Drop)]
pub(crate) struct Named<'a> {
    pub(crate) name: String,
    pub(crate) bytes: &'a [u8],
}

/// The files with their names, in their order.
fn with_names<'a>(alloc: Global, files: &'a [RegionFile]) -> Result<Vec<Named<'a>>, AllocError>
    ensures { IfOk result (λ all. map entry_of all.items ≡ map named_file files.now) }
{
    let mut all = Vec::new(alloc);
    for file in files {
        all.push(Named {
            name: region_name(alloc, file.pos)?,
            bytes: file.bytes.as_slice(),
        })?;
    }
    Ok(all)
}

/// Hands one file over.
fn hand_over<S: Sink>(sink: &mut S, file: Named<'_>) -> Result<(), Fault>
    requires failures { (S.account sink.old).failures < 2 ^ 64 - 1 }
    requires handed { (S.account sink.old).handed < 2 ^ 64 - 1 }
    ensures ok { OnOk result (S.account sink.new ≡ with_files (S.account sink.old)
        (entry_of file.entry ∷ [])) }
    ensures failed { OnErr result (S.account sink.new ≡ with_failure (S.account sink.old)) }
    ensures named { IfErr result (IsDevice (entry_of file.entry).name) }
{
    match sink.write_file(file.name.as_str(), file.bytes) {
        Ok(()) => Ok(()),
        Err(_) => Err(Fault::Device(file.name)),
    }
}

/// Is told what becomes of files.
pub trait Teller {
    /// A sink has taken so many of all files.
    fn taken(&self, _done: usize, _all: usize) {}

    /// So many files of a run that was cut off have their names. What shows that there was one goes only then, so that it is told by this
    /// call or by the next.
    fn finished(&self, _files: usize) {}
}

/// Tells nobody.
pub struct NoTeller;

impl Teller for NoTeller {}

/// Hands files over in their order, up to the first that is not taken.
fn hand_over_all<S: Sink, T: Teller>(
    sink: &mut S,
    all: Vec<Named<'_>>,
    teller: &T,
) -> Result<(), Fault>
    requires failures { (S.account sink.old).failures < 2 ^ 64 - 1 }
    requires handed { (S.account sink.old).handed + length all.items ≤ 2 ^ 64 - 1 }
    ensures ok { OnOk result (S.account sink.new ≡ with_files (S.account sink.old)
        (map entry_of all.entry.items)) }
    ensures err { IfErr result (IsStopped (S.account sink.old) (S.account sink.new)
        (map entry_of all.entry.items)) }
{
    let count = all.len();
    let mut done: usize = 0;
    for file in all {
        hand_over(sink, file)?;
        done = done.saturating_add(1);
        teller.taken(done, count);
    }
    Ok(())
}

/// Hands files to a sink, each once and in their order, under their names `r.X.Z.mca`, and tells of each that was taken. The sink has failed less than
/// 2^64 - 1 times, and its count of files has room for these.
///
/// Refuses with `Device` and the file's name where the sink does not take a file: those before it were handed over,
/// and none behind it. With `OutOfMemory` nothing was handed over.
pub fn save_all<S: Sink, T: Teller>(
    alloc: Global,
    sink: &mut S,
    files: &[RegionFile],
    teller: &T,
) -> Result<(), Fault>
    requires failures { (S.account sink.old).failures < 2 ^ 64 - 1 }
    requires handed { (S.account sink.old).handed + length files.now ≤ 2 ^ 64 - 1 }
    ensures ok { OnOk result (S.account sink.new ≡ with_files (S.account sink.old)
        (map named_file files.now)) }
    ensures err { IfErr result (IsStopped (S.account sink.old) (S.account sink.new)
        (map named_file files.now)) }
{
    let all = with_names(alloc, files)?;
    hand_over_all(sink, all, teller)
}
