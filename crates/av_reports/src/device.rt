//! Files that are read, and the fault of one that can't be.
ghost use Rattle.std.specs.Prelude.{◌≡◌, ◌⊎◌, IfErr};
ghost use Rattle.av_types.specs.declared.fault.Fault.TheVariants.{OutOfMemory};
ghost use Rattle.av_sink.specs.Account.{IsDevice};

use crate::failure::Failure;
use av_types::Fault;
use std::alloc::Global;
use std::rt::Files;
use std::{fs, io};

/// The fault of a file or folder that failed, by its name, or want of memory.
pub fn device_fault(alloc: Global, error: &io::Error, name: &str) -> Fault
    ensures { (result ≡ OutOfMemory) ⊎ IsDevice name.now result }
{
    if error.kind() == io::ErrorKind::OutOfMemory {
        return Fault::OutOfMemory;
    }
    match String::from_str(alloc, name) {
        Ok(name) => Fault::Device(name),
        Err(_) => Fault::OutOfMemory,
    }
}

/// The bytes of a file. A file that can't be read is `Device` with its name as it was given.
pub fn read_file<R: Files + AllocGlobal>(rt: &R, name: &str) -> Result<Vec<u8>, Failure>
    ensures { IfErr result (λ e. (e.fault ≡ OutOfMemory) ⊎ IsDevice name.now e.fault) }
{
    match fs::read(rt, name) {
        Ok(bytes) => Ok(bytes),
        Err(error) => Err(Failure::of_device(rt.alloc(), error, name, name)),
    }
}
