//! What is known of a file or a folder that could not be written.
ghost use Rattle.std.specs.Prelude.{◌≡◌, ◌⊎◌};
ghost use Rattle.av_types.specs.declared.fault.Fault.TheVariants.{OutOfMemory};
ghost use Rattle.av_sink.specs.Account.{IsDevice};

use av_reports::failure::{Failure, Reason};
use av_sink::FailedFile;
use av_types::Fault;
use std::alloc::Global;

/// The failure of a folder that is written to, with what failed there.
pub fn failure_of_file(fault: Fault, failed: FailedFile) -> Failure
    ensures { result.fault ≡ fault }
{
    Failure {
        fault,
        reason: Some(Reason::Device {
            path: failed.path,
            error: failed.error,
        }),
    }
}

/// The failure of a folder that is written to, by its name in faults, and what failed there where that is known; or want of memory.
pub fn failure_of_folder(alloc: Global, folder: &str, failed: Option<FailedFile>) -> Failure
    ensures { (result.fault ≡ OutOfMemory) ⊎ IsDevice folder.now result.fault }
{
    let Ok(name) = String::from_str(alloc, folder) else {
        return Failure::from(Fault::OutOfMemory);
    };
    let fault = Fault::Device(name);
    match failed {
        Some(failed) => failure_of_file(fault, failed),
        None => Failure::from(fault),
    }
}
