//! Why there is no map.
ghost use Rattle.std.specs.Prelude.{◌≡◌, Some};

use av_types::Fault;
use std::alloc::AllocError;
use std::error::Error;
use std::fmt;

/// Why there is no map.
#[derive(Debug, Drop)]
pub enum Refusal {
    /// More than 1,024 files, a region out of the limits, two files of one region, or want of memory.
    Fault(Fault),
    /// There is no file.
    Empty,
    /// The regions fill more than 16,384 pixels a side.
    TooWide,
}

impl fmt::Display for Refusal {
    ghost use Rattle.av_map.specs.Texts.{refusal_text};

    ghost output = { λ r. Some (refusal_text r) };

    fn fmt<W: fmt::Write>(&self, f: &mut fmt::Formatter<W>) -> fmt::Result {
        match self {
            Refusal::Fault(fault) => write!(f, "{fault}"),
            Refusal::Empty => write!(f, "no region file to draw"),
            Refusal::TooWide => { write!(f, "the regions fill more than 16384 pixels a side") }
        }
    }
}

impl Error for Refusal {}

impl From<Fault> for Refusal {
    ghost use Rattle.av_map.specs.declared.refusal.Refusal.TheVariants as refusal;

    ghost from_gives = { λ e r. r ≡ refusal.Fault e };

    fn from(fault: Fault) -> Refusal {
        Refusal::Fault(fault)
    }
}

impl From<AllocError> for Refusal {
    ghost use Rattle.av_types.specs.declared.fault.Fault.TheVariants.{OutOfMemory};
    ghost use Rattle.av_map.specs.declared.refusal.Refusal.TheVariants as refusal;

    ghost from_gives = { λ _ r. r ≡ refusal.Fault OutOfMemory };

    fn from(_: AllocError) -> Refusal {
        Refusal::Fault(Fault::OutOfMemory)
    }
}
