//! Why there is no line for a block.
use av_types::Fault;
use std::alloc::AllocError;

/// Why there is no line for a block.
#[derive(Debug, Drop)]
pub enum Refusal {
    /// The file's name is not that of a region.
    Name,
    Fault(Fault),
}

impl From<Fault> for Refusal {
    ghost use Rattle.std.specs.Prelude.{◌≡◌};
    ghost use Rattle.av_commands.specs.declared.block.refusal.Refusal.TheVariants as refusal;

    ghost from_gives = { λ e r. r ≡ refusal.Fault e };

    fn from(fault: Fault) -> Refusal {
        Refusal::Fault(fault)
    }
}

impl From<AllocError> for Refusal {
    ghost use Rattle.std.specs.Prelude.{◌≡◌};
    ghost use Rattle.av_types.specs.declared.fault.Fault.TheVariants.{OutOfMemory};
    ghost use Rattle.av_commands.specs.declared.block.refusal.Refusal.TheVariants as refusal;

    ghost from_gives = { λ _ r. r ≡ refusal.Fault OutOfMemory };

    fn from(_: AllocError) -> Refusal {
        Refusal::Fault(Fault::OutOfMemory)
    }
}
