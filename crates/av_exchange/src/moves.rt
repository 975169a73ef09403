//! New files that are to take names.
ghost use Rattle.std.specs.Prelude.{◌≡◌, IfOk, string_bytes};
ghost use Rattle.av_exchange.specs.Names.{part_of};

use crate::names::part_name;
use std::alloc::{AllocError, Global};

/// A new file, by the name that it has and the one that it is to have, and the mark of what has that.
#[derive(Debug, Drop)]
pub(crate) struct Move {
    pub(crate) name: String,
    pub(crate) part: String,
    pub(crate) mark: String,
    ghost beside: { string_bytes part ≡ part_of (string_bytes name) },
}

impl Move {
    /// The new file that was written for a name.
    pub(crate) fn new(alloc: Global, name: &str, mark: &str) -> Result<Move, AllocError>
        ensures { IfOk result (λ m. string_bytes m.name ≡ name.now) }
    {
        Ok(Move {
            name: String::from_str(alloc, name)?,
            part: part_name(alloc, name)?,
            mark: String::from_str(alloc, mark)?,
        })
    }
}
