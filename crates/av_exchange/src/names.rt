//! The names of an exchange's own files.
ghost use Rattle.std.specs.Prelude.{◌≡◌, ◌≢◌, ℕ, IfOk, List, MatchOption, string_bytes, true};
ghost use Rattle.av_reports.specs.Names.{FitsRegion};
ghost use Rattle.av_exchange.specs.Names.{IsBeside, IsRegionName, is_own, part_of};

use av_reports::names::region_of_name;
use av_types::RegionPos;
use std::alloc::{AllocError, Global};

/// What begins all of them. No region's file has such a name.
const START: &str = ".anvilwater-";

/// The journal's.
pub const JOURNAL: &str = ".anvilwater-journal";

/// That of a journal that is written.
pub(crate) const NEW_JOURNAL: &str = ".anvilwater-journal-new";

/// That of a file that is made to see whether a folder takes one, and taken away again.
pub const TRIAL: &str = ".anvilwater-trial";

/// Whether a name is one of an exchange's own.
pub fn is_own(name: &str) -> bool
    ensures { result ≡ is_own name.now }
{
    name.as_bytes().starts_with(START.as_bytes())
}

/// The name under which the new file of that name is written.
pub(crate) fn part_name(alloc: Global, name: &str) -> Result<String, AllocError>
    ensures { IfOk result (λ part. string_bytes part ≡ part_of name.now) }
{
    format!(in alloc; ".anvilwater-{name}")
}

/// The coordinates of a region are numbers of 32 bits: a law.
fn fits_region(region: RegionPos)
    ensures { FitsRegion region }
{}

/// Whether a name is that of a region's file.
pub(crate) fn is_region_name(alloc: Global, name: &str) -> Result<bool, AllocError>
    ensures is { IfOk result (λ r. r ≡ true → IsRegionName name.now) }
    ensures other { IfOk result (λ r. IsRegionName name.now → r ≡ true) }
{
    match region_of_name(alloc, name)? {
        Some(region) => {
            fits_region(region);
            Ok(true)
        }
        None => Ok(false),
    }
}

/// What follows the common beginning of an exchange's names.
fn behind_start(name: &str) -> Option<&str>
    ensures { MatchOption result ((rest : List ℕ) → name.now ≢ part_of rest)
        (λ rest. name.now ≡ part_of rest.now) }
{
    name.strip_prefix(START)
}

/// Whether a file of that name is one of an exchange, other than the journal.
pub fn is_beside(alloc: Global, name: &str) -> Result<bool, AllocError>
    ensures is { IfOk result (λ r. r ≡ true → IsBeside name.now) }
    ensures other { IfOk result (λ r. IsBeside name.now → r ≡ true) }
{
    if name == NEW_JOURNAL {
        return Ok(true);
    }
    if name == TRIAL {
        return Ok(true);
    }
    match behind_start(name) {
        Some(rest) => is_region_name(alloc, rest),
        None => Ok(false),
    }
}
