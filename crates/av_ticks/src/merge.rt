//! The entries that several workers made, brought together.
ghost use Rattle.std.specs.Prelude.{◌≡◌, [], IfOk, IfErr, IsOk, ◌≤◌, length};
ghost use Rattle.std.specs.List.{flat_map};
ghost use Rattle.av_types.specs.declared.fault.Fault.TheVariants.{OutOfMemory};
ghost use Rattle.av_ticks.specs.Entries.{made_order};
ghost use Rattle.av_types.specs.Order.{ordered};

use av_types::{Fault, Made};
use std::alloc::{AllocError, Global};

/// How many entries some lists have together, as far as that fits.
fn count_all(parts: &[Vec<Made>]) -> usize
    ensures { result ≤ length (flat_map (λ part. part.items) parts.now) }
{
    let mut count: usize = 0;
    for part in parts {
        count = count.saturating_add(part.len());
    }
    count
}

/// The lists one after the other.
fn concatenated(alloc: Global, parts: &[Vec<Made>]) -> Result<Vec<Made>, AllocError>
    ensures ok { IfOk result (λ all. all.items ≡ flat_map (λ part. part.items) parts.now) }
    ensures nothing { flat_map (λ part. part.items) parts.now ≡ [] → IsOk result }
{
    let mut all = Vec::with_capacity(alloc, count_all(parts))?;
    for part in parts {
        all.extend_from_slice(part)?;
    }
    Ok(all)
}

/// All entries of the lists, each as often as it is there, by the place of their maker and then by their number.
/// Refuses with OutOfMemory alone, and where there is nothing never.
pub fn merge_made(alloc: Global, parts: &[Vec<Made>]) -> Result<Vec<Made>, Fault>
    ensures ok { IfOk result (λ all. all.items ≡ ordered made_order
        (flat_map (λ part. part.items) parts.now)) }
    ensures memory { IfErr result (λ e. e ≡ OutOfMemory) }
    ensures nothing { flat_map (λ part. part.items) parts.now ≡ [] → IsOk result }
{
    let mut all = concatenated(alloc, parts)?;
    all.sort_by_key(|made| (made.maker, made.number))?;
    Ok(all)
}
