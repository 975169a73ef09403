//! The edits of a run by their ticks.
ghost use Rattle.std.specs.Prelude.{◌≤◌, ◌<◌, IfOk, length};
ghost use Rattle.std.specs.List.Sorted.{IsNonDecreasingBy, IsPermutation};
ghost use Rattle.av_serial.specs.Schedule.{tick_of, AreUpTo, IsOfLaterTick, SameByTick};

use av_edits::Edit;
use std::alloc::{AllocError, Global};

/// The edits by their ticks, and those of one tick in the order that they had.
pub(crate) fn sorted_by_tick(alloc: Global, edits: &[Edit]) -> Result<Vec<Edit>, AllocError>
    ensures same { IfOk result (λ sorted. SameByTick sorted.items edits.now) }
    ensures sorted { IfOk result (λ sorted. IsNonDecreasingBy tick_of sorted.items) }
    ensures permutation { IfOk result (λ sorted. IsPermutation edits.now sorted.items) }
{
    let mut sorted = Vec::from_slice(alloc, edits)?;
    sorted.sort_by_key(|edit| edit.tick)?;
    Ok(sorted)
}

/// Where the edits of ticks up to `now` end, of those from `from` on.
pub(crate) fn end_of(edits: &[Edit], from: usize, now: u32) -> usize
    requires { from ≤ length edits.now }
    ensures from { from ≤ result }
    ensures within { result ≤ length edits.now }
    ensures passed { AreUpTo now from result edits.now }
    ensures next { IsOfLaterTick now result edits.now }
{
    let mut to = from;
    while to < edits.len() && edits[to].tick <= now {
        to += 1;
    }
    to
}
