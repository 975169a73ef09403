//! Whether groups are worth their hand-over. No clause speaks of it: a tick leaves the same, in groups or on the world itself.
use av_groups::groups::{Group, Groups, Touch};
use av_groups::stretches::stretch_count;
use av_types::Entry;
use std::alloc::{AllocError, Global};

/// A group is lent and taken back, by one thread at a time, in about the time of so many turns.
const HAND_OVER: usize = 16;

/// Whether groups of these entries have so many turns on average that they take longer than their hand-over. It takes no memory.
pub(crate) fn are_long(entries: &[Entry]) -> bool {
    stretch_count(entries).saturating_mul(HAND_OVER) <= entries.len()
}

/// When a group can begin, where these are the ends of those before it, behind 0 for those that wait for none.
fn begin_of(ends: &[usize], touches: &[Touch]) -> usize {
    let mut begin = 0;
    for touch in touches {
        if let Some(end) = ends.get(touch.before) {
            begin = (*end).max(begin);
        }
    }
    begin
}

/// How many turns, with those that a hand-over is worth, come one after the other on the longest way through groups that wait for
/// each other.
fn longest_way(alloc: Global, groups: &[Group]) -> Result<usize, AllocError> {
    let mut ends = Vec::with_capacity(alloc, groups.len().saturating_add(1))?;
    ends.push(0)?;
    let mut longest = 0;
    for group in groups {
        let begin = begin_of(ends.as_slice(), group.touches.as_slice());
        let turns = group.to.saturating_sub(group.from);
        let end = begin.saturating_add(turns).saturating_add(HAND_OVER);
        longest = end.max(longest);
        ends.push(end)?;
    }
    Ok(longest)
}

/// Whether groups wait so little for each other that several threads save a third of the time at least.
///
/// # Errors
/// Where memory is refused.
pub(crate) fn gain_a_third(alloc: Global, groups: &Groups) -> Result<bool, AllocError> {
    let longest = longest_way(alloc, groups.groups.as_slice())?;
    Ok(longest.saturating_mul(3) <= groups.entries.len().saturating_mul(2))
}
