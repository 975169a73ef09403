//! Entries whose times do not fall from one to the next, as those of running water: the ones that are due stand at the beginning.
ghost use Rattle.std.specs.Prelude.{◌≡◌, ◌≤◌, ◌-◌, ◌∷◌, ◌++◌, [], filter, not, true, take, drop, length, vec_capacity, vec_len};
ghost use Rattle.av_ticks.specs.Entries.{is_due, least_due};
ghost use Rattle.av_ticks.specs.Rising.{AreRising};

use av_types::Entry;

/// Whether the times do not fall from some entries to the one after them.
pub(crate) fn may_follow(entries: &[Entry], entry: Entry) -> bool
    ensures { result ≡ true → AreRising entries.now → AreRising (entries.now ++ entry ∷ []) }
{
    match entries.last() {
        Some(last) => last.due <= entry.due,
        None => true,
    }
}

/// Whether the times of some entries do not fall. They are gone through only where that is not known.
pub(crate) fn are_rising(entries: &[Entry], known: bool) -> bool
    requires { known ≡ true → AreRising entries.now }
    ensures { result ≡ true → AreRising entries.now }
{
    known || entries.is_sorted_by(|one, next| one.due <= next.due)
}

/// How many entries are due in tick `now` or before it. They are gone through, since whoever asks takes them next: a binary search
/// would look at places that are in no cache yet.
pub(crate) fn count_due(entries: &[Entry], now: u32) -> usize
    requires { AreRising entries.now }
    ensures bound { result ≤ length entries.now }
    ensures due { filter (is_due now) entries.now ≡ take result entries.now }
    ensures others { filter (λ e. not (is_due now e)) entries.now ≡ drop result entries.now }
{
    let now = i64::from(now);
    for (index, entry) in entries.iter().enumerate() {
        if entry.due > now {
            return index;
        }
    }
    entries.len()
}

/// A beginning of some entries that has all that are due in tick `now` or before it. It has no others where they are known to rise.
pub(crate) fn due_part(entries: &[Entry], rises: bool, now: u32) -> &[Entry]
    requires { rises ≡ true → AreRising entries.now }
    ensures due { filter (is_due now) result.now ≡ filter (is_due now) entries.now }
    ensures begins { result.now ≡ take (length result.now) entries.now }
{
    if !rises {
        return entries;
    }
    &entries[..count_due(entries, now)]
}

/// The least time of some entries, and the greatest of all times where there is none.
fn least_of(entries: &[Entry]) -> i64
    ensures { result ≡ least_due entries.now }
{
    let mut least = i64::MAX;
    for entry in entries {
        least = least.min(entry.due);
    }
    least
}

/// The same. It is that of the first entry where they are known to rise.
pub(crate) fn soonest_of(entries: &[Entry], rises: bool) -> i64
    requires { rises ≡ true → AreRising entries.now }
    ensures { result ≡ least_due entries.now }
{
    if !rises {
        return least_of(entries);
    }
    match entries.first() {
        Some(first) => first.due,
        None => i64::MAX,
    }
}

/// Takes so many of the first entries out.
pub(crate) fn remove_first(entries: &mut Vec<Entry>, count: usize)
    requires { count ≤ vec_len entries.old }
    ensures items { entries.new.items ≡ drop count entries.old.items }
    ensures fewer { vec_len entries.new ≤ vec_len entries.old }
    ensures capacity { vec_capacity entries.new ≡ vec_capacity entries.old }
{
    let left = entries.len() - count;
    entries.copy_within(count.., 0);
    entries.truncate(left);
}
