//! Entries in order, with an index of their positions where they are many and are looked up.
ghost use Rattle.std.specs.Prelude.{◌≡◌, ◌<◌, ◌≤◌, ◌+◌, ◌-◌, ◌&&◌, [], ◌∷◌, ◌++◌, List, int_le, filter, take, length, not, true, false, IsOk, IfOk, OnOk, is_ok, if◌then◌else◌, vec_capacity, vec_len};
ghost use Rattle.av_types.specs.declared.position.Pos.{Pos};
ghost use Rattle.av_types.specs.declared.tick.Entry.{Entry};
ghost use Rattle.av_ticks.specs.Entries.{are_apart, is_due, is_pending, least_due, same_pos};
ghost use Rattle.av_ticks.specs.Held.{holds, IsIndexOf};
ghost use Rattle.av_ticks.specs.Rising.{AreRising};

use crate::positions::Positions;
use crate::rising::{are_rising, count_due, due_part, may_follow, remove_first, soonest_of};
use av_types::{Entry, Pos};
use std::alloc::{AllocError, Global};

/// Up to how many entries room is made without an index.
const FEW: usize = 128;

/// Entries in order, at most one of a position.
#[derive(Drop)]
pub(crate) struct Store {
    /// The entries, in order.
    entries: Vec<Entry>,
    /// Their positions, where the entries are many. It makes look-ups fast, and no more: where it can't grow it is let go.
    index: Option<Positions>,
    /// Whether the entries are known to rise: none is due before the one that it follows. It makes taking what is due fast, and no more.
    rises: bool,
    ghost indexed: { IsIndexOf index entries.items },
    ghost rising: { rises ≡ true → AreRising entries.items },
}

/// Whether an entry is one of a position.
fn is_of(entry: &Entry, pos: Pos) -> bool
    ensures { result ≡ same_pos pos entry.now.pos }
{
    pos.x == entry.pos.x && pos.y == entry.pos.y && pos.z == entry.pos.z
}

/// Whether one of some entries is of a position.
fn has_entry(entries: &[Entry], pos: Pos) -> bool
    ensures { result ≡ is_pending pos entries.now }
{
    for entry in entries {
        if is_of(entry, pos) {
            return true;
        }
    }
    false
}

/// Puts an entry at the end.
fn push(entries: &mut Vec<Entry>, entry: Entry) -> Result<(), AllocError>
    ensures entries { entries.new.items ≡ (if is_ok result then entries.old.items ++ entry ∷ []
        else entries.old.items) }
    ensures succeeds { 0 < vec_capacity entries.old - vec_len entries.old → IsOk result }
    ensures spare { vec_capacity entries.old - vec_len entries.old
        ≤ vec_capacity entries.new - vec_len entries.new + 1 }
{
    entries.push(entry)?;
    Ok(())
}

/// Makes room for so many more entries.
fn reserve_entries(entries: &mut Vec<Entry>, additional: usize) -> Result<(), AllocError>
    ensures entries { entries.new.items ≡ entries.old.items }
    ensures ok { OnOk result (additional ≤ vec_capacity entries.new - vec_len entries.new) }
    ensures succeeds { additional ≤ vec_capacity entries.old - vec_len entries.old → IsOk result }
    ensures room { vec_capacity entries.old - vec_len entries.old
        ≤ vec_capacity entries.new - vec_len entries.new }
{
    entries.reserve(additional)?;
    Ok(())
}

/// Keeps the entries that are not due.
fn retain_later(entries: &mut Vec<Entry>, now: u32)
    ensures entries { entries.new.items ≡ filter (λ e. not (is_due now e)) entries.old.items }
    ensures fewer { vec_len entries.new ≤ vec_len entries.old }
    ensures room { vec_capacity entries.old - vec_len entries.old
        ≤ vec_capacity entries.new - vec_len entries.new }
{
    let now = i64::from(now);
    entries.retain(
        |entry: &Entry| -> bool
            ensures { result ≡ not (int_le entry.now.due now) }
        { entry.due > now },
    );
}

/// Lets the entries go that are due.
fn drop_entries(entries: &mut Vec<Entry>, rises: bool, now: u32)
    requires { rises ≡ true → AreRising entries.old.items }
    ensures entries { entries.new.items ≡ filter (λ e. not (is_due now e)) entries.old.items }
    ensures room { vec_capacity entries.old - vec_len entries.old
        ≤ vec_capacity entries.new - vec_len entries.new }
{
    if !rises {
        return retain_later(entries, now);
    }
    let due = count_due(entries.as_slice(), now);
    remove_first(entries, due);
}

/// The positions of some entries.
fn positions_of(alloc: Global, entries: &[Entry]) -> Result<Positions, AllocError>
    ensures { IfOk result (λ index. (p : Pos) → holds index p ≡ is_pending p entries.now) }
{
    let mut index = Positions::new(alloc);
    for entry in entries {
        index.put(entry.pos)?;
    }
    Ok(index)
}

/// Puts the position of a new entry into an index, where there is one. Where memory is refused, the index is let go.
fn note(index: &mut Option<Positions>, entry: Entry)
    ensures { (es : List Entry) → IsIndexOf index.old es → IsIndexOf index.new (es ++ entry ∷ []) }
{
    let Some(positions) = index else {
        return;
    };
    if positions.put(entry.pos).is_err() {
        *index = None;
    }
}

/// Takes the position of an entry out if it is due.
fn forget_if_due(index: &mut Positions, entry: &Entry, now: u32)
    ensures { (p : Pos) → holds index.new p ≡ (holds index.old p
        && not (is_due now entry.now && same_pos p entry.now.pos)) }
{
    if entry.due <= i64::from(now) {
        index.take_out(entry.pos);
    }
}

/// Takes the positions of the entries that are due out.
fn forget_all_due(index: &mut Positions, entries: &[Entry], now: u32)
    ensures { (p : Pos) → holds index.new p ≡ (holds index.old p
        && not (is_pending p (filter (is_due now) entries.now))) }
{
    for entry in entries {
        forget_if_due(index, entry, now);
    }
}

/// Takes the positions of the entries that are due out of their index, where there is one.
fn forget_due(index: &mut Option<Positions>, entries: &[Entry], rises: bool, now: u32)
    requires apart { are_apart entries.now ≡ true }
    requires rising { rises ≡ true → AreRising entries.now }
    requires index { IsIndexOf index.old entries.now }
    ensures { IsIndexOf index.new (filter (λ e. not (is_due now e)) entries.now) }
{
    if let Some(positions) = index {
        forget_all_due(positions, due_part(entries, rises, now), now);
    }
}

impl Store {
    ghost use Rattle.av_ticks.specs.Stored.{stored, spare_in};

    /// No entries.
    pub(crate) fn new(alloc: Global) -> Store
        ensures { stored result ≡ [] }
    {
        Store {
            entries: Vec::new(alloc),
            index: None,
            rises: true,
        }
    }

    /// The allocator.
    pub(crate) fn allocator(&self) -> Global {
        *self.entries.allocator()
    }

    /// The entries, in order.
    pub(crate) fn as_slice(&self) -> &[Entry]
        ensures { result.now ≡ stored self.now }
    {
        self.entries.as_slice()
    }

    /// A beginning of the entries that has all that are due in tick `now` or before it.
    pub(crate) fn due_part(&self, now: u32) -> &[Entry]
        ensures due { filter (is_due now) result.now ≡ filter (is_due now) (stored self.now) }
        ensures begins { result.now ≡ take (length result.now) (stored self.now) }
    {
        due_part(self.entries.as_slice(), self.rises, now)
    }

    /// The least time of an entry, and the greatest of all times where there is none.
    pub(crate) fn soonest(&self) -> i64
        ensures { result ≡ least_due (stored self.now) }
    {
        soonest_of(self.entries.as_slice(), self.rises)
    }

    /// Whether an entry of a position is there.
    pub(crate) fn has(&self, pos: Pos) -> bool
        ensures { result ≡ is_pending pos (stored self.now) }
    {
        match &self.index {
            Some(index) => index.has(pos),
            None => has_entry(self.entries.as_slice(), pos),
        }
    }

    /// Makes an index, where there is none and there is memory for it.
    fn make_index(&mut self)
        ensures entries { stored self.new ≡ stored self.old }
        ensures room { spare_in self.new ≡ spare_in self.old }
    {
        if self.index.is_none() {
            self.index = positions_of(self.allocator(), self.entries.as_slice()).ok();
        }
    }

    /// Makes room for so many more entries, without an index where there is none.
    pub(crate) fn reserve(&mut self, additional: usize) -> Result<(), AllocError>
        ensures entries { stored self.new ≡ stored self.old }
        ensures ok { OnOk result (additional ≤ spare_in self.new) }
        ensures succeeds { additional ≤ spare_in self.old → IsOk result }
        ensures room { spare_in self.old ≤ spare_in self.new }
    {
        reserve_entries(&mut self.entries, additional)?;
        Ok(())
    }

    /// Makes room for so many more entries, with an index where they become many.
    pub(crate) fn reserve_indexed(&mut self, additional: usize) -> Result<(), AllocError>
        ensures entries { stored self.new ≡ stored self.old }
        ensures ok { OnOk result (additional ≤ spare_in self.new) }
        ensures succeeds { additional ≤ spare_in self.old → IsOk result }
        ensures room { spare_in self.old ≤ spare_in self.new }
    {
        let spare = self.entries.capacity() - self.entries.len();
        let stay_few = additional <= FEW && self.entries.len() <= FEW - additional;
        if additional <= spare || stay_few {
            return self.reserve(additional);
        }
        self.reserve(additional)?;
        self.make_index();
        Ok(())
    }

    /// Appends the entry of a position that is not pending.
    pub(crate) fn add(&mut self, entry: Entry) -> Result<(), AllocError>
        ensures entries { stored self.new ≡ (if is_ok result then stored self.old ++ entry ∷ []
            else stored self.old) }
        ensures succeeds { 0 < spare_in self.old → IsOk result }
        ensures spare { spare_in self.old ≤ spare_in self.new + 1 }
    {
        if FEW <= self.entries.len() && self.entries.len() == self.entries.capacity() {
            self.make_index();
        }
        let rises = self.rises && may_follow(self.entries.as_slice(), entry);
        push(&mut self.entries, entry)?;
        note(&mut self.index, entry);
        self.rises = rises;
        Ok(())
    }

    /// Lets the entries go that are due in tick `now` or before it.
    pub(crate) fn drop_due(&mut self, now: u32)
        requires apart { are_apart (stored self.old) ≡ true }
        ensures entries { stored self.new ≡ filter (λ e. not (is_due now e)) (stored self.old) }
        ensures room { spare_in self.old ≤ spare_in self.new }
    {
        forget_due(&mut self.index, self.entries.as_slice(), self.rises, now);
        drop_entries(&mut self.entries, self.rises, now);
        self.rises = are_rising(self.entries.as_slice(), self.rises);
    }
}
