//! The scheduled water ticks of a chunk.
ghost use Rattle.std.specs.Prelude.{◌≡◌, ◌<◌, ◌≤◌, ◌+◌, [], ◌∷◌, ◌++◌, ◌↔◌, filter, take, length, not, false, true, IsTrue, IsOk, IfOk, OnOk, OnErr, IfErr, if◌then◌else◌};
ghost use Rattle.av_types.specs.declared.fault.Fault.TheVariants.{OutOfMemory};
ghost use Rattle.std.specs.Int.{int_min};
ghost use Rattle.std.specs.List.{list_any};
ghost use Rattle.av_ticks.specs.Entries.{are_apart, is_due, is_pending, least_due};
ghost use Rattle.av_ticks.specs.Stored.{stored, spare_in};

use crate::store::Store;
use av_types::{Entry, Fault, Pos};
use std::alloc::{AllocError, Global};
use std::slice;

/// A list of scheduled water ticks, in the order in which they were added, at most one of a position.
/// A position that has one is pending.
#[derive(Drop)]
pub struct TickList {
    store: Store,

    /// The least time of an entry, and the greatest of all times where there is none.
    soonest: i64,
    pub ghost apart: { are_apart (stored store) ≡ true },
    ghost least: { soonest ≡ least_due (stored store) },
}

/// Appends the entry of a position that is not pending, where there is room.
fn put(store: &mut Store, entry: Entry)
    requires apart { are_apart (stored store.old) ≡ true }
    requires new { is_pending entry.pos (stored store.old) ≡ false }
    requires room { 0 < spare_in store.old }
    ensures entries { stored store.new ≡ stored store.old ++ entry ∷ [] }
    ensures spare { spare_in store.old ≤ spare_in store.new + 1 }
{
    let _ = store.add(entry);
}

/// The sooner of two times.
fn sooner(one: i64, other: i64) -> i64
    ensures { result ≡ int_min one other }
{
    if one <= other { one } else { other }
}

/// The entries that are due in a tick or before it, in the order in which they stand.
fn find_due(alloc: Global, entries: &[Entry], now: u32) -> Result<Vec<Entry>, AllocError>
    ensures { IfOk result (λ due. due.items ≡ filter (is_due now) entries.now) }
{
    let now = i64::from(now);
    entries
        .iter()
        .copied()
        .filter(|entry| entry.due <= now)
        .collect(alloc)
}

impl TickList {
    ghost use Rattle.std.specs.Slice.Iter.{iter_rest};
    ghost use Rattle.std.specs.Iterator.Adapters.{IterYieldsInOrder};
    ghost use Rattle.av_types.specs.declared.tick.Entry.{Entry};
    ghost use Rattle.av_ticks.specs.Entries.{due_order};
    ghost use Rattle.av_types.specs.Order.{ordered};
    ghost use Rattle.av_ticks.specs.Ticks.{entries, room};

    /// An empty list.
    pub fn new(alloc: Global) -> TickList
        ensures { entries result ≡ [] }
    {
        TickList {
            store: Store::new(alloc),
            soonest: i64::MAX,
        }
    }

    /// How many entries there are.
    pub fn len(&self) -> usize
        ensures { result ≡ length (entries self.now) }
    {
        self.as_slice().len()
    }

    /// Whether there is none.
    pub fn is_empty(&self) -> bool
        ensures { IsTrue result ↔ (entries self.now ≡ []) }
    {
        self.as_slice().is_empty()
    }

    /// The entries, one after the other, in order.
    pub fn iter(&self) -> slice::Iter<'_, Entry>
        ensures rest { iter_rest result ≡ entries self.now }
        ensures runs { IterYieldsInOrder Entry }
    {
        self.as_slice().iter()
    }

    /// The entries, in order.
    pub fn as_slice(&self) -> &[Entry]
        ensures { result.now ≡ entries self.now }
    {
        self.store.as_slice()
    }

    /// A beginning of the list that has all entries that are due in tick `now` or before it. It has no others where no entry is
    /// due before the one that it follows, as in the lists of water that runs: then the list is not gone through to find them.
    pub fn due_part(&self, now: u32) -> &[Entry]
        ensures due { filter (is_due now) result.now ≡ filter (is_due now) (entries self.now) }
        ensures begins { result.now ≡ take (length result.now) (entries self.now) }
    {
        self.store.due_part(now)
    }

    /// Whether an entry of a position is there.
    pub fn has(&self, pos: Pos) -> bool
        ensures { result ≡ is_pending pos (entries self.now) }
    {
        self.store.has(pos)
    }

    /// The least time of an entry, and the greatest of all times where there is none.
    pub fn soonest(&self) -> i64
        ensures { result ≡ least_due (entries self.now) }
    {
        self.soonest
    }

    /// Whether an entry is due in tick `now` or before it.
    pub fn has_due(&self, now: u32) -> bool
        ensures { result ≡ list_any (is_due now) (entries self.now) }
    {
        self.soonest <= i64::from(now)
    }

    /// Appends an entry, unless its position is pending, and answers whether it did: false leaves the list as it was.
    /// Refuses with OutOfMemory alone, and then the list is as it was.
    pub fn add(&mut self, entry: Entry) -> Result<bool, Fault>
        ensures added { IfOk result (λ added. added
            ≡ not (is_pending entry.pos (entries self.old))) }
        ensures entries { IfOk result (λ added. entries self.new
            ≡ (if added then entries self.old ++ entry ∷ [] else entries self.old)) }
        ensures memory { IfErr result (λ e. e ≡ OutOfMemory) }
        ensures unchanged { OnErr result (entries self.new ≡ entries self.old) }

        // Where the position is pending it succeeds, and with room; and it uses up at most one place.
        ensures pending { is_pending entry.pos (entries self.old) ≡ true → IsOk result }
        ensures succeeds { 0 < room self.old → IsOk result }
        ensures room { room self.old ≤ room self.new + 1 }
    {
        if self.has(entry.pos) {
            return Ok(false);
        }
        self.store.add(entry)?;
        self.soonest = sooner(self.soonest, entry.due);
        Ok(true)
    }

    /// Appends an entry of a position that is not pending, where there is room, whatever memory there is.
    pub fn add_new(&mut self, entry: Entry)
        requires new { is_pending entry.pos (entries self.old) ≡ false }
        requires room { 0 < room self.old }
        ensures entries { entries self.new ≡ entries self.old ++ entry ∷ [] }
        ensures room { room self.old ≤ room self.new + 1 }
    {
        put(&mut self.store, entry);
        self.soonest = sooner(self.soonest, entry.due);
    }

    /// Makes room for so many more entries, so that as many calls of `add_new` or `add` can't want memory. The entries stay.
    /// Refuses with OutOfMemory alone.
    pub fn reserve(&mut self, additional: usize) -> Result<(), Fault>
        ensures entries { entries self.new ≡ entries self.old }
        ensures ok { OnOk result (additional ≤ room self.new) }
        ensures memory { IfErr result (λ e. e ≡ OutOfMemory) }
        ensures succeeds { additional ≤ room self.old → IsOk result }
        ensures room { room self.old ≤ room self.new }
    {
        self.store.reserve(additional)?;
        Ok(())
    }

    /// Makes room as `reserve` does, for a list that is asked for positions: where its entries become many it gets an
    /// index of these, if there is memory for one, so that `has` stays fast. The entries stay. Refuses with OutOfMemory alone.
    pub fn reserve_indexed(&mut self, additional: usize) -> Result<(), Fault>
        ensures entries { entries self.new ≡ entries self.old }
        ensures ok { OnOk result (additional ≤ room self.new) }
        ensures memory { IfErr result (λ e. e ≡ OutOfMemory) }
        ensures succeeds { additional ≤ room self.old → IsOk result }
        ensures room { room self.old ≤ room self.new }
    {
        self.store.reserve_indexed(additional)?;
        Ok(())
    }

    /// The entries that are due in tick `now` or before it, by their time, then by their priority, the lower first,
    /// then by their order in the list. They stay in it. Refuses with OutOfMemory alone, and of an empty list never.
    pub fn take_due(&self, now: u32) -> Result<Vec<Entry>, Fault>
        ensures ok { IfOk result (λ due. due.items
            ≡ ordered due_order (filter (is_due now) (entries self.now))) }
        ensures memory { IfErr result (λ e. e ≡ OutOfMemory) }
        ensures empty { entries self.now ≡ [] → IsOk result }
    {
        let alloc = self.store.allocator();
        if self.is_empty() {
            return Ok(Vec::new(alloc));
        }
        let mut due = find_due(alloc, self.due_part(now), now)?;
        due.sort_by_key(|entry| (entry.due, entry.priority))?;
        Ok(due)
    }

    /// Takes out the entries that are due in tick `now` or before it, which are those of `take_due`.
    /// The others keep their order. It takes no memory.
    pub fn drop_due(&mut self, now: u32)
        ensures entries { entries self.new ≡ filter (λ e. not (is_due now e)) (entries self.old) }
        ensures room { room self.old ≤ room self.new }
    {
        self.store.drop_due(now);
        self.soonest = self.store.soonest();
    }
}
