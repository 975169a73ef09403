//! Entries that are due.
ghost use Rattle.std.specs.Prelude.{◌≡◌, ◌≤◌, ◌++◌, ◌||◌, ◌⊎◌, nat_eq, true, false, not, filter, OnOk, OnErr, IfOk, IfErr, if◌then◌else◌};
ghost use Rattle.std.specs.List.{flat_map};
ghost use Rattle.av_types.specs.declared.fault.Fault.TheVariants.{OutOfMemory, Broken};
ghost use Rattle.av_types.specs.declared.position.SectionPos.{SectionPos};
ghost use Rattle.av_ticks.specs.Entries.{is_due};
ghost use Rattle.av_ticks.specs.Ticks.{entries};
ghost use Rattle.av_land.specs.Tick.{due_entries, without_due};
ghost use Rattle.av_world.specs.Changes.{SameNumbers};
ghost use Rattle.av_world.specs.Due.{at_least, is_reached, tick_of};
ghost use Rattle.av_world.specs.Lands.{land_of, IsUncarved};
ghost use Rattle.av_world.specs.Views.{sections, blocks, lists, site, is_broken, chunks_of, IsWorldKept};

use crate::chunks::leave_in;
use crate::worlds::World;
use av_ticks::TickList;
use av_types::{Entry, Fault};
use std::alloc::AllocError;

/// Appends the entries that are due.
fn push_due(due: &mut Vec<Entry>, entries: &[Entry], now: u32) -> Result<(), AllocError>
    ensures { OnOk result (due.new.items ≡ due.old.items ++ filter (is_due now) entries.now) }
{
    let now = i64::from(now);
    for entry in entries {
        if entry.due <= now {
            due.push(*entry)?;
        }
    }
    Ok(())
}

/// Appends the entries of a list that are due. One with none is not gone through, nor what stands behind those that are due.
fn push_due_of(due: &mut Vec<Entry>, ticks: &TickList, now: u32) -> Result<(), AllocError>
    ensures { OnOk result (due.new.items ≡ due.old.items
        ++ filter (is_due now) (entries ticks.now)) }
{
    if !ticks.has_due(now) {
        return Ok(());
    }
    push_due(due, ticks.due_part(now), now)
}

/// How many entries of a list are due. One with none is not gone through, nor what stands behind those that are due.
fn due_in(ticks: &TickList, now: u32) -> usize {
    if !ticks.has_due(now) {
        return 0;
    }
    let due = ticks.due_part(now).iter();
    due.filter(|entry| entry.due <= i64::from(now)).count()
}

/// The tick of a time, 0 for one before all ticks.
fn tick_at(due: i64) -> u64
    ensures { result ≡ tick_of due }
{
    if due < 0 { 0 } else { due as u64 }
}

/// The tick in which an entry is due, 0 for one that is overdue.
fn tick_of(entry: &Entry) -> u64
    ensures { result ≡ tick_of entry.now.due }
{
    tick_at(entry.due)
}

/// The sooner of two ticks.
fn sooner(one: u64, other: u64) -> u64
    ensures one { result ≤ one }
    ensures other { result ≤ other }
    ensures either { (result ≡ one) ⊎ (result ≡ other) }
{
    if one < other { one } else { other }
}

/// The least tick of some entries, and at most this.
fn soonest_in(entries: &[Entry], most: u64) -> u64
    ensures low { result ≤ most }
    ensures none { at_least result entries.now ≡ true }
    ensures reached { (nat_eq result most || is_reached result entries.now) ≡ true }
{
    let mut soonest = most;
    for entry in entries {
        soonest = sooner(soonest, tick_of(entry));
    }
    soonest
}

/// The least tick of a list's entries, and at most this. The list is gone through only where its least time is the
/// greatest of all, as in an empty one.
fn soonest_of(ticks: &TickList, most: u64) -> u64
    ensures low { result ≤ most }
    ensures none { at_least result (entries ticks.now) ≡ true }
    ensures reached { (nat_eq result most || is_reached result (entries ticks.now)) ≡ true }
{
    let soonest = ticks.soonest();
    if soonest == i64::MAX {
        return soonest_in(ticks.as_slice(), most);
    }
    sooner(most, tick_at(soonest))
}

impl World {
    /// The first tick in which an entry of some list is due, 0 for one that is overdue, and `u64::MAX` where there is none.
    pub fn soonest(&self) -> u64
        ensures none { at_least result (flat_map (λ chunk. entries chunk.ticks)
            (chunks_of self.now)) ≡ true }
        ensures reached { (nat_eq result 18446744073709551615
            || is_reached result (flat_map (λ chunk. entries chunk.ticks) (chunks_of self.now))) ≡ true }
    {
        let mut soonest = u64::MAX;
        for chunk in &self.chunks {
            soonest = soonest_of(&chunk.ticks, soonest);
        }
        soonest
    }

    /// How many entries are due in tick `now` or before it, so that room for them is asked for at once. A list that grew from a few
    /// entries on would stay in the arena of the C library in which it began, which can be that of any thread that ran before, and
    /// from tick to tick leave its room behind in one after the other.
    fn count_due(&self, now: u32) -> usize {
        let mut count: usize = 0;
        for chunk in &self.chunks {
            count = count.saturating_add(due_in(&chunk.ticks, now));
        }
        count
    }

    /// The entries that are due in tick `now` or before it, in the order of the chunks and of their lists.
    fn find_due(&self, now: u32) -> Result<Vec<Entry>, AllocError>
        ensures { IfOk result (λ due. due.items ≡ flat_map
            (λ chunk. filter (is_due now) (entries chunk.ticks)) (chunks_of self.now)) }
    {
        let alloc = *self.positions.allocator();
        let mut due = Vec::with_capacity(alloc, self.count_due(now))?;
        for chunk in &self.chunks {
            push_due_of(&mut due, &chunk.ticks, now)?;
        }
        Ok(due)
    }

    /// The entries that are due in tick `now` or before it, by their time, then by their priority, the lower first, then by chunk
    /// (z, x) and by their order in the list. They stay in their lists.
    ///
    /// # Errors
    /// Where memory is refused.
    pub fn due(&self, now: u32) -> Result<Vec<Entry>, AllocError>
        ensures { IfOk result (λ due. due.items ≡ due_entries now (land_of self.now)) }
    {
        let mut due = self.find_due(now)?;
        due.sort_by_key(|entry| (entry.due, entry.priority))?;
        Ok(due)
    }

    /// Takes the entries that are due out of all lists. Their blocks are pending no longer.
    fn leave_all(&mut self, now: u32)
        ensures lists { lists self.new ≡ (λ c. filter (λ e. not (is_due now e))
            (lists self.old c)) }
        ensures site { site self.new ≡ site self.old }
        ensures numbers { (s : SectionPos) → SameNumbers (sections self.old s)
            (sections self.new s) }
    {
        for index in 0..self.chunks.len() {
            leave_in(&mut self.chunks[index], self.height, now);
        }
    }

    /// Takes the entries that are due in tick `now` or before it out of all lists. Their blocks are pending no longer. It takes no
    /// memory.
    pub fn leave_due(&mut self, now: u32)
        ensures left { land_of self.new ≡ without_due now (land_of self.old) }
        ensures loaded { (blocks self.new).loaded ≡ (blocks self.old).loaded }
        ensures site { site self.new ≡ site self.old }
    {
        self.leave_all(now);
    }

    /// Takes the entries that are due in tick `now` or before it out of all lists, and returns them by their time, then
    /// by their priority, the lower first, then by chunk (z, x) and by their order in the list. Their blocks are
    /// pending no longer.
    ///
    /// # Errors
    /// `Broken` of a broken world, and else `OutOfMemory`. Also then the world is as before, with what was prepared.
    pub fn take_due(&mut self, now: u32) -> Result<Vec<Entry>, Fault>
        ensures due { IfOk result (λ due. due.items ≡ due_entries now (land_of self.old)) }
        ensures left { OnOk result (land_of self.new ≡ without_due now (land_of self.old)) }
        ensures loaded { (blocks self.new).loaded ≡ (blocks self.old).loaded }
        ensures site { site self.new ≡ site self.old }
        ensures unbroken { OnOk result (is_broken self.old ≡ false) }
        ensures whole { IsUncarved self.old → IsUncarved self.new }
        ensures unchanged_land { OnErr result (land_of self.new ≡ land_of self.old) }
        ensures unchanged { OnErr result (blocks self.new ≡ blocks self.old) }
        ensures kept { OnErr result (IsWorldKept self.old self.new) }
        ensures err { IfErr result (λ e. e ≡ (if is_broken self.old then Broken else OutOfMemory)) }
    {
        if self.broken {
            return Err(Fault::Broken);
        }
        let due = self.due(now)?;
        self.leave_due(now);
        Ok(due)
    }
}
