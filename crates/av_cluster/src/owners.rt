//! The sections that a tick's entries touch, and the first index that touched each.
ghost use Rattle.std.specs.Prelude.{◌≡◌, ◌<◌, [], None, Some, OnOk, OnErr, IfOk, if◌then◌else◌};
ghost use Rattle.std.specs.BTreeMap.{get};
ghost use Rattle.std.specs.List.{IsDistinct};
ghost use Rattle.std.specs.Map.{keys_of};
ghost use Rattle.av_types.specs.declared.position.SectionPos.{SectionPos};
ghost use Rattle.av_cluster.specs.Indices.{key_cmp, slot_of, index_in, AreSlots};
ghost use Rattle.av_cluster.specs.Joining.{key_of, same_key, owner_in};
ghost use Rattle.std.proofs.Props.{props};

use av_types::SectionPos;
use std::alloc::{AllocError, Global};
use std::collections::BTreeMap;

/// For how many sections room is made at once: about 100 KB.
const LIKELY: usize = 4096;

/// For how many entries there are slots at the most: 2 MB of them.
const MOST_SLOTTED: usize = 65_536;

/// The first index that touched each section, in the order in which the sections were first touched.
///
/// A slot leads to the first section that fell there, and a tree to the others. So most are found at once, and one of many
/// that a file chooses to share a slot by a search of the tree.
#[derive(Drop)]
pub(crate) struct Owners {
    entries: Vec<((i32, i32, i32), usize)>,

    /// Of each slot, one more than where its first section stands, or 0.
    slots: Vec<usize>,

    /// Where each other section stands.
    others: BTreeMap<(i32, i32, i32), usize>,
    ghost slotted: { AreSlots slots.items (get key_cmp others) entries.items } by { Prim.hlevel props },
}

/// The key of a section.
fn key(section: SectionPos) -> (i32, i32, i32)
    ensures { result ≡ key_of section }
{
    (section.x, section.y, section.z)
}

/// The section of a key.
pub(crate) fn of_key(key: (i32, i32, i32)) -> SectionPos
    ensures { key_of result ≡ key }
{
    let (x, y, z) = key;
    SectionPos { x, y, z }
}

/// The slot of a section, among so many. Sections near each other mostly have each another one.
fn slot(count: usize, section: SectionPos) -> usize
    requires { 0 < count }
    ensures value { result ≡ slot_of count (key_of section) }
    ensures bound { result < count }
{
    let x = u64::from(section.x.cast_unsigned());
    let y = u64::from(section.y.cast_unsigned());
    let z = u64::from(section.z.cast_unsigned());
    ((x + z * 64 + y * 4096) % count as u64) as usize
}

impl Owners {
    /// None, with room for as many as some entries are likely to have.
    pub(crate) fn with_room(alloc: Global, entries: usize) -> Result<Self, AllocError>
        ensures { IfOk result (λ owners. owners.entries.items ≡ []) }
    {
        let slots = entries.min(MOST_SLOTTED) * 4 + 1;
        Ok(Owners {
            entries: Vec::with_capacity(alloc, entries.min(LIKELY))?,
            slots: vec![in alloc; 0; slots]?,
            others: BTreeMap::new(alloc),
        })
    }

    /// The keys of the sections, each once, with their owners.
    pub(crate) fn entries(&self) -> &[((i32, i32, i32), usize)]
        ensures entries { result.now ≡ self.now.entries.items }
        ensures distinct { IsDistinct same_key (keys_of self.now.entries.items) }
    {
        self.entries.as_slice()
    }

    /// Where a section stands, if it has an owner.
    fn index(&self, section: SectionPos) -> Option<usize>
        ensures { result ≡ index_in self.now.slots.items (keys_of self.now.entries.items)
            (get key_cmp self.now.others) (key_of section) }
    {
        let next = self.slots[slot(self.slots.len(), section)];
        if next == 0 {
            return None;
        }
        let (known, _) = self.entries[next - 1];
        if of_key(known) == section {
            return Some(next - 1);
        }
        self.others.get(&key(section)).copied()
    }

    /// The owner of a section, if it has one.
    pub(crate) fn owner(&self, section: SectionPos) -> Option<usize>
        ensures { result ≡ owner_in self.now.entries.items section }
    {
        let index = self.index(section)?;
        let (_, owner) = self.entries[index];
        Some(owner)
    }

    /// Notes the owner of a section that has none. Where memory is wanted all is as it was.
    pub(crate) fn add(&mut self, section: SectionPos, owner: usize) -> Result<(), AllocError>
        requires { owner_in self.old.entries.items section ≡ None }
        ensures ok { OnOk result ((s : SectionPos)
            → owner_in self.new.entries.items s ≡ (if same_key (key_of section) (key_of s)
            then Some owner else owner_in self.old.entries.items s)) }
        ensures err { OnErr result (self.new.entries.items ≡ self.old.entries.items) }
    {
        let key = key(section);
        let slot = slot(self.slots.len(), section);
        let last = self.entries.len();
        self.entries.reserve(1)?;
        if self.slots[slot] == 0 {
            self.slots[slot] = last + 1;
            self.entries.push((key, owner))?;
            return Ok(());
        }
        self.others.insert(key, last)?;
        self.entries.push((key, owner))?;
        Ok(())
    }
}
