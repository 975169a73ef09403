//! The parts of a tick.
ghost use Rattle.std.specs.Prelude.{◌≡◌, ◌<◌, ◌≤◌, ◌+◌, ◌++◌, ◌∷◌, [], Some, true, ℕ, IsTrue, OnOk, IfOk, IfErr, length, All, slice_set, slice_index, slice_index_or, vec_len};
ghost use Rattle.std.specs.Map.{keys_of};
ghost use Rattle.av_types.specs.declared.fault.Fault.TheVariants.{OutOfMemory};
ghost use Rattle.av_types.specs.declared.tick.Entry.{Entry};
ghost use Rattle.av_world.specs.Views.{blocks};
ghost use Rattle.av_cluster.specs.Forest.{first, IsFalling, AreSame};
ghost use Rattle.av_cluster.specs.Gathering.{IsGathered, AreAlone};
ghost use Rattle.av_cluster.specs.Clusters.{parts_of, sections_of, IsGiven, AreBare, AreShared, AreOnce, ArePlanned};
ghost use Rattle.av_types.specs.declared.position.SectionPos.{SectionPos};
ghost use Rattle.av_types.specs.Positions.{section_of, is_section_of};
ghost use Rattle.av_cluster.specs.Joining.{owner_in, IsTouchedIf, IsNoted, IsBefore};

use crate::cluster_part::Cluster;
use crate::forest::{find, join};
use crate::owners::{Owners, of_key};
use crate::territories::{corners, meet_same_sections, reach_index};
use av_cells::Cells;
use av_play::DueEntry;
use av_types::{Entry, Fault, Height, Pos, SectionPos};
use av_world::World;
use std::alloc::{AllocError, Global};

/// The most parts that a plan can have: their numbers fit a `u32`.
const MOST: usize = 4_294_967_295;

/// For how many sections of a part room is made at once: those of one turn are at most 8.
const LIKELY_IN_PART: usize = 16;

/// Whether a section's number is in the height.
fn is_high(height: Height, section: SectionPos) -> bool
    ensures { result ≡ is_section_of height section.y }
{
    height.has_section(section.y)
}

/// Notes that the entry at an index touches the section of a block of its reach, where that is loaded. One out of the
/// height is not. A section with an owner is loaded, and only one without is asked for.
fn touch(
    world: &World,
    owners: &mut Owners,
    parents: &mut [usize],
    block: Pos,
    index: usize,
) -> Result<(), AllocError>
    requires falling { IsFalling parents.old }
    requires index { index < length parents.old }
    requires owner { (k : ℕ) → owner_in owners.old.entries.items (section_of block) ≡ Some k
        → k < length parents.old }
    requires loaded { (k : ℕ) → owner_in owners.old.entries.items (section_of block) ≡ Some k
        → (blocks world.now).loaded block ≡ true }
    ensures { OnOk result (IsTouchedIf ((blocks world.now).loaded block) parents.old parents.new
        (owner_in owners.old.entries.items) (owner_in owners.new.entries.items)
        (section_of block) index) }
{
    let section = block.section();
    if !is_high(world.height(), section) {
        return Ok(());
    }
    if let Some(owner) = owners.owner(section) {
        join(parents, owner, index);
        return Ok(());
    }
    if !world.loaded(block) {
        return Ok(());
    }
    owners.add(section, index)?;
    Ok(())
}

/// Notes that the entry at an index touches the sections of its territory.
fn touch_all(
    world: &World,
    entries: &[Entry],
    index: usize,
    owners: &mut Owners,
    parents: &mut [usize],
) -> Result<(), AllocError>
    requires index { index < length entries.now }
    requires loaded { All (λ e. IsTrue ((blocks world.now).loaded e.pos)) entries.now }
    requires noted { IsNoted (blocks world.now) entries.now parents.old
        (owner_in owners.old.entries.items) (IsBefore (blocks world.now) entries.now index) }
    ensures { OnOk result (IsNoted (blocks world.now) entries.now parents.new
        (owner_in owners.new.entries.items) (IsBefore (blocks world.now) entries.now (index + 1))) }
{
    let corners = corners(entries[index].pos);
    for corner in corners.as_slice() {
        touch(world, owners, parents, *corner, index)?;
    }
    Ok(())
}

/// Notes that the entry at an index touches the sections of its territory. Where these are the sections of an entry
/// before it, as was noted, the two are joined, and no section is looked up. The last entries stand by `reach_index`.
fn touch_next(
    world: &World,
    entries: &[Entry],
    index: usize,
    owners: &mut Owners,
    near: &mut [usize; 256],
    parents: &mut [usize],
) -> Result<(), AllocError>
    requires index { index < length entries.now }
    requires loaded { All (λ e. IsTrue ((blocks world.now).loaded e.pos)) entries.now }
    requires noted { IsNoted (blocks world.now) entries.now parents.old
        (owner_in owners.old.entries.items) (IsBefore (blocks world.now) entries.now index) }
    ensures { OnOk result (IsNoted (blocks world.now) entries.now parents.new
        (owner_in owners.new.entries.items) (IsBefore (blocks world.now) entries.now (index + 1))) }
{
    let slot = reach_index(entries[index].pos);
    let before = near[slot];
    near[slot] = index;
    if before >= index {
        return touch_all(world, entries, index, owners, parents);
    }
    if !meet_same_sections(entries[before].pos, entries[index].pos) {
        return touch_all(world, entries, index, owners, parents);
    }
    join(parents, before, index);
    Ok(())
}

/// Joins the entries that share a section.
fn connect(
    world: &World,
    entries: &[Entry],
    owners: &mut Owners,
    parents: &mut [usize],
) -> Result<(), AllocError>
    requires loaded { All (λ e. IsTrue ((blocks world.now).loaded e.pos)) entries.now }
    requires noted { IsNoted (blocks world.now) entries.now parents.old
        (owner_in owners.old.entries.items) (IsBefore (blocks world.now) entries.now 0) }
    ensures { OnOk result (IsNoted (blocks world.now) entries.now parents.new
        (owner_in owners.new.entries.items) (IsBefore (blocks world.now) entries.now
        (length entries.now))) }
{
    let mut near = [0; 256];
    for index in 0..entries.len() {
        touch_next(world, entries, index, owners, &mut near, parents)?;
    }
    Ok(())
}

/// So many indices, each alone in its group.
fn alone(alloc: Global, count: usize) -> Result<Vec<usize>, AllocError>
    ensures { IfOk result (λ ps. AreAlone ps.items count) }
{
    let mut parents = Vec::with_capacity(alloc, count)?;
    for index in 0..count {
        parents.push(index)?;
    }
    Ok(parents)
}

/// Begins a part, with room for as many entries as the parts before it have on average.
fn begin(clusters: &mut Vec<Cluster>, due: DueEntry) -> Result<(), AllocError>
    ensures parts { OnOk result (parts_of clusters.new.items
        ≡ parts_of clusters.old.items ++ (due ∷ []) ∷ []) }
    ensures bare { OnOk result (sections_of clusters.new.items
        ≡ sections_of clusters.old.items ++ [] ∷ []) }
{
    let alloc = *clusters.allocator();
    let usual = due.index as usize / clusters.len().max(1);
    let mut entries = Vec::with_capacity(alloc, usual.max(1))?;
    entries.push(due)?;
    let sections = Vec::with_capacity(alloc, LIKELY_IN_PART)?;
    clusters.push(Cluster { entries, sections })?;
    Ok(())
}

/// Appends an entry to a part.
fn put(clusters: &mut Vec<Cluster>, number: usize, due: DueEntry) -> Result<(), AllocError>
    requires { number < length (parts_of clusters.old.items) }
    ensures parts { OnOk result (parts_of clusters.new.items
        ≡ slice_set (parts_of clusters.old.items) number
        (slice_index_or (parts_of clusters.old.items) number [] ++ due ∷ [])) }
    ensures bare { OnOk result (sections_of clusters.new.items ≡ sections_of clusters.old.items) }
{
    let cluster = &mut clusters[number];
    cluster.entries.push(due)?;
    Ok(())
}

/// Appends a section to a part.
fn own(clusters: &mut Vec<Cluster>, number: usize, section: SectionPos) -> Result<(), AllocError>
    requires { number < length (parts_of clusters.old.items) }
    ensures parts { OnOk result (parts_of clusters.new.items ≡ parts_of clusters.old.items) }
    ensures sections { OnOk result (sections_of clusters.new.items
        ≡ slice_set (sections_of clusters.old.items) number
        (slice_index_or (sections_of clusters.old.items) number [] ++ section ∷ [])) }
{
    let cluster = &mut clusters[number];
    cluster.sections.push(section)?;
    Ok(())
}

/// Puts one more entry into its part.
fn gather_one(
    entries: &[Entry],
    index: usize,
    parents: &mut [usize],
    numbers: &mut Vec<usize>,
    clusters: &mut Vec<Cluster>,
) -> Result<(), AllocError>
    requires index { index < length entries.now }
    requires falling { IsFalling parents.old }
    requires count { length parents.old ≡ length entries.now }
    requires gathered { IsGathered entries.now (first parents.old) index numbers.old.items
        (parts_of clusters.old.items) }
    ensures same { OnOk result (AreSame parents.old parents.new) }
    ensures bare { OnOk result (AreBare (sections_of clusters.old.items)
        → AreBare (sections_of clusters.new.items)) }
    ensures gathered { OnOk result (IsGathered entries.now (first parents.old)
        (index + 1) numbers.new.items (parts_of clusters.new.items)) }
{
    let due = DueEntry {
        index: index as u64,
        entry: entries[index],
    };
    let first = find(parents, index);
    if first == index {
        numbers.push(clusters.len())?;
        begin(clusters, due)?;
        return Ok(());
    }
    let number = numbers[first];
    numbers.push(number)?;
    put(clusters, number, due)?;
    Ok(())
}

/// Puts the entries into parts, by their groups, and notes the number of each one's part.
fn gather(
    entries: &[Entry],
    parents: &mut [usize],
    numbers: &mut Vec<usize>,
    clusters: &mut Vec<Cluster>,
) -> Result<(), AllocError>
    requires falling { IsFalling parents.old }
    requires count { length parents.old ≡ length entries.now }
    requires gathered { IsGathered entries.now (first parents.old) 0 numbers.old.items
        (parts_of clusters.old.items) }
    ensures bare { OnOk result (AreBare (sections_of clusters.old.items)
        → AreBare (sections_of clusters.new.items)) }
    ensures gathered { OnOk result (IsGathered entries.now (first parents.old)
        (length entries.now) numbers.new.items (parts_of clusters.new.items)) }
{
    for index in 0..entries.len() {
        gather_one(entries, index, parents, numbers, clusters)?;
    }
    Ok(())
}

/// Gives a section to the part of its owner.
fn give(
    numbers: &[usize],
    section: SectionPos,
    owner: usize,
    clusters: &mut Vec<Cluster>,
) -> Result<(), AllocError>
    requires owner { owner < length numbers.now }
    requires numbers { (k : ℕ) → k < length numbers.now
        → slice_index numbers.now k < length (parts_of clusters.old.items) }
    ensures parts { OnOk result (parts_of clusters.new.items ≡ parts_of clusters.old.items) }
    ensures sections { OnOk result (IsGiven (Some owner) numbers.now section
        (sections_of clusters.old.items) (sections_of clusters.new.items)) }
{
    own(clusters, numbers[owner], section)
}

/// Gives each part its sections.
fn share(owners: &Owners, numbers: &[usize], clusters: &mut Vec<Cluster>) -> Result<(), AllocError>
    requires numbers { (k : ℕ) → k < length numbers.now
        → slice_index numbers.now k < length (parts_of clusters.old.items) }
    requires owners { (s : SectionPos) (k : ℕ) → owner_in owners.now.entries.items s ≡ Some k
        → k < length numbers.now }
    requires bare { AreBare (sections_of clusters.old.items) }
    ensures parts { OnOk result (parts_of clusters.new.items ≡ parts_of clusters.old.items) }
    ensures sections { OnOk result (AreShared (owner_in owners.now.entries.items) numbers.now
        (keys_of owners.now.entries.items) (sections_of clusters.new.items)) }
    ensures once { OnOk result (AreOnce (sections_of clusters.new.items)) }
{
    for entry in owners.entries() {
        let (key, owner) = *entry;
        give(numbers, of_key(key), owner, clusters)?;
    }
    Ok(())
}

/// The plan of a tick's entries, whose blocks are loaded: two entries are in one part exactly if a chain of entries
/// links them, each sharing a section of its territory with the next. The parts stand in the order of their first
/// entries, and the entries of a part in the tick's order.
///
/// # Errors
/// `OutOfMemory`, also where there are more than 4,294,967,295 parts.
pub fn plan(alloc: Global, world: &World, entries: &[Entry]) -> Result<Vec<Cluster>, Fault>
    requires loaded { All (λ e. IsTrue ((blocks world.now).loaded e.pos)) entries.now }
    ensures planned { IfOk result (λ clusters. ArePlanned
        (blocks world.now) entries.now clusters.items) }
    ensures count { IfOk result (λ clusters. vec_len clusters ≤ 4294967295) }
    ensures memory { IfErr result (λ e. e ≡ OutOfMemory) }
{
    let mut owners = Owners::with_room(alloc, entries.len())?;
    let mut parents = alone(alloc, entries.len())?;
    let groups = parents.as_mut_slice();
    connect(world, entries, &mut owners, groups)?;
    let mut numbers = Vec::with_capacity(alloc, entries.len())?;
    let mut clusters = Vec::new(alloc);
    gather(entries, groups, &mut numbers, &mut clusters)?;
    share(&owners, numbers.as_slice(), &mut clusters)?;
    if clusters.len() > MOST {
        return Err(Fault::OutOfMemory);
    }
    Ok(clusters)
}
