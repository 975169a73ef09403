//! The entries of a tick cut into groups.
ghost use Rattle.std.specs.Prelude.{◌≡◌, ◌<◌, ◌≤◌, [], List, length, All, IfOk, OnOk, IsTrue};
ghost use Rattle.std.specs.List.{list_any};
ghost use Rattle.av_types.specs.declared.tick.Entry.{Entry};
ghost use Rattle.av_cells.specs.Positions.{same_chunk};
ghost use Rattle.av_land.specs.Land.{has_chunk};
ghost use Rattle.av_world.specs.Lands.{land_of};
ghost use Rattle.av_world.specs.Views.{positions_of, blocks};
ghost use Rattle.av_groups.specs.Exact.{AreExact};
ghost use Rattle.av_groups.specs.Groups.{AreGroups};
ghost use Rattle.av_groups.specs.Open.{IsOpen, IsTouched, IsCovered, AreKept, AreNoted, IsGathered, AreClosed, chunks_in, chunks_in_reach};
ghost use Rattle.av_groups.specs.Parts.{StaysIn};

use crate::corners::{Reach, chunks_of, reach_of};
use crate::groups::{Group, Groups, Touch};
use crate::noting::{Noted, is_noted, none_noted, slot_of};
use crate::stretches::stretch_end;
use av_types::{ChunkPos, Entry};
use av_world::World;
use std::alloc::{AllocError, Global};

/// What is known of each chunk.
#[derive(Drop)]
struct Marks {
    /// For each chunk of the world one more than the number of the last group that touches it, and 0 where none does.
    last: Vec<usize>,

    /// Where chunks stand among those that the open group touches, by their x modulo 8 and z modulo 4. A look-up checks it.
    near: [usize; 32],
}

/// A chunk's slot in `near`: those that a group touches have each another one.
fn near_index(chunk: ChunkPos) -> usize
    ensures { result < 32 }
{
    chunk.x.rem_euclid(8) as usize + 8 * (chunk.z.rem_euclid(4) as usize)
}

/// Whether a chunk is touched. It may be at this index.
fn is_touched(touches: &[Touch], near: usize, chunk: ChunkPos) -> bool
    ensures { result ≡ list_any (λ touch. same_chunk touch.chunk chunk) touches.now }
{
    if near < touches.len() && touches[near].chunk == chunk {
        return true;
    }
    touches.iter().any(|touch| touch.chunk == chunk)
}

/// The open group touches a chunk, where it is there.
fn touch(
    world: &World,
    closed: &[Group],
    marks: &mut Marks,
    touches: &mut Vec<Touch>,
    chunk: ChunkPos,
) -> Result<(), AllocError>
    requires { IsOpen (positions_of world.now) closed.now marks.old.last.items touches.old.items }
    ensures gathered { OnOk result (IsOpen (positions_of world.now) closed.now
        marks.new.last.items touches.new.items) }
    ensures touched { OnOk result (IsTouched (positions_of world.now)
        touches.old.items touches.new.items chunk) }
{
    let near = near_index(chunk);
    if is_touched(touches.as_slice(), marks.near[near], chunk) {
        return Ok(());
    }
    let Some(index) = world.index_of(chunk) else {
        return Ok(());
    };
    marks.near[near] = touches.len();
    touches.push(Touch {
        chunk,
        index,
        before: marks.last[index],
    })?;
    marks.last[index] = closed.len() + 1;
    Ok(())
}

/// The open group touches chunks, where they are there.
fn touch_all(
    world: &World,
    closed: &[Group],
    marks: &mut Marks,
    touches: &mut Vec<Touch>,
    chunks: &[ChunkPos],
) -> Result<(), AllocError>
    requires { IsOpen (positions_of world.now) closed.now marks.old.last.items touches.old.items }
    ensures gathered { OnOk result (IsOpen (positions_of world.now) closed.now
        marks.new.last.items touches.new.items) }
    ensures touched { OnOk result (All (IsTouched (positions_of world.now)
        touches.old.items touches.new.items) chunks.now) }
{
    for chunk in chunks {
        touch(world, closed, marks, touches, *chunk)?;
    }
    Ok(())
}

/// The open group touches the chunks of a reach, where they are there. Most entries have a reach that was noted.
fn touch_reach(
    world: &World,
    closed: &[Group],
    marks: &mut Marks,
    touches: &mut Vec<Touch>,
    noted: &mut Noted,
    reach: Reach,
) -> Result<(), AllocError>
    requires gathered { IsOpen (positions_of world.now) closed.now marks.old.last.items touches.old.items }
    requires noted { AreNoted (positions_of world.now) touches.old.items noted.old }
    ensures gathered { OnOk result (IsOpen (positions_of world.now) closed.now
        marks.new.last.items touches.new.items) }
    ensures noted { OnOk result (AreNoted (positions_of world.now) touches.new.items noted.new) }
    ensures covered { OnOk result (All (IsCovered (positions_of world.now) touches.new.items)
        (chunks_in_reach reach)) }
    ensures kept { OnOk result (AreKept touches.old.items touches.new.items) }
{
    let slot = slot_of(reach);
    if is_noted(noted[slot], reach) {
        return Ok(());
    }
    let chunks = chunks_of(reach);
    touch_all(world, closed, marks, touches, chunks.as_slice())?;
    noted[slot] = Some(reach);
    Ok(())
}

/// For each chunk of the world 0: no group touches it yet.
fn untouched(alloc: Global, world: &World) -> Result<Vec<usize>, AllocError>
    ensures { IfOk result (λ last. (entries : List Entry)
        → AreClosed (land_of world.now) entries 0 [] last.items) }
{
    Vec::from_elem(alloc, 0, world.positions().len())
}

/// The open group touches the chunks of the reaches of some entries, where they are there.
fn touch_entries(
    world: &World,
    closed: &[Group],
    marks: &mut Marks,
    touches: &mut Vec<Touch>,
    entries: &[Entry],
) -> Result<(), AllocError>
    requires loaded { All (λ e. IsTrue ((blocks world.now).loaded e.pos)) entries.now }
    requires gathered { IsOpen (positions_of world.now) closed.now marks.old.last.items touches.old.items }
    ensures gathered { OnOk result (IsOpen (positions_of world.now) closed.now
        marks.new.last.items touches.new.items) }
    ensures stay { OnOk result (All (StaysIn (land_of world.now)
        (has_chunk (chunks_in touches.new.items))) entries.now) }
{
    let mut noted = none_noted();
    for entry in entries {
        let reach = reach_of(entry.pos);
        touch_reach(world, closed, marks, touches, &mut noted, reach)?;
    }
    Ok(())
}

/// What a group of these entries touches, behind the groups that are closed. It is gathered in a list that all groups use, so that it
/// seldom grows, and copied to one without more room than it needs.
fn touches_of(
    alloc: Global,
    world: &World,
    closed: &[Group],
    marks: &mut Marks,
    gathered: &mut Vec<Touch>,
    entries: &[Entry],
) -> Result<Vec<Touch>, AllocError>
    requires loaded { All (λ e. IsTrue ((blocks world.now).loaded e.pos)) entries.now }
    requires none { IsOpen (positions_of world.now) closed.now marks.old.last.items [] }
    ensures { IfOk result (λ touches. IsGathered (land_of world.now) closed.now
        marks.new.last.items entries.now touches.items) }
{
    gathered.clear();
    touch_entries(world, closed, marks, gathered, entries)?;
    let touches = Vec::from_slice(alloc, gathered.as_slice())?;
    Ok(touches)
}

/// The entries of a tick in groups, in their order. A new group begins where the tile changes: where an entry lies in another
/// tile of chunks than the entry before it. The entries stay where they are, and groups name stretches of them.
///
/// # Errors
/// Where memory is refused.
pub fn cut(alloc: Global, world: &World, entries: Vec<Entry>) -> Result<Groups, AllocError>
    requires { All (λ e. IsTrue ((blocks world.now).loaded e.pos)) entries.items }
    ensures entries { IfOk result (λ cut. cut.entries ≡ entries) }
    ensures groups { IfOk result (AreGroups (land_of world.now)) }
    ensures exact { IfOk result (λ cut. AreExact (land_of world.now) cut.groups.items
        cut.last.items) }
{
    let mut groups = Vec::new(alloc);
    let mut gathered = Vec::new(alloc);
    let last = untouched(alloc, world)?;
    let mut marks = Marks {
        last,
        near: [0; 32],
    };
    let all = entries.as_slice();
    let mut from = 0;
    while from < all.len() {
        let to = stretch_end(all, from);
        let closed = groups.as_slice();
        let stretch = &all[from..to];
        let touches = touches_of(alloc, world, closed, &mut marks, &mut gathered, stretch)?;
        groups.push(Group { from, to, touches })?;
        from = to;
    }
    Ok(Groups {
        entries,
        groups,
        last: marks.last,
    })
}
