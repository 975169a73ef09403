//! Room for the tags of a List before the first is read: what the List says asks for nothing that the bytes left can't fill.
ghost use Rattle.std.specs.Prelude.{◌≡◌, ◌≤◌, ◌*◌, ◌/◌, ◌^◌, ℕ, List, [], length, IfOk, IsOk};
ghost use Rattle.std.specs.Vec.{vec_capacity};
ghost use Rattle.av_tags.specs.Nbt.{Nbt, tag_type_of};
ghost use Rattle.av_nbt.specs.Spelling.{Spells};
ghost use Rattle.av_nbt.specs.Room.{least_size, room_for};

use av_tags::{Tag, TagType};
use std::alloc::{AllocError, Global};

/// For how many tags at most.
const ROOM: usize = 64;

/// The fewest bytes of a tag of a type. No tag is of the type `End`, which has 1 here.
#[tactic(auto, using(crate::proofs::Fewest::fewest))]
fn least_size(tag_type: TagType) -> usize
    ensures value { result ≡ least_size tag_type }
    ensures fewest { (t : Nbt) (bytes : List ℕ) → tag_type_of t ≡ tag_type → Spells t bytes
        → result ≤ length bytes }
{
    match tag_type {
        TagType::End | TagType::Byte | TagType::Compound => 1,
        TagType::Short | TagType::Text => 2,
        TagType::Int
        | TagType::Float
        | TagType::ByteArray
        | TagType::IntArray
        | TagType::LongArray => 4,
        TagType::List => 5,
        TagType::Long | TagType::Double => 8,
    }
}

/// As many as the List says, 64 at most, or none where its share of the bytes left can't hold all that it says. Each List and
/// Compound that its tags stand in, of which there are so many, halves the share. So the Lists that are being read ask
/// together for fewer tags than the document has bytes, and of those that were read each tag had a byte.
#[tactic(auto, using(crate::proofs::Fewest::halved))]
fn room_for(tag_type: TagType, count: usize, left: usize, nesting: u32) -> usize
    ensures value { result ≡ room_for tag_type count (left / 2 ^ nesting) }
    ensures held { result * least_size tag_type ≤ left / 2 ^ nesting }
{
    let share = left.unbounded_shr(nesting);
    if tag_type.is_end() || share / least_size(tag_type) < count {
        return 0;
    }
    count.min(ROOM)
}

/// No tags yet, and room for those of a List. Most Lists are short, and ask for memory this once.
pub(crate) fn with_room(
    alloc: Global,
    tag_type: TagType,
    count: usize,
    left: usize,
    nesting: u32,
) -> Result<Vec<Tag>, AllocError>
    ensures none { IfOk result (λ tags. tags.items ≡ []) }
    ensures room { IfOk result (λ tags. vec_capacity tags
        ≡ room_for tag_type count (left / 2 ^ nesting)) }
    ensures succeeds { room_for tag_type count (left / 2 ^ nesting) ≡ 0 → IsOk result }
{
    Vec::with_capacity(alloc, room_for(tag_type, count, left, nesting))
}
