//! Tags read from their bytes.
ghost use Rattle.std.specs.Prelude.{IfErr, IfOk, length};
ghost use Rattle.av_tags.specs.View.{document, view, views, named_view, named_views};
ghost use Rattle.av_nbt.specs.Spelling.{SpellsDocument};
ghost use Rattle.av_nbt.specs.Laws.{OneTag, OneDocument};
ghost use Rattle.av_nbt.specs.Outcome.{IsDecodeRefusal};
ghost use Rattle.av_nbt.specs.Reading.{Gives, leaf_at, list_at, named_at, compound_at, members_at, until_end, payload_at, repeat_at, document_at};

use crate::distinct::are_distinct;
use crate::fields;
use crate::room::with_room;
use av_tags::{Named, Root, Tag, TagType};
use av_types::Fault;
use std::alloc::Global;

/// How deep Lists and Compounds may nest, the root's own Compound among them.
const DEPTH: u32 = 512;

/// A tag of a type that holds no tags.
#[tactic(auto, unfolding(crate::specs::Reading::leaf_at))]
fn leaf(alloc: Global, tag_type: TagType, bytes: &[u8]) -> Result<(Tag, &[u8]), Fault>
    ensures { Gives (λ p. (view p.0, p.1.now)) result (leaf_at tag_type bytes.now) }
{
    match tag_type {
        TagType::Byte => {
            let (value, rest) = fields::byte(bytes)?;
            Ok((Tag::Byte(value), rest))
        }
        TagType::Short => {
            let (value, rest) = fields::short(bytes)?;
            Ok((Tag::Short(value), rest))
        }
        TagType::Int => {
            let (value, rest) = fields::int(bytes)?;
            Ok((Tag::Int(value), rest))
        }
        TagType::Long => {
            let (value, rest) = fields::long(bytes)?;
            Ok((Tag::Long(value), rest))
        }
        TagType::Float => {
            let (value, rest) = fields::float(bytes)?;
            Ok((Tag::Float(value), rest))
        }
        TagType::Double => {
            let (value, rest) = fields::double(bytes)?;
            Ok((Tag::Double(value), rest))
        }
        TagType::ByteArray => {
            let (array, rest) = fields::byte_array(alloc, bytes)?;
            Ok((Tag::ByteArray(array), rest))
        }
        TagType::Text => {
            let (text, rest) = fields::text(alloc, bytes)?;
            Ok((Tag::Text(text), rest))
        }
        TagType::IntArray => {
            let (array, rest) = fields::int_array(alloc, bytes)?;
            Ok((Tag::IntArray(array), rest))
        }
        TagType::LongArray => {
            let (array, rest) = fields::long_array(alloc, bytes)?;
            Ok((Tag::LongArray(array), rest))
        }
        TagType::End | TagType::List | TagType::Compound => Err(Fault::BadNbt),
    }
}

/// So many tags of a type, one after the other. They may nest so deep.
#[cycle(reading)]
fn items(
    alloc: Global,
    depth: u32,
    tag_type: TagType,
    count: usize,
    bytes: &[u8],
) -> Result<(Vec<Tag>, &[u8]), Fault>
    ensures { Gives (λ p. (views p.0.items, p.1.now)) result
        (repeat_at (payload_at depth tag_type) count bytes.now) }
{
    let nesting = DEPTH.saturating_sub(depth);
    let mut items = with_room(alloc, tag_type, count, bytes.len(), nesting)?;
    let mut rest = bytes;
    for _ in 0..count {
        let (tag, after) = payload(alloc, depth, tag_type, rest)?;
        items.push(tag)?;
        rest = after;
    }
    Ok((items, rest))
}

/// A List's type, its length and its tags. A negative length is that of an empty List.
#[cycle(reading)]
#[tactic(auto, unfolding(crate::specs::Reading::list_at))]
fn list(alloc: Global, depth: u32, bytes: &[u8]) -> Result<(Tag, &[u8]), Fault>
    ensures { Gives (λ p. (view p.0, p.1.now)) result (list_at (payload_at depth) bytes.now) }
{
    let (tag_type, rest) = fields::tag_type(bytes)?;
    let (count, rest) = fields::list_length(rest)?;
    let (items, rest) = items(alloc, depth, tag_type, count, rest)?;
    Ok((Tag::List(tag_type, items), rest))
}

/// A name and a tag of a type.
#[cycle(reading)]
#[tactic(auto, unfolding(crate::specs::Reading::named_at))]
fn named(
    alloc: Global,
    depth: u32,
    tag_type: TagType,
    bytes: &[u8],
) -> Result<(Named, &[u8]), Fault>
    ensures { Gives (λ p. (named_view p.0, p.1.now)) result
        (named_at (payload_at depth) tag_type bytes.now) }
{
    let (name, rest) = fields::text(alloc, bytes)?;
    let (tag, rest) = payload(alloc, depth, tag_type, rest)?;
    Ok((Named::new(name, tag), rest))
}

/// Named tags up to the end of their Compound. Each takes a byte at least.
#[cycle(reading)]
fn named_tags(alloc: Global, depth: u32, bytes: &[u8]) -> Result<(Vec<Named>, &[u8]), Fault>
    ensures { Gives (λ p. (named_views p.0.items, p.1.now)) result
        (until_end (payload_at depth) (length bytes.now) bytes.now) }
{
    let mut tags = Vec::new(alloc);
    let mut rest = bytes;
    for _ in 0..bytes.len() {
        let (tag_type, after) = fields::tag_type(rest)?;
        if tag_type.is_end() {
            return Ok((tags, after));
        }
        let (tag, after) = named(alloc, depth, tag_type, after)?;
        tags.push(tag)?;
        rest = after;
    }
    Err(Fault::BadNbt)
}

/// The named tags of a Compound, no name twice.
#[cycle(reading)]
#[tactic(auto, unfolding(crate::specs::Reading::members_at))]
fn members(alloc: Global, depth: u32, bytes: &[u8]) -> Result<(Vec<Named>, &[u8]), Fault>
    ensures { Gives (λ p. (named_views p.0.items, p.1.now)) result
        (members_at (payload_at depth) bytes.now) }
{
    let (tags, rest) = named_tags(alloc, depth, bytes)?;
    if are_distinct(alloc, tags.as_slice())? {
        Ok((tags, rest))
    } else {
        Err(Fault::BadNbt)
    }
}

/// A Compound.
#[cycle(reading)]
#[tactic(auto, unfolding(crate::specs::Reading::compound_at))]
fn compound(alloc: Global, depth: u32, bytes: &[u8]) -> Result<(Tag, &[u8]), Fault>
    ensures { Gives (λ p. (view p.0, p.1.now)) result (compound_at (payload_at depth) bytes.now) }
{
    let (tags, rest) = members(alloc, depth, bytes)?;
    Ok((Tag::Compound(tags), rest))
}

/// A tag of a type, in which Lists and Compounds nest at most so deep.
#[cycle(reading)]
fn payload(
    alloc: Global,
    depth: u32,
    tag_type: TagType,
    bytes: &[u8],
) -> Result<(Tag, &[u8]), Fault>
    ensures { Gives (λ p. (view p.0, p.1.now)) result (payload_at depth tag_type bytes.now) }
{
    if depth == 0 {
        return leaf(alloc, tag_type, bytes);
    }
    match tag_type {
        TagType::List => list(alloc, depth - 1, bytes),
        TagType::Compound => compound(alloc, depth - 1, bytes),
        _ => leaf(alloc, tag_type, bytes),
    }
}

/// The whole document, by the steps of reading.
#[tactic(auto, unfolding(crate::specs::Reading::document_at))]
fn root(alloc: Global, bytes: &[u8]) -> Result<Root, Fault>
    ensures { Gives document result (document_at bytes.now) }
{
    let (tag_type, rest) = fields::tag_type(bytes)?;
    if !tag_type.is_compound() {
        return Err(Fault::BadNbt);
    }
    let (name, rest) = fields::text(alloc, rest)?;
    let (tags, rest) = members(alloc, DEPTH - 1, rest)?;
    if rest.is_empty() {
        Ok(Root { name, tags })
    } else {
        Err(Fault::BadNbt)
    }
}

/// The document that the bytes spell, all of them.
/// `BadNbt` where they spell none: other bytes than the format has, Lists and Compounds more than 512 deep, a name
/// twice in one Compound, or bytes after the end. `OutOfMemory` where a growth was refused.
pub fn decode(alloc: Global, bytes: &[u8]) -> Result<Root, Fault>
    ensures spelled { IfOk result (λ root. SpellsDocument (document root) bytes.now) }
    ensures refused { IfErr result (λ e. IsDecodeRefusal e bytes.now) }
{
    root(alloc, bytes)
}

/// Bytes spell at most one tag of a type and at most one document, and no spelling begins a longer one.
/// A law of the format, which takes no value.
pub fn spelling_is_unique()
    ensures tag { OneTag }
    ensures document { OneDocument }
{}
