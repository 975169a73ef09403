//! Tags copied.
ghost use Rattle.std.specs.Prelude.{◌≡◌, IfErr, IfOk};
ghost use Rattle.av_types.specs.declared.fault.Fault.TheVariants.{OutOfMemory};
ghost use Rattle.av_tags.specs.View.{view, views, named_view, named_views};

use crate::tag::{Named, Tag};
use av_types::Fault;
use std::alloc::{AllocError, Global};

/// A copy of the tags of a List.
#[cycle(copying)]
fn copy_items(alloc: Global, items: &[Tag]) -> Result<Vec<Tag>, AllocError>
    ensures { IfOk result (λ copies. views copies.items ≡ views items.now) }
{
    let mut copies = Vec::with_capacity(alloc, items.len())?;
    for item in items {
        copies.push(copy_tag(alloc, item)?)?;
    }
    Ok(copies)
}

/// A copy of a tag under its name.
#[cycle(copying)]
fn copy_named(alloc: Global, named: &Named) -> Result<Named, AllocError>
    ensures { IfOk result (λ copy. named_view copy ≡ named_view named.now) }
{
    let name = Vec::from_slice(alloc, named.name.as_slice())?;
    let tag = copy_tag(alloc, &named.tag)?;
    Ok(Named::new(name, tag))
}

/// A copy of the tags of a Compound.
#[cycle(copying)]
fn copy_members(alloc: Global, tags: &[Named]) -> Result<Vec<Named>, AllocError>
    ensures { IfOk result (λ copies. named_views copies.items ≡ named_views tags.now) }
{
    let mut copies = Vec::with_capacity(alloc, tags.len())?;
    for named in tags {
        copies.push(copy_named(alloc, named)?)?;
    }
    Ok(copies)
}

/// A copy of a tag.
#[cycle(copying)]
fn copy_tag(alloc: Global, tag: &Tag) -> Result<Tag, AllocError>
    ensures { IfOk result (λ copy. view copy ≡ view tag.now) }
{
    match tag {
        Tag::Byte(value) => Ok(Tag::Byte(*value)),
        Tag::Short(value) => Ok(Tag::Short(*value)),
        Tag::Int(value) => Ok(Tag::Int(*value)),
        Tag::Long(value) => Ok(Tag::Long(*value)),
        Tag::Float(value) => Ok(Tag::Float(*value)),
        Tag::Double(value) => Ok(Tag::Double(*value)),
        Tag::ByteArray(bytes) => Ok(Tag::ByteArray(Vec::from_slice(alloc, bytes.as_slice())?)),
        Tag::Text(bytes) => Ok(Tag::Text(Vec::from_slice(alloc, bytes.as_slice())?)),
        Tag::List(tag_type, items) => Ok(Tag::List(
            *tag_type,
            copy_items(alloc, items.as_slice())?,
        )),
        Tag::Compound(tags) => Ok(Tag::Compound(copy_members(alloc, tags.as_slice())?)),
        Tag::IntArray(ints) => Ok(Tag::IntArray(Vec::from_slice(alloc, ints.as_slice())?)),
        Tag::LongArray(longs) => Ok(Tag::LongArray(Vec::from_slice(alloc, longs.as_slice())?)),
    }
}

/// A copy of the tags of a Compound, names and all. The only fault is `OutOfMemory`, where a growth was refused.
pub fn copy_tags(alloc: Global, tags: &[Named]) -> Result<Vec<Named>, Fault>
    ensures copied { IfOk result (λ copies. named_views copies.items ≡ named_views tags.now) }
    ensures memory { IfErr result (λ e. e ≡ OutOfMemory) }
{
    Ok(copy_members(alloc, tags)?)
}
