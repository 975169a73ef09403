//! Tags, put together.
ghost use Rattle.std.specs.Prelude.{◌≡◌, [], ◌∷◌, ◌++◌, IfOk};
ghost use Rattle.av_tags.specs.Nbt.{list, items_of};
ghost use Rattle.av_tags.specs.declared.tag.TagType.TheVariants.{Compound};
ghost use Rattle.av_tags.specs.ByName.{with_tag};
ghost use Rattle.av_tags.specs.Shape.{compound_of, or_else};
ghost use Rattle.av_tags.specs.View.{view, views, named_view, named_views};
ghost use Rattle.av_document.specs.Layout.{compound_with};

use av_tags::{Named, Tag, TagType, copy_tags, put};
use std::alloc::{AllocError, Global};

/// A tag under a name.
pub(crate) fn named(alloc: Global, name: &[u8], tag: Tag) -> Result<Named, AllocError>
    ensures { IfOk result (λ named. named_view named ≡ record { name = name.now; tag = view tag }) }
{
    Ok(Named::new(Vec::from_slice(alloc, name)?, tag))
}

/// A tag put where one of its name stood, or last where there was none.
pub(crate) fn tagged(
    alloc: Global,
    mut tags: Vec<Named>,
    name: &[u8],
    tag: Tag,
) -> Result<Vec<Named>, AllocError>
    ensures { IfOk result (λ new. named_views new.items
        ≡ with_tag name.now (view tag) (named_views tags.items)) }
{
    put(&mut tags, named(alloc, name, tag)?).map_err(|_| AllocError)?;
    Ok(tags)
}

/// A tag after others.
pub(crate) fn appended(
    alloc: Global,
    mut tags: Vec<Named>,
    name: &[u8],
    tag: Tag,
) -> Result<Vec<Named>, AllocError>
    ensures { IfOk result (λ new. named_views new.items
        ≡ named_views tags.items ++ record { name = name.now; tag = view tag } ∷ []) }
{
    tags.push(named(alloc, name, tag)?)?;
    Ok(tags)
}

/// Tags after others.
pub(crate) fn joined(mut tags: Vec<Named>, mut others: Vec<Named>) -> Result<Vec<Named>, AllocError>
    ensures { IfOk result (λ new. named_views new.items
        ≡ named_views tags.items ++ named_views others.items) }
{
    tags.append(&mut others)?;
    Ok(tags)
}

/// Copies of tags.
pub(crate) fn copied(alloc: Global, tags: &[Named]) -> Result<Vec<Named>, AllocError>
    ensures { IfOk result (λ copies. named_views copies.items ≡ named_views tags.now) }
{
    copy_tags(alloc, tags).map_err(|_| AllocError)
}

/// The tags of a Compound, or none of another tag.
fn members(tag: &Tag) -> &[Named]
    ensures { named_views result.now ≡ or_else [] (compound_of (view tag.now)) }
{
    tag.as_members().unwrap_or(&[])
}

/// A copy of a Compound.
pub(crate) fn copied_compound(alloc: Global, tag: &Tag) -> Result<Tag, AllocError>
    ensures { IfOk result (λ copy. view copy ≡ compound_with
        (or_else [] (compound_of (view tag.now)))) }
{
    Ok(Tag::compound(copied(alloc, members(tag))?))
}

/// A List of Compounds.
pub(crate) fn compounds(rows: Vec<Tag>) -> Tag
    ensures { view result ≡ list Compound (items_of (views rows.items)) }
{
    Tag::list(TagType::Compound, rows)
}
