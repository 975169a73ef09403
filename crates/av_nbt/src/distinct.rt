//! Whether a name stands twice among named tags.
ghost use Rattle.std.specs.Prelude.{◌≡◌, ◌↔◌, IfOk, IsTrue, map};
ghost use Rattle.av_tags.specs.View.{named_views};
ghost use Rattle.av_nbt.specs.Order.{Rise};
ghost use Rattle.av_nbt.specs.Reading.{has_name, are_distinct};

use av_tags::Named;
use std::alloc::{AllocError, Global};

/// Up to how many names each is compared with each other.
const FEW: usize = 32;

/// Whether a tag has that name.
fn has_name(tags: &[Named], name: &[u8]) -> bool
    ensures { result ≡ has_name name.now (named_views tags.now) }
{
    for named in tags {
        if named.name.as_slice() == name {
            return true;
        }
    }
    false
}

/// Whether no name is there twice, each compared with all that follow it.
fn are_distinct_by_pairs(tags: &[Named]) -> bool
    ensures { result ≡ are_distinct (named_views tags.now) }
{
    let mut rest = tags;
    while let Some((first, others)) = rest.split_first() {
        if has_name(others, first.name.as_slice()) {
            return false;
        }
        rest = others;
    }
    true
}

/// The names of named tags.
fn names_of<'a>(alloc: Global, tags: &'a [Named]) -> Result<Vec<&'a [u8]>, AllocError>
    ensures { IfOk result (λ names. map (λ b. b.now) names.items
        ≡ map (λ m. m.name) (named_views tags.now)) }
{
    let mut names = Vec::with_capacity(alloc, tags.len())?;
    for named in tags {
        names.push(named.name.as_slice())?;
    }
    Ok(names)
}

/// Whether each name comes before the next.
fn rise(names: &[&[u8]]) -> bool
    ensures { IsTrue result ↔ Rise (map (λ b. b.now) names.now) }
{
    for index in 1..names.len() {
        if !names[index - 1].cmp(&names[index]).is_lt() {
            return false;
        }
    }
    true
}

/// Whether no name is there twice, found by sorting the names.
fn are_distinct_by_order(alloc: Global, tags: &[Named]) -> Result<bool, AllocError>
    ensures { IfOk result (λ b. b ≡ are_distinct (named_views tags.now)) }
{
    let mut names = names_of(alloc, tags)?;
    names.sort_unstable();
    Ok(rise(names.as_slice()))
}

/// Whether no name is there twice.
pub(crate) fn are_distinct(alloc: Global, tags: &[Named]) -> Result<bool, AllocError>
    ensures { IfOk result (λ b. b ≡ are_distinct (named_views tags.now)) }
{
    if tags.len() <= FEW {
        Ok(are_distinct_by_pairs(tags))
    } else {
        are_distinct_by_order(alloc, tags)
    }
}
