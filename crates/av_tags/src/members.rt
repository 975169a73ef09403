//! Tags by their names, as they stand in a Compound.
ghost use Rattle.std.specs.Prelude.{◌≡◌, ◌<◌, ◌≤◌, None, length, option_map, remove, OnErr, OnOk, IfErr, IfOk, IfSome, vec_len};
ghost use Rattle.std.specs.Option.{option_copied};
ghost use Rattle.std.specs.Vec.{vec_capacity};
ghost use Rattle.av_types.specs.declared.fault.Fault.TheVariants.{OutOfMemory};
ghost use Rattle.av_tags.specs.View.{view, named_view, named_views};
ghost use Rattle.av_tags.specs.ByName.{tag_of, IsWithTag, without, index_of_name};

use crate::tag::{Named, Tag};
use av_types::Fault;
use std::mem;

/// Where the first tag of a name stands.
fn index_of(tags: &[Named], name: &[u8]) -> Option<usize>
    ensures index { result ≡ index_of_name name.now (named_views tags.now) }
    ensures bound { IfSome result (λ i. i < length tags.now) }
{
    for (index, named) in tags.iter().enumerate() {
        if named.name.as_slice() == name {
            return Some(index);
        }
    }
    None
}

/// The first tag of a name, or `None` where no tag has it. Names are the same where their bytes are.
pub fn find<'a>(tags: &'a [Named], name: &[u8]) -> Option<&'a Tag>
    ensures { option_map view (option_copied result) ≡ tag_of name.now (named_views tags.now) }
{
    for named in tags {
        if named.name.as_slice() == name {
            return Some(&named.tag);
        }
    }
    None
}

/// Puts a tag where the first of its name stood, or last where there was none, and hands out the one that stood there.
/// Refuses with `OutOfMemory` alone, and then the tags are as before. A tag that stands where another stood takes no memory.
pub fn exchange(tags: &mut Vec<Named>, named: Named) -> Result<Option<Tag>, Fault>
    ensures placed { OnOk result (IsWithTag (named_view named) (named_views tags.old.items)
        (named_views tags.new.items)) }
    ensures before { IfOk result (λ t. option_map view t
        ≡ tag_of (named_view named).name (named_views tags.old.items)) }
    ensures err { OnErr result (tags.new.items ≡ tags.old.items) }
    ensures memory { IfErr result (λ e. e ≡ OutOfMemory) }
    ensures absent { OnErr result (tag_of (named_view named).name (named_views tags.old.items)
        ≡ None) }
    ensures full { OnErr result (vec_capacity tags.old ≤ vec_len tags.old) }
{
    match index_of(tags, named.name.as_slice()) {
        Some(index) => {
            let old = mem::replace(&mut tags[index], named);
            Ok(Some(old.into_tag()))
        }
        None => {
            tags.push(named)?;
            Ok(None)
        }
    }
}

/// Puts a tag where the first of its name stood, or last where there was none.
/// Refuses with `OutOfMemory` alone, and then the tags are as before. A tag that stands where another stood takes no memory.
pub fn put(tags: &mut Vec<Named>, named: Named) -> Result<(), Fault>
    ensures placed { OnOk result (IsWithTag (named_view named) (named_views tags.old.items)
        (named_views tags.new.items)) }
    ensures err { OnErr result (tags.new.items ≡ tags.old.items) }
    ensures memory { IfErr result (λ e. e ≡ OutOfMemory) }
    ensures absent { OnErr result (tag_of (named_view named).name (named_views tags.old.items)
        ≡ None) }
    ensures full { OnErr result (vec_capacity tags.old ≤ vec_len tags.old) }
{
    exchange(tags, named)?;
    Ok(())
}

/// Takes the tag at an index out and drops it.
fn drop_at(tags: &mut Vec<Named>, index: usize)
    requires { index < vec_len tags.old }
    ensures { tags.new.items ≡ remove tags.old.items index }
{
    tags.remove(index);
}

/// Takes out all tags of a name, and hands out the first of them. The others keep their order.
pub fn remove(tags: &mut Vec<Named>, name: &[u8]) -> Option<Tag>
    ensures first { option_map view result ≡ tag_of name.now (named_views tags.old.items) }
    ensures others { named_views tags.new.items ≡ without name.now (named_views tags.old.items) }
{
    let index = index_of(tags, name)?;
    let named = tags.remove(index);
    while let Some(other) = index_of(tags, name) {
        drop_at(tags, other);
    }
    Some(named.into_tag())
}
