//! The tags that a chunk's parts are read from.
ghost use Rattle.std.specs.Prelude.{◌≡◌, option_map};
ghost use Rattle.std.specs.Option.{option_copied};
ghost use Rattle.av_tags.specs.View.{views, named_views};
ghost use Rattle.av_document.specs.Ticks.{int_at};
ghost use Rattle.av_codec.specs.Working.{text_at, byte_at, items_at};

use av_tags::{Named, Tag, find};

/// The Int of a name.
pub(crate) fn int_at(tags: &[Named], name: &[u8]) -> Option<i32>
    ensures { result ≡ int_at name.now (named_views tags.now) }
{
    find(tags, name)?.as_int()
}

/// The Byte of a name.
pub(crate) fn byte_at(tags: &[Named], name: &[u8]) -> Option<i8>
    ensures { result ≡ byte_at name.now (named_views tags.now) }
{
    find(tags, name)?.as_byte()
}

/// The text of a name.
pub(crate) fn text_at<'a>(tags: &'a [Named], name: &[u8]) -> Option<&'a [u8]>
    ensures { option_copied result ≡ text_at name.now (named_views tags.now) }
{
    find(tags, name)?.as_text()
}

/// The tags of the List of a name.
pub(crate) fn items_at<'a>(tags: &'a [Named], name: &[u8]) -> Option<&'a [Tag]>
    ensures { option_map views (option_copied result) ≡ items_at name.now (named_views tags.now) }
{
    find(tags, name)?.as_items()
}
