//! A sum over all that a tag tree holds, by which two programs compare what they decoded.
use av_tags::{Named, Root, Tag};

/// The number of tags, and the sum of all numbers and bytes, which wraps round.
#[derive(Clone, Copy, Debug, Default)]
pub(crate) struct Tally {
    pub(crate) tags: u64,
    pub(crate) sum: i64,
}

fn byte_sum(bytes: &[u8]) -> i64 {
    let mut sum = 0i64;
    for byte in bytes {
        sum = sum.wrapping_add(*byte as i64);
    }
    sum
}

fn int_sum(ints: &[i32]) -> i64 {
    let mut sum = 0i64;
    for int in ints {
        sum = sum.wrapping_add(*int as i64);
    }
    sum
}

fn long_sum(longs: &[i64]) -> i64 {
    let mut sum = 0i64;
    for long in longs {
        sum = sum.wrapping_add(*long);
    }
    sum
}

impl Tally {
    /// Adds a document.
    pub(crate) fn add_root(&mut self, root: &Root) {
        add_all(self, root.tags.as_slice());
    }

    fn add_number(&mut self, number: i64) {
        self.sum = self.sum.wrapping_add(number);
    }
}

/// Adds named tags with their names.
#[cycle(adding)]
fn add_all(tally: &mut Tally, tags: &[Named]) {
    for named in tags {
        tally.add_number(byte_sum(named.name.as_slice()));
        add_tag(tally, &named.tag);
    }
}

#[cycle(adding)]
fn add_items(tally: &mut Tally, items: &[Tag]) {
    for item in items {
        add_tag(tally, item);
    }
}

#[cycle(adding)]
fn add_tag(tally: &mut Tally, tag: &Tag) {
    tally.tags = tally.tags.wrapping_add(1);
    match tag {
        Tag::List(_, items) => add_items(tally, items.as_slice()),
        Tag::Compound(tags) => add_all(tally, tags.as_slice()),
        _ => tally.add_number(leaf_sum(tag)),
    }
}

/// The sum of a tag that holds no tags.
fn leaf_sum(tag: &Tag) -> i64 {
    match tag {
        Tag::Byte(value) => *value as i64,
        Tag::Short(value) => *value as i64,
        Tag::Int(value) => *value as i64,
        Tag::Long(value) => *value,
        Tag::Float(bits) => byte_sum(bits.to_be_bytes().as_slice()),
        Tag::Double(bits) => byte_sum(bits.to_be_bytes().as_slice()),
        Tag::ByteArray(bytes) => byte_sum(bytes.as_slice()),
        Tag::Text(bytes) => byte_sum(bytes.as_slice()),
        Tag::IntArray(ints) => int_sum(ints.as_slice()),
        Tag::LongArray(longs) => long_sum(longs.as_slice()),
        Tag::List(_, _) | Tag::Compound(_) => 0,
    }
}
