//! How many chunks two files of a region have otherwise.
ghost use Rattle.std.specs.Prelude.{◌≡◌, ◌≤◌, ◌↔◌, IsTrue, option_map};
ghost use Rattle.av_changes.specs.Changes.{IsChangeCount, IsSameAt, AreChangedBelow, ends_in_header, readable};

use av_region::{CHUNKS, HEADER, Region};

/// Whether a file ends within its header.
fn ends_in_header(file: &[u8]) -> bool
    ensures { result ≡ ends_in_header file.now }
{
    0 < file.len() && file.len() < HEADER
}

/// The bytes of a file that count: none of one that ends within its header.
fn readable(file: &[u8]) -> &[u8]
    ensures { result.now ≡ readable file.now }
{
    if ends_in_header(file) { &[] } else { file }
}

/// Whether two payloads, which may not be there, are the same.
fn is_same_payload(old: Option<&[u8]>, new: Option<&[u8]>) -> bool
    ensures { IsTrue result ↔ (option_map (λ p. p.now) old.entry
        ≡ option_map (λ p. p.now) new.entry) }
{
    old == new
}

/// Whether two files have the same payload at an index, or no chunk there.
fn is_same_at(old: &Region<'_>, new: &Region<'_>, index: usize) -> bool
    requires { index ≤ 1023 }
    ensures { IsTrue result ↔ IsSameAt old.now.bytes.now new.now.bytes.now index }
{
    let Ok(old) = old.payload(index) else {
        return false;
    };
    let Ok(new) = new.payload(index) else {
        return false;
    };
    is_same_payload(old, new)
}

/// How many indices have other chunks in two files.
fn changed_indices(old: &Region<'_>, new: &Region<'_>) -> usize
    ensures { AreChangedBelow old.now.bytes.now new.now.bytes.now 1024 result }
{
    let mut changed = 0;
    for index in 0..CHUNKS {
        if !is_same_at(old, new, index) {
            changed += 1;
        }
    }
    changed
}

/// How many of the 1,024 indices of a region have other chunks in two files: other payloads, or a chunk in one of them alone, or one
/// that has a fault. Timestamps and where chunks stand don't count. A file that ends within its header counts as one without chunks.
pub fn changed_chunks(old: &[u8], new: &[u8]) -> usize
    ensures { IsChangeCount old.now new.now result }
{
    match (Region::read(readable(old)), Region::read(readable(new))) {
        (Ok(old), Ok(new)) => changed_indices(&old, &new),
        _ => 0,
    }
}
