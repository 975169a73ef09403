//! The changes of files.
ghost use Rattle.std.specs.Prelude.{◌≡◌, ◌↔◌, ◌++◌, [], ◌∷◌, IfOk, IsTrue, IsPermutation, IsSortedBy, List, OnOk, Option, ℕ, option_map, string_cmp};
ghost use Rattle.std.specs.Ordering.{is_lt};
ghost use Rattle.av_changes.specs.Changes.{AreChangesOf, IsChangeOf};
ghost use Rattle.av_region_files.specs.declared.files.RegionFile.{RegionFile};

use crate::counting::changed_chunks;
use av_region_files::{RegionFile, region_name};
use std::alloc::{AllocError, Global};

/// A file that would change.
#[derive(Debug, Drop)]
pub struct Change {
    /// Its name.
    pub name: String,
    /// How many indices of its region would have other chunks.
    pub chunks: usize,
}

/// Whether a file's bytes are there.
fn is_there(file: &RegionFile, old: Option<&[u8]>) -> bool
    ensures { IsTrue result ↔ (option_map (λ b. b.now) old.entry ≡ Some file.now.bytes.items) }
{
    old == Some(file.bytes.as_slice())
}

/// The change of a file, by the bytes of the one that is there, or none.
fn change_of(
    alloc: Global,
    file: &RegionFile,
    old: Option<&[u8]>,
) -> Result<Option<Change>, AllocError>
    ensures { IfOk result (IsChangeOf file.now (option_map (λ b. b.now) old.entry)) }
{
    if is_there(file, old) {
        return Ok(None);
    }
    let name = region_name(alloc, file.pos)?;
    let chunks = changed_chunks(old.unwrap_or(&[]), file.bytes.as_slice());
    Ok(Some(Change { name, chunks }))
}

/// Adds the change of a file to those of others, by the bytes of the one that is there, or none.
pub fn add_change(
    alloc: Global,
    changes: &mut Vec<Change>,
    file: &RegionFile,
    old: Option<&[u8]>,
) -> Result<(), AllocError>
    ensures { OnOk result ((files : List RegionFile) (olds : List (Option (List ℕ))) → AreChangesOf files olds changes.old.items
        → AreChangesOf (files ++ file.now ∷ []) (olds ++ option_map (λ b. b.now) old.entry ∷ []) changes.new.items) }
{
    match change_of(alloc, file, old)? {
        Some(change) => Ok(changes.push(change)?),
        None => Ok(()),
    }
}

/// Changes in the byte order of the files' names.
pub fn by_name(changes: Vec<Change>) -> Result<Vec<Change>, AllocError>
    ensures same { IfOk result (λ sorted. IsPermutation changes.items sorted.items) }
    ensures order { IfOk result (λ sorted. IsSortedBy
        (λ a b. is_lt (string_cmp a.name b.name)) sorted.items) }
{
    let mut changes = changes;
    changes.sort_by(|a, b| a.name.cmp(&b.name))?;
    Ok(changes)
}
