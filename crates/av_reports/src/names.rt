//! The names of region files (<https://minecraft.wiki/w/Region_file_format>).
ghost use Rattle.std.specs.Prelude.{◌≡◌, ◌++◌, codes, ℕ, List, IfOk, IfSome, IfNone, IsSomeAnd, FitsSigned, Some, ℤ, string_bytes};
ghost use Rattle.std.specs.Int.{w32};
ghost use Rattle.std.specs.Fmt.{signed_decimal};
ghost use Rattle.av_region_files.specs.Names.{name_with, region_name_of};
ghost use Rattle.av_reports.specs.Names.{FitsRegion, HasNoDot, IsFileIn, IsFileNameOf};
ghost use Rattle.av_types.specs.declared.position.RegionPos.{RegionPos};

use av_region_files::region_name;
use av_types::RegionPos;
use std::alloc::{AllocError, Global};

/// The name of a file in its folder: what follows the last `/` of its path.
pub fn file_name(path: &str) -> &str
    ensures { IsFileNameOf path.now result.now }
{
    match path.rsplit_once('/') {
        Some((_, name)) => name,
        None => path,
    }
}

/// The text up to the first dot, and the text behind it.
fn at_dot(text: &str) -> Option<(&str, &str)>
    ensures { (front rest : List ℕ) → HasNoDot front → text.now ≡ front ++ (codes "." ++ rest)
        → IsSomeAnd result (λ p. (p.0.now ≡ front) × (p.1.now ≡ rest)) }
{
    text.split_once('.')
}

/// The texts of X and Z in `r.X.Z.mca`.
fn coordinates(name: &str) -> Option<(&str, &str)>
    ensures { (x z : List ℕ) → HasNoDot x → HasNoDot z → name.now ≡ name_with x z
        → IsSomeAnd result (λ p. (p.0.now ≡ x) × (p.1.now ≡ z)) }
{
    let (first, rest) = at_dot(name)?;
    let (x, rest) = at_dot(rest)?;
    let (z, last) = at_dot(rest)?;
    if first == "r" && last == "mca" {
        Some((x, z))
    } else {
        None
    }
}

/// A number of 32 bits, by its digits.
fn number(text: &str) -> Option<i32>
    ensures { (n : ℤ) → FitsSigned w32 n → text.now ≡ signed_decimal n → result ≡ Some n }
{
    text.parse().ok()
}

/// The region that a file of that name holds: `r.X.Z.mca`, where X and Z are numbers of 32 bits in decimal
/// digits, as they are printed, so without leading zeros, `+` and `-0`. None for each other name.
///
/// Errors: only want of memory.
pub fn region_of_name(alloc: Global, name: &str) -> Result<Option<RegionPos>, AllocError>
    ensures named { IfOk result (λ r. IfSome r (λ region. name.now ≡ region_name_of region)) }
    ensures other { IfOk result (λ r. IfNone r ((region : RegionPos) → FitsRegion region
        → name.now ≡ region_name_of region → ⊥)) }
{
    let Some((x, z)) = coordinates(name) else {
        return Ok(None);
    };
    let (Some(x), Some(z)) = (number(x), number(z)) else {
        return Ok(None);
    };
    let printed = region_name(alloc, RegionPos { x, z })?;
    if printed.as_str() == name {
        Ok(Some(RegionPos { x, z }))
    } else {
        Ok(None)
    }
}

/// The folder that a path begins with, up to its last slash, and the file's name behind that.
pub fn split_path<'a>(alloc: Global, path: &'a str) -> Result<(String, &'a str), AllocError>
    ensures { IfOk result (λ p. IsFileIn path.now (string_bytes p.0) p.1.now) }
{
    match path.rsplit_once('/') {
        Some((folder, name)) => Ok((format!(in alloc; "{folder}/")?, name)),
        None => Ok((String::new(alloc), path)),
    }
}
