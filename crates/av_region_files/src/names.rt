//! The names of region files (<https://minecraft.wiki/w/Region_file_format>).
ghost use Rattle.std.specs.Prelude.{◌≡◌, IfOk, string_bytes};
ghost use Rattle.av_region_files.specs.Names.{region_name_of};

use av_types::RegionPos;
use std::alloc::{AllocError, Global};

/// The name of a region's file, `r.X.Z.mca`, with decimal numbers.
///
/// Errors: only want of memory.
pub fn region_name(alloc: Global, region: RegionPos) -> Result<String, AllocError>
    ensures { IfOk result (λ name. string_bytes name ≡ region_name_of region) }
{
    let RegionPos { x, z } = region;
    format!(in alloc; "r.{x}.{z}.mca")
}
