//! What the chunks of a rectangle show, row by row.
ghost use Rattle.std.specs.Prelude.{◌≡◌, ◌≤◌, ◌<◌, ◌*◌, IfOk, IfSome, map};
ghost use Rattle.std.specs.List.{All};
ghost use Rattle.std.specs.Option.{option_copied};
ghost use Rattle.av_types.specs.Positions.{IsInLimits};
ghost use Rattle.av_map.specs.Maps.{ArePatches, IsPatchRow, Shows, file_of, region_at};
ghost use Rattle.av_map.specs.Views.{colours_of};
ghost use Rattle.av_map.specs.Within.{AreWithin};
ghost use Rattle.av_region_files.specs.Regions.{same_region};

use crate::bounds::Bounds;
use crate::patch::Patch;
use crate::reading::Scene;
use av_region::Region;
use av_region_files::RegionFile;
use av_types::RegionPos;
use std::alloc::{AllocError, Global};

/// Whether a file is of this region.
fn is_of(region: RegionPos, file: &RegionFile) -> bool
    ensures { result ≡ same_region region file.now.pos }
{
    region == file.pos
}

/// The first file of a region.
fn file_of(files: &[RegionFile], region: RegionPos) -> Option<&RegionFile>
    requires { All (λ f. IsInLimits f.pos) files.now }
    ensures file { option_copied result ≡ file_of region files.now }
    ensures limits { IfSome result (λ f. IsInLimits f.now.pos) }
{
    for file in files {
        if is_of(region, file) {
            return Some(file);
        }
    }
    None
}

impl Scene<'_> {
    /// What a chunk of a region shows.
    fn patch(
        &self,
        alloc: Global,
        files: &[RegionFile],
        region: RegionPos,
        index: usize,
    ) -> Result<Patch, AllocError>
        requires limits { All (λ f. IsInLimits f.pos) files.now }
        requires index { index < 1024 }
        ensures { IfOk result (Shows self.now.view
            (colours_of self.now.colours.now) self.now.height files.now region index) }
    {
        let Some(file) = file_of(files, region) else {
            return Ok(Patch::Clear);
        };
        let Ok(region) = Region::read(file.bytes.as_slice()) else {
            return Ok(Patch::Clear);
        };
        self.patch_at(alloc, &region, file.pos, index)
    }

    /// What a row of chunks shows.
    fn patch_row(
        &self,
        alloc: Global,
        files: &[RegionFile],
        bounds: Bounds,
        z: usize,
        count: usize,
    ) -> Result<Vec<Patch>, AllocError>
        requires limits { All (λ f. IsInLimits f.pos) files.now }
        requires within { AreWithin bounds }
        requires z { z < 1024 }
        requires count { count ≤ 1024 }
        ensures { IfOk result (λ row. IsPatchRow self.now.view
            (colours_of self.now.colours.now) self.now.height files.now bounds z count row.items) }
    {
        let mut row = Vec::new(alloc);
        for x in 0..count {
            let region = bounds.region_at(x, z);
            row.push(self.patch(alloc, files, region, x % 32 + 32 * (z % 32))?)?;
        }
        Ok(row)
    }

    /// What the chunks of a rectangle show.
    pub(crate) fn patches(
        &self,
        alloc: Global,
        files: &[RegionFile],
        bounds: Bounds,
        width: usize,
        height: usize,
    ) -> Result<Vec<Vec<Patch>>, AllocError>
        requires limits { All (λ f. IsInLimits f.pos) files.now }
        requires within { AreWithin bounds }
        requires width { width ≤ 1024 }
        requires height { height ≤ 1024 }
        ensures { IfOk result (λ rows. ArePatches self.now.view
            (colours_of self.now.colours.now) self.now.height files.now bounds width height
            (map (λ row. row.items) rows.items)) }
    {
        let mut rows = Vec::new(alloc);
        for z in 0..height {
            rows.push(self.patch_row(alloc, files, bounds, z, width)?)?;
        }
        Ok(rows)
    }
}
