//! The picture of a world from above.
ghost use Rattle.std.specs.Prelude.{◌≡◌, ◌*◌, IfOk, IfErr};
ghost use Rattle.std.specs.List.{All, sum_by};
ghost use Rattle.av_types.specs.Positions.{IsInLimits};
ghost use Rattle.av_map.specs.Maps.{IsDrawable, IsMap, IsMapOf, IsRefused, is_short, short_in};
ghost use Rattle.av_map.specs.Views.{colours_of};
ghost use Rattle.av_map.specs.Within.{AreWithin};

use crate::bounds::Bounds;
use crate::colours::Colours;
use crate::painting::{count_unread, pixel_rows};
use crate::reading::Scene;
use crate::refusal::Refusal;
use crate::view::View;
use av_png::Picture;
use av_region_files::RegionFile;
use av_survey::listing::judged;
use av_types::Height;
use std::alloc::{AllocError, Global};

/// A picture of a world, and what it does not show.
#[derive(Drop)]
pub struct Map {
    /// A pixel for each column of blocks of the rectangle that the regions fill, 512 by 512 for a region, north up.
    pub picture: Picture,
    /// How many chunks are not shown since they have a fault.
    pub unread_chunks: usize,
    /// How many files are not shown since they are cut short.
    pub short_files: usize,
}

/// Whether a file is cut short.
fn is_short(file: &RegionFile) -> bool
    ensures { result ≡ is_short file.now }
{
    1 <= file.bytes.len() && file.bytes.len() <= 8191
}

/// How many files are cut short.
fn count_short(files: &[RegionFile]) -> usize
    ensures value { result ≡ sum_by short_in files.now }
{
    let mut count = 0;
    for file in files {
        if is_short(file) {
            count += 1;
        }
    }
    count
}

impl Scene<'_> {
    /// The map of a rectangle.
    fn map_of(&self, alloc: Global, files: &[RegionFile], bounds: Bounds) -> Result<Map, AllocError>
        requires limits { All (λ f. IsInLimits f.pos) files.now }
        requires within { AreWithin bounds }
        requires drawable { IsDrawable bounds }
        ensures { IfOk result (IsMapOf self.now.view
            (colours_of self.now.colours.now) self.now.height files.now bounds) }
    {
        let (width, height) = (bounds.width(), bounds.height());
        let patches = self.patches(alloc, files, bounds, 32 * width, 32 * height)?;
        let rows = pixel_rows(alloc, patches.as_slice(), 512 * width, 512 * height)?;
        Ok(Map {
            picture: Picture::new(512 * width, rows),
            unread_chunks: count_unread(patches.as_slice()),
            short_files: count_short(files),
        })
    }
}

/// The map of a world, or of the light on it.
///
/// Each pixel shows the highest block of its column that is not air, by its colour. Slopes are brighter where the column to the
/// north is lower, and darker where it is higher; water is darker by its depth. `View::Light` shows in grey the block light of the block above instead,
/// which is the light that falls on the highest one. A column is clear where nothing is seen: no block, no chunk, one that is not
/// fully generated, or one with a fault, which is counted. Each chunk is read alone, as by `survey`.
///
/// Refuses more than 1,024 files (`BadCount`), a region out of the limits (`RegionRange`), two files of one region
/// (`RepeatedRegion`), then no file (`Empty`), and then more than 16,384 pixels a side (`TooWide`).
pub fn draw(
    alloc: Global,
    files: Vec<RegionFile>,
    height: Height,
    colours: &Colours,
    view: View,
) -> Result<Map, Refusal>
    ensures ok { IfOk result (IsMap view (colours_of colours.now) height files.items) }
    ensures err { IfErr result (IsRefused files.items) }
{
    let files = judged(files)?;
    let Some((first, more)) = files.split_first() else {
        return Err(Refusal::Empty);
    };
    let bounds = Bounds::of(first, more);
    if !bounds.is_drawable() {
        return Err(Refusal::TooWide);
    }
    let scene = Scene {
        view,
        colours,
        height,
    };
    Ok(scene.map_of(alloc, files.as_slice(), bounds)?)
}
