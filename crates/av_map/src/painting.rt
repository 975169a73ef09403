//! The pixels of columns.
ghost use Rattle.std.specs.Prelude.{◌≡◌, ◌≤◌, ◌<◌, IfOk, length, map};
ghost use Rattle.std.specs.List.{All, sum_by};
ghost use Rattle.av_map.specs.Pixels.{column_at, count_unread, north_of, on_slope, opaque, painted, pixel_at, pixel_row, pixel_rows, shaded, unread_in};
ghost use Rattle.av_map.specs.Rows.{patches_of};

use crate::colour::Colour;
use crate::patch::Patch;
use crate::sight::Sight;
use av_png::Pixel;
use std::alloc::{AllocError, Global};

/// The pixel of a column of which nothing is seen.
const CLEAR: Pixel = Pixel {
    red: 0,
    green: 0,
    blue: 0,
    alpha: 0,
};

/// A colour that hides what is behind it.
fn opaque(colour: Colour) -> Pixel
    ensures { result ≡ opaque colour }
{
    Pixel {
        red: colour.red,
        green: colour.green,
        blue: colour.blue,
        alpha: 255,
    }
}

/// The colour of a slope, by its height and that of the column to the north.
fn on_slope(top: u16, north: u16, colour: Colour) -> Colour
    ensures { result ≡ on_slope top north colour }
{
    if north < top {
        colour.brighter()
    } else if top < north {
        colour.darker()
    } else {
        colour
    }
}

/// A column's colour, by what the column to the north shows.
fn shaded(sight: Sight, north: Option<Sight>) -> Colour
    ensures { result ≡ shaded sight north }
{
    match north {
        Some(north) => {
            if sight.is_sloped {
                on_slope(sight.top, north.top, sight.colour)
            } else {
                sight.colour
            }
        }
        None => sight.colour,
    }
}

/// A column's pixel, by what it and the column to the north show.
fn painted(sight: Option<Sight>, north: Option<Sight>) -> Pixel
    ensures { result ≡ painted sight north }
{
    match sight {
        Some(sight) => opaque(shaded(sight, north)),
        None => CLEAR,
    }
}

/// What the column at a pixel shows.
fn column_at(patches: &[Vec<Patch>], x: usize, z: usize) -> Option<Sight>
    ensures { result ≡ column_at (patches_of patches.now) x z }
{
    let row = patches.get(z / 16)?;
    let patch = row.get(x / 16)?;
    patch.column(16 * (z % 16) + x % 16)
}

/// What the column to the north of a pixel shows.
fn north_of(patches: &[Vec<Patch>], x: usize, z: usize) -> Option<Sight>
    ensures { result ≡ north_of (patches_of patches.now) x z }
{
    if z == 0 {
        return None;
    }
    column_at(patches, x, z - 1)
}

/// A pixel.
fn pixel_at(patches: &[Vec<Patch>], x: usize, z: usize) -> Pixel
    ensures { result ≡ pixel_at (patches_of patches.now) x z }
{
    painted(column_at(patches, x, z), north_of(patches, x, z))
}

/// A row of pixels.
fn pixel_row(
    alloc: Global,
    patches: &[Vec<Patch>],
    width: usize,
    z: usize,
) -> Result<Vec<Pixel>, AllocError>
    ensures { IfOk result (λ row. row.items ≡ pixel_row (patches_of patches.now) width z) }
{
    let mut row = Vec::with_capacity(alloc, width)?;
    for x in 0..width {
        row.push(pixel_at(patches, x, z))?;
    }
    Ok(row)
}

/// All rows of pixels.
pub(crate) fn pixel_rows(
    alloc: Global,
    patches: &[Vec<Patch>],
    width: usize,
    height: usize,
) -> Result<Vec<Vec<Pixel>>, AllocError>
    ensures pixels { IfOk result (λ rows. map (λ row. row.items) rows.items
        ≡ pixel_rows (patches_of patches.now) width height) }
    ensures count { IfOk result (λ rows. length rows.items ≡ height) }
    ensures even { IfOk result (λ rows. All (λ row. length row.items ≡ width) rows.items) }
{
    let mut rows = Vec::with_capacity(alloc, height)?;
    for z in 0..height {
        rows.push(pixel_row(alloc, patches, width, z)?)?;
    }
    Ok(rows)
}

/// How many chunks of a row have a fault.
fn unread_in_row(row: &[Patch]) -> usize
    ensures value { result ≡ sum_by unread_in row.now }
    ensures bound { result ≤ length row.now }
{
    let mut count = 0;
    for patch in row {
        count += patch.unread();
    }
    count
}

/// How many chunks have a fault.
pub(crate) fn count_unread(patches: &[Vec<Patch>]) -> usize
    requires few { length patches.now ≤ 1024 }
    requires short { All (λ row. length row.items ≤ 1024) patches.now }
    ensures { result ≡ count_unread (patches_of patches.now) }
{
    let mut count = 0;
    for row in patches {
        count += unread_in_row(row.as_slice());
    }
    count
}
