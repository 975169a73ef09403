//! The rectangle that regions fill.
ghost use Rattle.std.specs.Prelude.{◌≡◌, ◌<◌, ◌/◌, IsTrue, ◌↔◌, pos};
ghost use Rattle.std.specs.List.{All};
ghost use Rattle.av_types.specs.Positions.{IsInLimits};
ghost use Rattle.av_map.specs.Maps.{greater, lesser};

use av_region_files::RegionFile;
use av_types::RegionPos;

/// The most regions of a picture along each side: 16,384 pixels.
const MOST_REGIONS: usize = 32;

/// The least and the greatest coordinates of regions.
#[derive(Clone, Copy, Debug, PartialEq, Eq)]
pub(crate) struct Bounds {
    pub west: i32,
    pub east: i32,
    pub north: i32,
    pub south: i32,
}

impl Bounds {
    ghost use Rattle.av_map.specs.Maps.{IsDrawable, bounds_at, bounds_of, bounds_with, height_of_bounds, region_at, width_of_bounds};
    ghost use Rattle.av_map.specs.Within.{AreWithin};

    /// Those of one region.
    fn at(pos: RegionPos) -> Bounds
        requires { IsInLimits pos }
        ensures value { result ≡ bounds_at pos }
        ensures within { AreWithin result }
    {
        Bounds {
            west: pos.x,
            east: pos.x,
            north: pos.z,
            south: pos.z,
        }
    }

    /// Those with a region more.
    fn with(self, file: &RegionFile) -> Bounds
        requires within { AreWithin self }
        requires limits { IsInLimits file.now.pos }
        ensures value { result ≡ bounds_with self file.now }
        ensures within { AreWithin result }
    {
        Bounds {
            west: lesser(self.west, file.pos.x),
            east: greater(self.east, file.pos.x),
            north: lesser(self.north, file.pos.z),
            south: greater(self.south, file.pos.z),
        }
    }

    /// Those of files, of which the first stands before the others.
    pub(crate) fn of(first: &RegionFile, more: &[RegionFile]) -> Bounds
        requires first { IsInLimits first.now.pos }
        requires more { All (λ f. IsInLimits f.pos) more.now }
        ensures value { result ≡ bounds_of first.now more.now }
        ensures within { AreWithin result }
    {
        let mut bounds = Bounds::at(first.pos);
        for file in more {
            bounds = bounds.with(file);
        }
        bounds
    }

    /// How many regions lie from west to east.
    pub(crate) fn width(self) -> usize
        requires { AreWithin self }
        ensures { result ≡ width_of_bounds self }
    {
        (self.east - self.west) as usize + 1
    }

    /// How many regions lie from north to south.
    pub(crate) fn height(self) -> usize
        requires { AreWithin self }
        ensures { result ≡ height_of_bounds self }
    {
        (self.south - self.north) as usize + 1
    }

    /// Whether a picture of them has at most 16,384 pixels a side.
    pub(crate) fn is_drawable(self) -> bool
        requires { AreWithin self }
        ensures { IsTrue result ↔ IsDrawable self }
    {
        self.width() <= MOST_REGIONS && self.height() <= MOST_REGIONS
    }

    /// The region of the chunk that stands so many chunks east and south of the first.
    pub(crate) fn region_at(self, x: usize, z: usize) -> RegionPos
        requires within { AreWithin self }
        requires x { x < 1024 }
        requires z { z < 1024 }
        ensures { result ≡ region_at self x z }
    {
        RegionPos {
            x: self.west + (x / 32) as i32,
            z: self.north + (z / 32) as i32,
        }
    }
}

/// The lesser of two coordinates.
fn lesser(a: i32, b: i32) -> i32
    ensures { result ≡ lesser a b }
{
    if b < a { b } else { a }
}

/// The greater of two coordinates.
fn greater(a: i32, b: i32) -> i32
    ensures { result ≡ greater a b }
{
    if a < b { b } else { a }
}
