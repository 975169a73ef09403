//! Counts of small region files.
use crate::chunks::{EAST, FULL, UNFINISHED, region};
use crate::expecting::expect_equal;
use av_census::{Census, census, listing};
use av_region_files::RegionFile;
use av_rules::Rules;
use av_types::{Fault, Height, RegionPos};
use std::alloc::Global;
use std::process::Abort;
use std::test::Fail;

const TABLE: &[u8] = b"version = 2
[[block]]
name = \"minecraft:stone\"
open = false
floor = true
opacity = 15
emission = 0
[[block]]
name = \"a:b\"
open = true
floor = false
opacity = 2
emission = 14
wet = true
properties = { k = \"v\" }
";

/// 22 sections of air are 90,112 blocks. `a:b[k=v]` comes before `a:b0`, by its name, though not by its text.
const LINES: &str = "90112 minecraft:air open=true floor=false opacity=0 emission=0 wet=false
4096 minecraft:water[level=0] open=false floor=false opacity=1 emission=0 wet=false
4092 minecraft:stone open=false floor=true opacity=15 emission=0 wet=false
2 a:b no row
1 a:b[k=v] open=true floor=false opacity=2 emission=14 wet=true
1 a:b0 no row
";

const TWICE: &str = "180224 minecraft:air
8192 minecraft:water[level=0]
8184 minecraft:stone
4 a:b
2 a:b[k=v]
2 a:b0
";

/// The census of regions at z 0, from x 0 on, each of which has a chunk of such a begin at index 0, or is cut short.
fn census_of(alloc: Global, begins: &[&[u8]]) -> Result<Census, Fail> {
    let mut files = Vec::new(alloc);
    let mut x = 0i32;
    for begin in begins {
        let bytes = if begin.is_empty() {
            vec![in alloc; 0; 8191]?
        } else {
            region(alloc, *begin)?
        };
        files.push(RegionFile {
            pos: RegionPos { x, z: 0 },
            bytes,
        })?;
        x = x.wrapping_add(1);
    }
    Ok(census(alloc, files, Height::game())?)
}

/// The lines of a census.
fn expect_lines(
    rt: &impl Abort,
    alloc: Global,
    found: &Census,
    rules: Option<&Rules>,
    want: &str,
) -> Result<(), Fail> {
    let text = listing(alloc, found.counts.as_slice(), rules)?;
    expect_equal(rt, text.as_slice(), want.as_bytes());
    Ok(())
}

#[test]
fn blocks_of_a_chunk(rt: HostRuntime) -> Result<(), Fail> {
    let alloc = rt.alloc();
    let found = census_of(alloc, &[FULL])?;
    let rules = Rules::read(alloc, TABLE)?;
    expect_equal(&rt, found.left_out, 0);
    expect_lines(&rt, alloc, &found, Some(&rules), LINES)
}

/// The third chunk is not that of its position, the fourth is not full, and the fifth file is cut short.
#[test]
fn chunks_that_are_left_out(rt: HostRuntime) -> Result<(), Fail> {
    let alloc = rt.alloc();
    let found = census_of(alloc, &[FULL, EAST, EAST, UNFINISHED, b""])?;
    expect_equal(&rt, found.left_out, 2);
    expect_lines(&rt, alloc, &found, None, TWICE)
}

/// Without blocks there are no lines.
#[test]
fn no_blocks(rt: HostRuntime) -> Result<(), Fail> {
    let alloc = rt.alloc();
    let found = census_of(alloc, &[UNFINISHED])?;
    expect_equal(&rt, found.left_out, 0);
    expect_lines(&rt, alloc, &found, None, "")
}

/// The list is judged before any file is looked at.
#[test]
fn a_region_twice(rt: HostRuntime) -> Result<(), Fail> {
    let alloc = rt.alloc();
    let mut files = Vec::new(alloc);
    for _ in 0..2 {
        files.push(RegionFile {
            pos: RegionPos { x: 0, z: 0 },
            bytes: region(alloc, FULL)?,
        })?;
    }
    let refused = census(alloc, files, Height::game()).err();
    expect_equal(&rt, refused, Some(Fault::RepeatedRegion));
    Ok(())
}
