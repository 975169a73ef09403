//! Names and limits of region files by hand.
use crate::expecting::expect_equal;
use av_region_files::{RegionFile, are_in_limits, region_name};
use av_types::RegionPos;
use std::alloc::{AllocError, Global};
use std::test::Fail;

/// Whether files of these regions, without bytes, are all within the limits.
fn are_within(alloc: Global, regions: &[(i32, i32)]) -> Result<bool, AllocError> {
    let mut files = Vec::new(alloc);
    for (x, z) in regions {
        files.push(RegionFile {
            pos: RegionPos { x: *x, z: *z },
            bytes: Vec::new(alloc),
        })?;
    }
    Ok(are_in_limits(files.as_slice()))
}

/// Each file's x and z are looked at, and the limits are 60,000 either way.
#[test]
fn each_region_has_its_limits(rt: HostRuntime) -> Result<(), Fail> {
    let alloc = rt.alloc();
    expect_equal(&rt, are_within(alloc, &[])?, true);
    expect_equal(
        &rt,
        are_within(alloc, &[(60000, -60000), (-60000, 60000)])?,
        true,
    );
    expect_equal(&rt, are_within(alloc, &[(60001, 0), (0, 0)])?, false);
    expect_equal(&rt, are_within(alloc, &[(0, 0), (0, -60001)])?, false);
    Ok(())
}

/// x comes first.
#[test]
fn name_of_a_region(rt: HostRuntime) -> Result<(), Fail> {
    let name = region_name(rt.alloc(), RegionPos { x: -1, z: 20 })?;
    expect_equal(&rt, name.as_str(), "r.-1.20.mca");
    Ok(())
}
