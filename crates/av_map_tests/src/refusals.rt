//! Worlds that are not drawn.
use crate::expecting::expect_equal;
use av_map::{Colours, View, draw};
use av_region_files::RegionFile;
use av_types::{Height, RegionPos};
use std::process::Abort;
use std::test::Fail;

#[test]
fn refusals(rt: HostRuntime) -> Result<(), Fail> {
    let alloc = rt.alloc();
    let colours = Colours::none(alloc);
    for (regions, wanted) in [
        (&[][..], "no region file to draw"),
        (
            &[(0, 0), (32, 0)][..],
            "the regions fill more than 16384 pixels a side",
        ),
        (
            &[(0, 5), (0, -27)][..],
            "the regions fill more than 16384 pixels a side",
        ),
        (&[(0, 0), (1, 0), (0, 0)][..], "fault 03: RepeatedRegion"),
        (&[(0, 60001)][..], "fault 02: RegionRange"),
    ] {
        let mut files = Vec::new(alloc);
        for (x, z) in regions {
            files.push(RegionFile {
                pos: RegionPos { x: *x, z: *z },
                bytes: Vec::new(alloc),
            })?;
        }
        let Err(refusal) = draw(alloc, files, Height::game(), &colours, View::Blocks) else {
            return Err(Fail::new("a map"));
        };
        let text = format!(in alloc; "{refusal}")?;
        expect_equal(&rt, text.as_str(), wanted);
    }
    Ok(())
}
