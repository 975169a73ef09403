//! Maps of small worlds, with values worked out by hand.
use crate::chunks::{Layer, region};
use crate::expecting::expect_equal;
use av_map::{Colours, Map, View, draw};
use av_png::Pixel;
use av_region_files::RegionFile;
use av_types::{Height, RegionPos};
use std::alloc::Global;
use std::process::Abort;
use std::test::Fail;

const COLOURS: &[u8] = b"\"minecraft:stone\" = \"#7d7c7b\"\n\"minecraft:dirt\" = \"#806040\"\n";

/// Stone from y 48 to 63, with light 15 in each block.
const STONE: Layer<'static> = Layer {
    y: 3,
    names: &[b"minecraft:stone"],
    places: &[],
    light: 0xff,
};

/// Above it air, but for dirt at (3, 64, 4), two blocks of water at (5, 64, 7), cave air at (7, 64, 1), void air at (8, 64, 1) and
/// kelp at (9, 64, 1). The light of blocks with an even x is 1, that of others 2.
const OTHERS: Layer<'static> = Layer {
    y: 4,
    names: &[
        b"minecraft:air",
        b"minecraft:dirt",
        b"minecraft:water",
        b"minecraft:cave_air",
        b"minecraft:void_air",
        b"minecraft:kelp",
    ],
    places: &[(67, 1), (117, 2), (373, 2), (23, 3), (24, 4), (25, 5)],
    light: 0x21,
};

fn add(files: &mut Vec<RegionFile>, x: i32, z: i32, bytes: Vec<u8>) -> Result<(), Fail> {
    files.push(RegionFile {
        pos: RegionPos { x, z },
        bytes,
    })?;
    Ok(())
}

/// Three regions: (-1, -1) with the chunk (-32, -31), (0, -1) with a chunk that is compressed, and (-1, 0), which is cut short.
fn world(alloc: Global) -> Result<Vec<RegionFile>, Fail> {
    let mut files = Vec::new(alloc);
    let mut compressed = region(alloc, 0, 0, -32, &[STONE])?;
    if let Some(compression) = compressed.get_mut(8196) {
        *compression = 2;
    }
    add(&mut files, 0, -1, compressed)?;
    add(&mut files, -1, 0, vec![in alloc; 0; 100]?)?;
    add(
        &mut files,
        -1,
        -1,
        region(alloc, 32, -32, -31, &[STONE, OTHERS])?,
    )?;
    Ok(files)
}

fn pixel(map: &Map, x: usize, z: usize) -> Option<(u8, u8, u8, u8)> {
    let row = map.picture.rows().get(z)?;
    let Pixel {
        red,
        green,
        blue,
        alpha,
    } = *row.get(x)?;
    Some((red, green, blue, alpha))
}

/// The chunk's pixels begin at (0, 16).
#[test]
fn blocks(rt: HostRuntime) -> Result<(), Fail> {
    let alloc = rt.alloc();
    let colours = Colours::read(alloc, COLOURS)?;
    let map = draw(alloc, world(alloc)?, Height::game(), &colours, View::Blocks)?;
    expect_equal(
        &rt,
        (map.picture.width(), map.picture.height()),
        (1024, 1024),
    );
    expect_equal(&rt, (map.unread_chunks, map.short_files), (1, 1));
    let stone = Some((0x7d, 0x7c, 0x7b, 255));
    for (x, z, wanted) in [
        // plain, with nothing to the north, and where the column there is as high
        (3, 16, stone),
        (3, 18, stone),
        // higher than the north, lower than it
        (3, 20, Some((159, 135, 111, 255))),
        (3, 21, Some((94, 93, 93, 255))),
        // two blocks deep, and the stone behind
        (5, 23, Some((56, 104, 200, 255))),
        (5, 24, Some((94, 93, 93, 255))),
        // other air is not seen, and kelp is water
        (7, 17, stone),
        (8, 17, stone),
        (9, 17, Some((60, 108, 204, 255))),
        // no chunk, one with a fault, a file cut short
        (3, 15, Some((0, 0, 0, 0))),
        (16, 16, Some((0, 0, 0, 0))),
        (512, 0, Some((0, 0, 0, 0))),
        (0, 512, Some((0, 0, 0, 0))),
        (0, 1024, None),
    ] {
        expect_equal(&rt, pixel(&map, x, z), wanted);
    }
    Ok(())
}

/// The light is that of the block above the highest one.
#[test]
fn light(rt: HostRuntime) -> Result<(), Fail> {
    let alloc = rt.alloc();
    let colours = Colours::none(alloc);
    let map = draw(alloc, world(alloc)?, Height::game(), &colours, View::Light)?;
    for (x, z, wanted) in [
        (0, 16, Some((17, 17, 17, 255))),
        (1, 16, Some((34, 34, 34, 255))),
        (3, 20, Some((34, 34, 34, 255))),
        (3, 15, Some((0, 0, 0, 0))),
    ] {
        expect_equal(&rt, pixel(&map, x, z), wanted);
    }
    Ok(())
}

/// No section lies above the highest block, and no colour is named.
#[test]
fn darkness_and_letters(rt: HostRuntime) -> Result<(), Fail> {
    let alloc = rt.alloc();
    let colours = Colours::none(alloc);
    let layer = Layer {
        y: 19,
        names: &[b"minecraft:a"],
        places: &[],
        light: 0xff,
    };
    for (view, wanted) in [
        (View::Light, Some((0, 0, 0, 255))),
        // the letters' number is 14,043,604, whose bytes are 214, 73 and 212
        (View::Blocks, Some((150, 137, 148, 255))),
    ] {
        let mut files = Vec::new(alloc);
        add(&mut files, 0, 0, region(alloc, 0, 0, 0, &[layer])?)?;
        let map = draw(alloc, files, Height::game(), &colours, view)?;
        expect_equal(&rt, pixel(&map, 0, 0), wanted);
    }
    Ok(())
}
