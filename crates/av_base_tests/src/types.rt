//! Places, heights and fault lines by hand.
use crate::expecting::expect_equal;
use av_types::{ChunkPos, Fault, Height, Place, Pos, RegionPos, SectionPos, Wet};
use std::test::Fail;

/// The block at x -1, y -64 and z 31.
const BLOCK: Pos = Pos {
    x: -1,
    y: -64,
    z: 31,
};

#[test]
fn conversions_round_down(rt: HostRuntime) {
    expect_equal(&rt, BLOCK.chunk(), ChunkPos { x: -1, z: 1 });
    expect_equal(&rt, BLOCK.section(), SectionPos { x: -1, y: -4, z: 1 });
    expect_equal(&rt, BLOCK.section().chunk(), ChunkPos { x: -1, z: 1 });
}

/// A place counts x within z, and z within y.
#[test]
fn a_place_of_a_block(rt: HostRuntime) {
    // x 15, y 0, z 15 in the section
    expect_equal(&rt, BLOCK.place().index, 255);
    // 256 * 2 + 16 * 3 + 1
    expect_equal(&rt, Pos { x: 1, y: 2, z: 3 }.place().index, 561);
    expect_equal(&rt, Place::new(4095).index, 4095);
}

#[test]
fn a_chunk_of_a_region(rt: HostRuntime) {
    let chunk = ChunkPos { x: -1, z: -33 };
    expect_equal(&rt, chunk.region(), RegionPos { x: -1, z: -2 });
    expect_equal(&rt, chunk.index(), 31 + 32 * 31);
}

/// The index is x + 32 z, and not z + 32 x.
#[test]
fn an_index_names_its_chunk(rt: HostRuntime) {
    let region = RegionPos { x: -1, z: 2 };
    assert!(rt; region.is_in_limits());
    let chunks = [(0, -32, 64), (1, -31, 64), (32, -32, 65), (1023, -1, 95)];
    for (index, x, z) in chunks {
        expect_equal(&rt, region.chunk_at(index), ChunkPos { x, z });
    }
    expect_equal(&rt, ChunkPos { x: 1, z: 0 }.index(), 1);
    expect_equal(&rt, ChunkPos { x: 0, z: 1 }.index(), 32);
}

#[test]
fn regions_have_limits(rt: HostRuntime) {
    let regions = [
        (60000, 0, true),
        (60001, 0, false),
        (0, -60000, true),
        (0, -60001, false),
    ];
    for (x, z, inside) in regions {
        expect_equal(&rt, RegionPos { x, z }.is_in_limits(), inside);
    }
}

#[test]
fn the_game_is_384_blocks_high(rt: HostRuntime) {
    let game = Height::game();
    for (y, inside) in [(-65, false), (-64, true), (319, true), (320, false)] {
        expect_equal(&rt, game.has_block(y), inside);
    }
    expect_equal(&rt, game.has_section(20), false);
}

#[test]
fn an_index_of_a_section(rt: HostRuntime) {
    let game = Height::game();
    // (a section's number, its index)
    for (number, index) in [(-4, 0), (0, 4), (19, 23)] {
        assert!(rt; game.has_section(number));
        expect_equal(&rt, game.section_index(number), index);
    }
}

#[test]
fn another_height(rt: HostRuntime) {
    let height = Height {
        min_section: 0,
        sections: 16,
    };
    for (y, inside) in [(-1, false), (0, true), (255, true), (256, false)] {
        expect_equal(&rt, height.has_block(y), inside);
    }
    expect_equal(&rt, height.has_section(-1), false);
    expect_equal(&rt, height.has_section(15), true);
}

#[test]
fn water(rt: HostRuntime) {
    let cases = [
        (Wet::Dry, 0, false, false),
        (Wet::Source, 8, true, true),
        (Wet::Flow(3), 3, true, false),
        (Wet::Falling, 8, true, false),
    ];
    for (wet, amount, is_wet, is_source) in cases {
        let found = (wet.amount(), wet.is_wet(), wet.is_source());
        expect_equal(&rt, found, (amount, is_wet, is_source));
    }
}

#[test]
fn faults_print_their_lines(rt: HostRuntime) -> Result<(), Fail> {
    let alloc = rt.alloc();
    let chunk = ChunkPos { x: -3, z: 40 };
    let device = String::from_str(alloc, "r.0.0.mca")?;
    let lines = [
        (Fault::OutOfMemory, 1, "fault 01: OutOfMemory"),
        (Fault::RegionRange, 2, "fault 02: RegionRange"),
        (Fault::RepeatedRegion, 3, "fault 03: RepeatedRegion"),
        (Fault::ShortHeader, 4, "fault 04: ShortHeader"),
        (Fault::BadLocation, 5, "fault 05: BadLocation"),
        (Fault::TruncatedChunk, 6, "fault 06: TruncatedChunk"),
        (Fault::BadLength, 7, "fault 07: BadLength"),
        (Fault::ExternalChunk, 8, "fault 08: ExternalChunk"),
        (Fault::Compression(2), 9, "fault 09: Compression 2"),
        (Fault::BadNbt, 10, "fault 10: BadNbt"),
        (Fault::OldLayout, 11, "fault 11: OldLayout"),
        (Fault::BadChunk, 12, "fault 12: BadChunk"),
        (Fault::WrongPlace, 13, "fault 13: WrongPlace"),
        (Fault::BadPalette, 14, "fault 14: BadPalette"),
        (Fault::BadPacked, 15, "fault 15: BadPacked"),
        (Fault::BadTick, 16, "fault 16: BadTick"),
        (Fault::BadWaterLevel, 17, "fault 17: BadWaterLevel"),
        (Fault::TooManyStates, 18, "fault 18: TooManyStates"),
        (Fault::BadTable, 19, "fault 19: BadTable"),
        (Fault::BadEdit(3), 20, "fault 20: BadEdit 3"),
        (Fault::EditTick(0), 21, "fault 21: EditTick 0"),
        (Fault::EditOutside(17), 22, "fault 22: EditOutside 17"),
        (Fault::BadCount, 23, "fault 23: BadCount"),
        (
            Fault::ChunkTooLarge(chunk),
            24,
            "fault 24: ChunkTooLarge -3 40",
        ),
        (Fault::Device(device), 25, "fault 25: Device r.0.0.mca"),
        (Fault::Broken, 26, "fault 26: Broken"),
    ];
    for (fault, number, line) in lines {
        expect_equal(&rt, fault.number(), number);
        expect_equal(&rt, fault.to_string(alloc)?.as_str(), line);
    }
    Ok(())
}
