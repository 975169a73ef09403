//! Drawn runs, whose files are the same by each number of workers, byte for byte.
ghost use Rattle.std.specs.Prelude.{◌<◌};

use crate::gates::Holding;
use crate::given::{Given, one_region, only_file, run_gated, table_with};
use av_crew::{Gate, NoGate};
use av_image_tests::flat::{Flat, chunk, region};
use av_types::{ChunkPos, Height};
use std::alloc::{AllocError, Global};
use std::process::Abort;
use std::sync::Wait;
use std::test::Fail;
use std::thread::Threads;

/// Numbers that look drawn, each from the one before.
#[derive(Drop)]
struct Draw {
    state: u64,
}

impl Draw {
    fn below(&mut self, limit: u32) -> u32
        requires { 0 < limit }
        ensures { result < limit }
    {
        self.state = self
            .state
            .wrapping_mul(6364136223846793005)
            .wrapping_add(1442695040888963407);
        (self.state >> 33) as u32 % limit
    }
}

/// An edit of ticks 1 to 4, near the ground, to air, stone or a source. It is in one of eight places far apart, each over the corners of
/// four chunks: so a tick has many entries in each, and is turned in groups.
fn push_edit(edits: &mut String, draw: &mut Draw) -> Result<(), AllocError> {
    let alloc = *edits.allocator();
    let tick = draw.below(4) + 1;
    let place = draw.below(8);
    let x = 64 * place + 8 + draw.below(16);
    let y = draw.below(6) + 62;
    let z = 16 * (place % 7) + 8 + draw.below(16);
    let state = match draw.below(4) {
        0 => "air",
        1 => "stone",
        _ => "water[level=0]",
    };
    let line = format!(in alloc; "{tick} {x} {y} {z} minecraft:{state}\n")?;
    edits.push_str(line.as_str())
}

/// 64 edits in each of the places, about.
fn drawn_edits(alloc: Global, draw: &mut Draw) -> Result<String, AllocError> {
    let mut edits = String::new(alloc);
    for _ in 0..512 {
        push_edit(&mut edits, draw)?;
    }
    Ok(edits)
}

/// What all runs begin with: a region and its table.
#[derive(Drop)]
struct Dry {
    region: Vec<u8>,
    table: Vec<u8>,
}

/// The region of 32 by 8 flat chunks of two sections, with stone at y 63.
fn dry_region(alloc: Global) -> Result<Vec<u8>, AllocError> {
    let low = Flat {
        height: Height {
            min_section: 3,
            sections: 2,
        },
        blocks: &[],
        entries: &[],
    };
    let mut payloads = Vec::new(alloc);
    for z in 0..8 {
        for x in 0..32 {
            payloads.push(chunk(alloc, low, ChunkPos { x, z })?)?;
        }
    }
    region(alloc, payloads.as_slice())
}

/// How many entries a run takes, and its file.
type Left = (u128, Vec<u8>);

/// What twelve ticks with these edits leave by so many workers.
fn ran<G: Gate + Sync>(
    rt: &(impl Threads + Wait + Sync),
    alloc: Global,
    dry: &Dry,
    edits: &str,
    workers: u32,
    gate: &G,
) -> Result<Left, Fail> {
    let given = Given {
        table: dry.table.as_slice(),
        edits,
        ticks: 12,
        workers,
    };
    let files = one_region(alloc, dry.region.clone()?)?;
    let outcome = run_gated(rt, alloc, files, given, gate)?;
    Ok((outcome.turns, only_file(outcome)?))
}

/// So many workers leave the same, in parts where the gate watches. Of several one is held at its first job until another job is done.
fn expect_same(
    rt: &(impl Abort + Threads + Wait + Sync),
    alloc: Global,
    dry: &Dry,
    edits: &str,
    workers: u32,
    watching: bool,
    alone: &Left,
) -> Result<(), Fail> {
    let gate = Holding::of(watching, u64::from(workers > 1));
    let same = ran(rt, alloc, dry, edits, workers, &gate)? == *alone;
    assert!(rt; same, "{workers} workers");
    let (told, gave_up) = gate.counts();
    assert_eq!(rt; (told > 0, gave_up), (watching, 0), "{workers} workers");
    Ok(())
}

/// One, two, three and eight workers leave what one leaves without a gate.
fn expect_world(
    rt: &(impl Abort + Threads + Wait + Sync),
    alloc: Global,
    dry: &Dry,
    edits: &str,
) -> Result<(), Fail> {
    let alone = ran(rt, alloc, dry, edits, 1, &NoGate)?;
    for workers in [1, 2, 3, 8] {
        for watching in [false, true] {
            expect_same(rt, alloc, dry, edits, workers, watching, &alone)?;
        }
    }
    Ok(())
}

/// Sixteen worlds, of which each tick from the sixth on has many entries in several parts.
#[test]
fn drawn_worlds(rt: HostRuntime) -> Result<(), Fail> {
    let alloc = rt.alloc();
    let dry = Dry {
        region: dry_region(alloc)?,
        table: table_with(alloc, "version = 3\nmin_section = 3\nsections = 2")?,
    };
    let mut draw = Draw { state: 15 };
    for _ in 0..16 {
        let edits = drawn_edits(alloc, &mut draw)?;
        expect_world(&rt, alloc, &dry, edits.as_str())?;
    }
    Ok(())
}
