//! Ticks of a small world whose growths may be refused, and what the world answers once a tick broke it.
ghost use Rattle.std.specs.Prelude.{OnOk};
ghost use Rattle.av_rules.specs.Kinds.{kind_count};
ghost use Rattle.av_serial.specs.Ready.{IsReady};
ghost use Rattle.av_world_tests.specs.Flat.{IsPlain};

use av_crew::{Done, Gate, Job};
use av_edits::Edit;
use av_image::{Rest, save};
use av_light::light_all;
use av_rules::Kinds;
use av_serial::apply;
use av_serial_tests::runs::{all_fit, edits_and_kinds, world_of};
use av_types::{ChunkPos, Fault, SectionPos};
use av_world::World;
use av_world_tests::reads::{entries_in, number_at};
use std::alloc::Global;
use std::sync::Wait;
use std::thread::Threads;

const CHUNK: ChunkPos = ChunkPos { x: 0, z: 0 };

/// Two sources of that chunk, whose turns are in two parts.
const LINES: &str = "1 8 72 8 minecraft:water[level=0]
1 8 40 8 minecraft:water[level=0]";

const TICKS: u32 = 6;

/// A gate that watches, so that each part is a job, however few its entries are.
struct Told;

impl Gate for Told {
    ghost saw_job = { λ _ _. Unit {0} };

    ghost saw_done = { λ _ _. Unit {0} };

    fn before(&self, _job: &Job) {}

    fn after(&self, _done: &Done) {}
}

/// A tick on so many workers, or that of one thread where there are none.
fn tick_once<R: Threads + Wait + Sync>(
    rt: &R,
    world: &mut World,
    kinds: &Kinds,
    now: u32,
    edits: &[Edit],
    workers: u32,
) -> Result<u64, Fault>
    requires { IsReady (kind_count kinds.now) world.old }
    ensures { OnOk result (IsReady (kind_count kinds.now) world.new) }
{
    if !all_fit(world, kinds, edits) {
        return Err(Fault::EditOutside(0));
    }
    if workers == 0 {
        return av_serial::tick(world, kinds, now, edits);
    }
    av_crew::tick(rt, world, kinds, now, edits, workers, &Told)
}

/// How many entries the ticks took.
fn run_ticks<R: Threads + Wait + Sync>(
    rt: &R,
    world: &mut World,
    kinds: &Kinds,
    edits: &[Edit],
    workers: u32,
) -> Result<u64, Fault>
    requires { IsPlain world.old }
{
    if kinds.count() < 11 {
        return Err(Fault::BadTable);
    }
    let mut turns = 0u64;
    for done in 0..TICKS {
        let count = tick_once(rt, world, kinds, done + 1, edits, workers)?;
        turns = turns.wrapping_add(count);
    }
    Ok(turns)
}

/// How many turns there were, and each entry that waits with its block's number.
fn told_whole(alloc: Global, world: &World, turns: u64) -> Result<String, Fault> {
    let mut line = format!(in alloc; "turns {turns}")?;
    for entry in &entries_in(alloc, world, CHUNK)? {
        let (x, y, z, due) = (entry.pos.x, entry.pos.y, entry.pos.z, entry.due);
        let number = number_at(world, entry.pos).unwrap_or(0);
        line = format!(in alloc; "{line}; {x} {y} {z} due {due} number {number}")?;
    }
    Ok(line)
}

/// The number of a fault, or 0 where there is none.
fn number_of(fault: Option<Fault>) -> u8 {
    match fault {
        Some(fault) => fault.number(),
        None => 0,
    }
}

/// The faults with which a broken world refuses light, and to be saved.
fn refused_reads<R: Threads + Sync>(
    rt: &R,
    alloc: Global,
    world: &World,
    kinds: &Kinds,
) -> (u8, u8) {
    if !world.broken() {
        return (0, 0);
    }
    let lit = light_all(rt, alloc, world, kinds).err();
    let rest = Rest {
        regions: Vec::new(alloc),
    };
    let saved = save(rt, alloc, world, &rest, kinds, &[], TICKS).err();
    (number_of(lit), number_of(saved))
}

/// The faults with which a broken world refuses an edit, and that a section is taken out.
fn refused_changes(world: &mut World, kinds: &Kinds, edits: &[Edit]) -> (u8, u8) {
    if !world.broken() {
        return (0, 0);
    }
    let carved = world.carve(&[SectionPos { x: 0, y: 4, z: 0 }]).err();
    let Some(edit) = edits.first() else {
        return (0, number_of(carved));
    };
    let applied = apply(world, kinds, TICKS, edit).err();
    (number_of(applied), number_of(carved))
}

/// The faults with which a broken world refuses the tick of one thread and that of two workers.
fn refused_ticks<R: Threads + Wait + Sync>(
    rt: &R,
    world: &mut World,
    kinds: &Kinds,
    edits: &[Edit],
) -> (u8, u8) {
    if !world.broken() {
        return (0, 0);
    }
    let alone = av_serial::tick(world, kinds, TICKS, edits).err();
    let together = av_crew::tick(rt, world, kinds, TICKS, edits, 2, &Told).err();
    (number_of(alone), number_of(together))
}

/// A fault of a tick, and those with which the world then refuses each call.
fn told_broken<R: Threads + Wait + Sync>(
    rt: &R,
    alloc: Global,
    world: &mut World,
    kinds: &Kinds,
    edits: &[Edit],
    fault: &Fault,
) -> Result<String, Fault> {
    let (lit, saved) = refused_reads(rt, alloc, world, kinds);
    let (applied, carved) = refused_changes(world, kinds, edits);
    let (alone, together) = refused_ticks(rt, world, kinds, edits);
    let fault = fault.number();
    Ok(format!(in alloc;
        "fault {fault}; apply {applied}, tick {alone}, crew {together}, carve {carved}, light {lit}, save {saved}"
    )?)
}

/// The line tells of a world after ticks on so many workers, or on one thread where there are none.
pub(crate) fn refuse<R: Threads + Wait + Sync>(
    rt: &R,
    alloc: Global,
    workers: u32,
) -> Result<String, Fault> {
    let mut world = world_of(alloc, &[CHUNK], &[], &[])?;
    let (edits, kinds) = edits_and_kinds(alloc, 1, &world, LINES, TICKS)?;
    let edits = edits.as_slice();
    match run_ticks(rt, &mut world, &kinds, edits, workers) {
        Ok(turns) => told_whole(alloc, &world, turns),
        Err(fault) => told_broken(rt, alloc, &mut world, &kinds, edits, &fault),
    }
}
