//! Worlds and events that are drawn: each seed gives the same ones whenever it is asked.
ghost use Rattle.std.specs.Prelude.{◌<◌, IfOk, OnOk};
ghost use Rattle.av_world_tests.specs.Flat.{IsPlain};

use av_inter::Core;
use av_play::Event;
use av_types::{ChunkPos, Entry, Fault, Height, Pos};
use av_world::World;
use av_world_tests::worlds::{flat_world, put, wait};
use std::alloc::Global;

/// The next number below a bound.
fn draw(seed: &mut u32, bound: u32) -> u32
    requires { 0 < bound }
    ensures { result < bound }
{
    *seed = seed.wrapping_mul(1_664_525).wrapping_add(1_013_904_223);
    (*seed / 65_536) % bound
}

/// A block of two chunks, above the stone or some sections higher.
fn drawn_block(seed: &mut u32) -> Pos {
    let x = draw(seed, 32) as i32;
    let z = draw(seed, 16) as i32;
    let floor = if draw(seed, 2) == 0 { 64 } else { 100 };
    let y = floor + draw(seed, 3) as i32;
    Pos { x, y, z }
}

/// Sets a block to air, water of some level, or stone.
fn put_drawn(world: &mut World, seed: &mut u32) -> Result<(), Fault>
    requires { IsPlain world.old }
    ensures { OnOk result (IsPlain world.new) }
{
    let pos = drawn_block(seed);
    put(world, pos, draw(seed, 11) as u16)
}

/// An entry of a block, which is due by tick 6 or later.
fn drawn_entry(seed: &mut u32, pos: Pos) -> Entry {
    let due = 2 + draw(seed, 6) as i64;
    let priority = draw(seed, 3) as i32 - 1;
    Entry { pos, due, priority }
}

/// Sets a block to water of some level, and has it wait.
fn wait_drawn(world: &mut World, seed: &mut u32) -> Result<(), Fault>
    requires { IsPlain world.old }
    ensures { OnOk result (IsPlain world.new) }
{
    let pos = drawn_block(seed);
    put(world, pos, 1 + draw(seed, 9) as u16)?;
    wait(world, drawn_entry(seed, pos))?;
    Ok(())
}

/// Two chunks with some blocks of air, water and stone, and ten of water that wait.
pub fn drawn_world(alloc: Global, mut seed: u32) -> Result<World, Fault>
    ensures { IfOk result IsPlain }
{
    let chunks = [ChunkPos { x: 0, z: 0 }, ChunkPos { x: 1, z: 0 }];
    let mut world = flat_world(alloc, Height::game(), chunks.as_slice())?;
    for number in 0..40 {
        put_drawn(&mut world, &mut seed)?;
    }
    for number in 0..10 {
        wait_drawn(&mut world, &mut seed)?;
    }
    Ok(world)
}

/// An event of one of three workers and one of four parts, which may not be there.
fn drawn_event(seed: &mut u32) -> Event {
    let worker = draw(seed, 3);
    let part = draw(seed, 4);
    match draw(seed, 3) {
        0 => Event::Take(worker, part),
        1 => Event::Turn(worker, part),
        _ => Event::Back(worker, part),
    }
}

/// Asks for an event, and says whether it happened.
fn happens(core: &mut Core<'_>, event: Event) -> bool {
    core.step(event).is_ok()
}

/// Asks for drawn events, of which the lawful ones happen, and says how many did.
pub fn play_drawn(core: &mut Core<'_>, mut seed: u32) -> u32 {
    let mut count = 0u32;
    for _ in 0..300 {
        let event = drawn_event(&mut seed);
        count = count.wrapping_add(happens(core, event) as u32);
    }
    count
}

/// A worker takes a part, if it waits, and brings it back, if it holds it.
fn bring_back(core: &mut Core<'_>, worker: u32, part: u32) {
    happens(core, Event::Take(worker, part));
    for _ in 0..10 {
        happens(core, Event::Turn(worker, part));
    }
    happens(core, Event::Back(worker, part));
}

/// Brings all parts back that are not yet.
pub fn bring_all_back(core: &mut Core<'_>) {
    for part in 0..10 {
        for worker in 0..3 {
            bring_back(core, worker, part);
        }
    }
}
