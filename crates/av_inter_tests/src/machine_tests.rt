//! Ticks event by event, on chunks with stone at y 63 and air elsewhere.
use crate::parts::{EAST, ORIGIN, at, end_of, poured, started, stone_kinds, ticked};
use av_inter::{Core, Refused};
use av_play::Event;
use av_rules::Kinds;
use av_types::{ChunkPos, Entry, Fault, Pos};
use av_world::World;
use av_world_tests::reads::{entries_in, water_in};
use std::alloc::Global;
use std::process::Abort;
use std::test::Fail;

/// Each event happens, or is refused for its cause.
fn expect_answers(rt: &impl Abort, core: &mut Core<'_>, events: &[(Event, Option<Refused>)]) {
    for (event, want) in events {
        assert_eq!(rt; core.step(*event).err(), *want, "{event:?}");
    }
}

/// Each event happens.
fn play(rt: &impl Abort, core: &mut Core<'_>, events: &[Event]) {
    for event in events {
        assert_eq!(rt; core.step(*event).err(), None, "{event:?}");
    }
}

/// The lists of the chunks (0, 0) and (1, 0), and which blocks of them are water, are those of the other world.
fn expect_same(rt: &impl Abort, alloc: Global, world: &World, other: &World) -> Result<(), Fault> {
    let (water, others) = (water_in(alloc, world)?, water_in(alloc, other)?);
    assert_eq!(rt; water.as_slice(), others.as_slice());
    for chunk in [ORIGIN, EAST] {
        let list = entries_in(alloc, world, chunk)?;
        let others = entries_in(alloc, other, chunk)?;
        assert_eq!(rt; list.as_slice(), others.as_slice(), "{chunk:?}");
    }
    Ok(())
}

/// A chunk's entries are of these blocks, in this order, all due in tick 11.
fn expect_list(
    rt: &impl Abort,
    alloc: Global,
    world: &World,
    chunk: ChunkPos,
    want: &[(i32, i32, i32)],
) -> Result<(), Fault> {
    let list = entries_in(alloc, world, chunk)?;
    assert_eq!(rt; list.len(), want.len());
    for (one, (x, y, z)) in list.iter().zip(want) {
        let entry = Entry {
            pos: at(*x, *y, *z),
            due: 11,
            priority: 0,
        };
        assert_eq!(rt; *one, entry);
    }
    Ok(())
}

/// Sources in both chunks, each in a part of its own.
const APART: [Pos; 2] = [Pos { x: 8, y: 64, z: 8 }, Pos { x: 24, y: 64, z: 8 }];

/// The world after tick 6 of one thread.
fn serial(
    alloc: Global,
    kinds: &Kinds,
    chunks: &[ChunkPos],
    sources: &[Pos],
) -> Result<World, Fault> {
    ticked(poured(alloc, chunks, sources)?, kinds, 6)
}

/// Two workers, whose events stand among each other.
#[test]
fn two_workers_give_the_tick(rt: HostRuntime) -> Result<(), Fail> {
    let alloc = rt.alloc();
    let kinds = stone_kinds(alloc)?;
    let chunks = [ORIGIN, EAST];
    let world = poured(alloc, &chunks, &APART)?;
    let mut core = started(alloc, world, &kinds, 6)?;
    let events = [
        Event::Take(0, 0),
        Event::Take(1, 1),
        Event::Turn(1, 1),
        Event::Turn(0, 0),
        Event::Back(0, 0),
        Event::Back(1, 1),
    ];
    play(&rt, &mut core, events.as_slice());
    let after = end_of(core)?;
    let water = [
        (8, 64, 7, 1),
        (24, 64, 7, 1),
        (7, 64, 8, 1),
        (8, 64, 8, 0),
        (9, 64, 8, 1),
        (23, 64, 8, 1),
        (24, 64, 8, 0),
        (25, 64, 8, 1),
        (8, 64, 9, 1),
        (24, 64, 9, 1),
    ];
    assert_eq!(rt; water_in(alloc, &after)?.as_slice(), water.as_slice());
    let first = [(8, 64, 7), (8, 64, 8), (8, 64, 9), (7, 64, 8), (9, 64, 8)];
    expect_list(&rt, alloc, &after, ORIGIN, first.as_slice())?;
    let second = [
        (24, 64, 7),
        (24, 64, 8),
        (24, 64, 9),
        (23, 64, 8),
        (25, 64, 8),
    ];
    expect_list(&rt, alloc, &after, EAST, second.as_slice())?;
    let tick = serial(alloc, &kinds, &chunks, &APART)?;
    expect_same(&rt, alloc, &after, &tick)?;
    Ok(())
}

/// One worker, and one part wholly before the other.
#[test]
fn one_worker_gives_the_tick(rt: HostRuntime) -> Result<(), Fail> {
    let alloc = rt.alloc();
    let kinds = stone_kinds(alloc)?;
    let chunks = [ORIGIN, EAST];
    let world = poured(alloc, &chunks, &APART)?;
    let mut core = started(alloc, world, &kinds, 6)?;
    for part in [0, 1] {
        let events = [
            Event::Take(0, part),
            Event::Turn(0, part),
            Event::Back(0, part),
        ];
        play(&rt, &mut core, events.as_slice());
    }
    let after = end_of(core)?;
    let tick = serial(alloc, &kinds, &chunks, &APART)?;
    expect_same(&rt, alloc, &after, &tick)?;
    Ok(())
}

/// Events, and why each is refused. The part 2 is not there.
const ANSWERS: [(Event, Option<Refused>); 19] = [
    (Event::Turn(0, 0), Some(Refused::NotHolder)),
    (Event::Back(0, 0), Some(Refused::NotHolder)),
    (Event::Take(0, 2), Some(Refused::NotWaiting)),
    (Event::Take(0, 0), None),
    (Event::Take(1, 0), Some(Refused::NotWaiting)),
    (Event::Turn(1, 0), Some(Refused::NotHolder)),
    (Event::Back(1, 0), Some(Refused::NotHolder)),
    (Event::Back(0, 0), Some(Refused::NotDone)),
    (Event::Turn(0, 2), Some(Refused::NotHolder)),
    (Event::Turn(0, 0), None),
    (Event::Turn(1, 0), Some(Refused::NotHolder)),
    (Event::Back(1, 0), Some(Refused::NotHolder)),
    (Event::Turn(0, 0), Some(Refused::NoEntry)),
    (Event::Back(0, 0), None),
    (Event::Take(0, 0), Some(Refused::NotWaiting)),
    (Event::Turn(0, 0), Some(Refused::NotHolder)),
    (Event::Take(7, 1), None),
    (Event::Turn(7, 1), None),
    (Event::Back(7, 1), None),
];

/// What is not lawful is refused and changes nothing: the tick goes on as if it had not been asked for.
#[test]
fn unlawful_events_are_refused(rt: HostRuntime) -> Result<(), Fail> {
    let alloc = rt.alloc();
    let kinds = stone_kinds(alloc)?;
    let chunks = [ORIGIN, EAST];
    let world = poured(alloc, &chunks, &APART)?;
    let mut core = started(alloc, world, &kinds, 6)?;
    expect_answers(&rt, &mut core, ANSWERS.as_slice());
    let after = end_of(core)?;
    let tick = serial(alloc, &kinds, &chunks, &APART)?;
    expect_same(&rt, alloc, &after, &tick)?;
    Ok(())
}

/// Events of one worker that holds two parts at once, and why each is refused.
const BOTH: [(Event, Option<Refused>); 9] = [
    (Event::Take(0, 0), None),
    (Event::Take(0, 1), None),
    (Event::Turn(0, 1), None),
    (Event::Back(0, 0), Some(Refused::NotDone)),
    (Event::Turn(0, 0), None),
    (Event::Back(0, 0), None),
    (Event::Turn(0, 0), Some(Refused::NotHolder)),
    (Event::Turn(0, 1), Some(Refused::NoEntry)),
    (Event::Back(0, 1), None),
];

/// A worker may take a part while it holds another one, and each is turned and given back by itself.
#[test]
fn one_worker_holds_two_parts(rt: HostRuntime) -> Result<(), Fail> {
    let alloc = rt.alloc();
    let kinds = stone_kinds(alloc)?;
    let chunks = [ORIGIN, EAST];
    let world = poured(alloc, &chunks, &APART)?;
    let mut core = started(alloc, world, &kinds, 6)?;
    expect_answers(&rt, &mut core, BOTH.as_slice());
    let after = end_of(core)?;
    let tick = serial(alloc, &kinds, &chunks, &APART)?;
    expect_same(&rt, alloc, &after, &tick)?;
    Ok(())
}

/// A core that is not done comes back from its end, with the reason.
fn unfinished<'a>(rt: &impl Abort, core: Core<'a>) -> Result<Core<'a>, Fault> {
    match core.finish() {
        Ok(_) => Err(Fault::Broken),
        Err((refused, core)) => {
            assert_eq!(rt; refused, Refused::NotDone);
            Ok(core)
        }
    }
}

/// A tick with a part that waits or is held can't be ended, and goes on.
#[test]
fn a_tick_ends_when_all_parts_are_back(rt: HostRuntime) -> Result<(), Fail> {
    let alloc = rt.alloc();
    let kinds = stone_kinds(alloc)?;
    let chunks = [ORIGIN, EAST];
    let world = poured(alloc, &chunks, &APART)?;
    let mut core = unfinished(&rt, started(alloc, world, &kinds, 6)?)?;
    let first = [Event::Take(0, 1), Event::Turn(0, 1), Event::Back(0, 1)];
    play(&rt, &mut core, first.as_slice());
    let mut core = unfinished(&rt, core)?;
    play(&rt, &mut core, &[Event::Take(1, 0), Event::Turn(1, 0)]);
    let mut core = unfinished(&rt, core)?;
    play(&rt, &mut core, &[Event::Back(1, 0)]);
    let after = end_of(core)?;
    let tick = serial(alloc, &kinds, &chunks, &APART)?;
    expect_same(&rt, alloc, &after, &tick)?;
    Ok(())
}

/// What was made comes into a list by its makers' indices, also where the later part was back first.
#[test]
fn entries_go_by_their_makers(rt: HostRuntime) -> Result<(), Fail> {
    let alloc = rt.alloc();
    let kinds = stone_kinds(alloc)?;
    let sources = [at(8, 72, 8), at(8, 40, 8)];
    let world = poured(alloc, &[ORIGIN], sources.as_slice())?;
    let mut core = started(alloc, world, &kinds, 6)?;
    for part in [1, 0] {
        let events = [
            Event::Take(3, part),
            Event::Turn(3, part),
            Event::Back(3, part),
        ];
        play(&rt, &mut core, events.as_slice());
    }
    let after = end_of(core)?;
    let water = [(8, 39, 8, 8), (8, 40, 8, 0), (8, 71, 8, 8), (8, 72, 8, 0)];
    assert_eq!(rt; water_in(alloc, &after)?.as_slice(), water.as_slice());
    let list = [(8, 71, 8), (8, 72, 8), (8, 39, 8), (8, 40, 8)];
    expect_list(&rt, alloc, &after, ORIGIN, list.as_slice())?;
    let tick = serial(alloc, &kinds, &[ORIGIN], sources.as_slice())?;
    expect_same(&rt, alloc, &after, &tick)?;
    Ok(())
}

/// The three entries of one part are turned one after the other, by the worker that holds it.
#[test]
fn a_part_of_three_entries(rt: HostRuntime) -> Result<(), Fail> {
    let alloc = rt.alloc();
    let kinds = stone_kinds(alloc)?;
    let chunks = [ORIGIN, EAST];
    let sources = [at(8, 64, 8), at(24, 64, 8), at(15, 64, 8)];
    let world = poured(alloc, &chunks, sources.as_slice())?;
    let mut core = started(alloc, world, &kinds, 6)?;
    let answers = [
        (Event::Take(0, 0), None),
        (Event::Take(0, 1), Some(Refused::NotWaiting)),
        (Event::Turn(0, 0), None),
        (Event::Turn(0, 0), None),
        (Event::Back(0, 0), Some(Refused::NotDone)),
        (Event::Turn(0, 0), None),
        (Event::Turn(0, 0), Some(Refused::NoEntry)),
        (Event::Back(0, 0), None),
    ];
    expect_answers(&rt, &mut core, answers.as_slice());
    let after = end_of(core)?;
    let tick = serial(alloc, &kinds, &chunks, sources.as_slice())?;
    expect_same(&rt, alloc, &after, &tick)?;
    Ok(())
}

/// A tick in which nothing is due has no part, and ends at once.
#[test]
fn a_tick_without_entries(rt: HostRuntime) -> Result<(), Fail> {
    let alloc = rt.alloc();
    let kinds = stone_kinds(alloc)?;
    let world = poured(alloc, &[ORIGIN], &[at(8, 64, 8)])?;
    let mut core = started(alloc, world, &kinds, 5)?;
    let answers = [(Event::Take(0, 0), Some(Refused::NotWaiting))];
    expect_answers(&rt, &mut core, answers.as_slice());
    let after = end_of(core)?;
    let before = poured(alloc, &[ORIGIN], &[at(8, 64, 8)])?;
    expect_same(&rt, alloc, &after, &before)?;
    Ok(())
}
