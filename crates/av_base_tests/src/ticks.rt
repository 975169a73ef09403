//! Lists of scheduled ticks by hand.
use crate::expecting::expect_equal;
use av_ticks::{TickList, merge_made};
use av_types::{Entry, Fault, Made, Pos};
use std::alloc::Global;
use std::test::Fail;

/// An entry at (8, 64, z).
fn entry(z: i32, due: i64, priority: i32) -> Entry {
    Entry {
        pos: Pos { x: 8, y: 64, z },
        due,
        priority,
    }
}

fn made(maker: u64, number: u8) -> Made {
    Made {
        maker,
        number,
        entry: entry(0, 7, 0),
    }
}

/// An entry that is due in tick 9.
const A: Entry = Entry {
    pos: Pos { x: 8, y: 64, z: 1 },
    due: 9,
    priority: 0,
};

const B: Entry = Entry {
    pos: Pos { x: 8, y: 64, z: 2 },
    due: -3,
    priority: 7,
};

const C: Entry = Entry {
    pos: Pos { x: 8, y: 64, z: 3 },
    due: 5,
    priority: 0,
};

const D: Entry = Entry {
    pos: Pos { x: 8, y: 64, z: 4 },
    due: 5,
    priority: 0,
};

const E: Entry = Entry {
    pos: Pos { x: 8, y: 64, z: 5 },
    due: 5,
    priority: -1,
};

/// Whether a list takes all of some entries.
fn takes(list: &mut TickList, entries: &[Entry]) -> Result<bool, Fault> {
    let mut all = true;
    for entry in entries {
        let added = list.add(*entry)?;
        all = all && added;
    }
    Ok(all)
}

/// A list of A to E. In tick 5 B, E, C and D are due, in this order: an overdue one first, whatever its priority.
fn five(alloc: Global) -> Result<TickList, Fault> {
    let mut list = TickList::new(alloc);
    list.reserve(5)?;
    takes(&mut list, &[A, B, C, D, E])?;
    Ok(list)
}

#[test]
fn entries_stand_as_they_came(rt: HostRuntime) -> Result<(), Fail> {
    let mut list = TickList::new(rt.alloc());
    expect_equal(&rt, list.is_empty(), true);
    expect_equal(&rt, takes(&mut list, &[A, B, C, D, E])?, true);
    expect_equal(&rt, list.as_slice(), [A, B, C, D, E].as_slice());
    expect_equal(&rt, (list.len(), list.is_empty()), (5, false));
    Ok(())
}

#[test]
fn entries_leave_by_time_priority_and_order(rt: HostRuntime) -> Result<(), Fail> {
    let mut list = five(rt.alloc())?;
    expect_equal(&rt, list.take_due(5)?.as_slice(), [B, E, C, D].as_slice());
    expect_equal(&rt, list.len(), 5);
    list.drop_due(5);
    expect_equal(&rt, list.as_slice(), [A].as_slice());
    Ok(())
}

/// Where times do not fall only those that are due are in the part. It is a beginning of the list, and stays so when some have left.
#[test]
fn what_is_due_stands_at_the_beginning(rt: HostRuntime) -> Result<(), Fail> {
    let mut list = TickList::new(rt.alloc());
    expect_equal(&rt, list.due_part(u32::MAX), [].as_slice());
    let rising = [
        entry(1, 3, 0),
        entry(2, 3, -1),
        entry(3, 5, 0),
        entry(4, 6, 0),
    ];
    expect_equal(&rt, takes(&mut list, &rising)?, true);
    expect_equal(&rt, list.due_part(2), [].as_slice());
    expect_equal(&rt, list.due_part(3), &rising[..2]);
    expect_equal(&rt, list.due_part(5), &rising[..3]);
    list.drop_due(3);
    expect_equal(&rt, list.as_slice(), &rising[2..]);
    expect_equal(&rt, (list.soonest(), list.len()), (5, 2));
    expect_equal(&rt, list.add(entry(5, 6, 0))?, true);
    expect_equal(&rt, list.due_part(5), &rising[2..3]);
    list.drop_due(6);
    expect_equal(&rt, (list.soonest(), list.is_empty()), (i64::MAX, true));
    Ok(())
}

/// Where a time falls the part has all that are due, also those behind one that is not.
#[test]
fn what_is_due_is_found_where_times_fall(rt: HostRuntime) -> Result<(), Fail> {
    let mut list = TickList::new(rt.alloc());
    let falling = [
        entry(1, 3, 0),
        entry(2, 9, 0),
        entry(3, 4, 0),
        entry(4, 9, 0),
    ];
    expect_equal(&rt, takes(&mut list, &falling)?, true);
    expect_equal(&rt, list.due_part(4).contains(&falling[2]), true);
    expect_equal(
        &rt,
        list.take_due(4)?.as_slice(),
        [falling[0], falling[2]].as_slice(),
    );
    expect_equal(&rt, list.soonest(), 3);
    list.drop_due(4);
    expect_equal(&rt, list.as_slice(), [falling[1], falling[3]].as_slice());
    expect_equal(&rt, list.soonest(), 9);
    expect_equal(&rt, list.due_part(8), [].as_slice());
    Ok(())
}

/// A refused entry changes nothing, and one that left can come again.
#[test]
fn a_position_has_one_entry(rt: HostRuntime) -> Result<(), Fail> {
    let mut list = five(rt.alloc())?;
    expect_equal(&rt, list.add(entry(1, 5, 0))?, false);
    list.drop_due(5);
    expect_equal(&rt, list.as_slice(), [A].as_slice());
    expect_equal(&rt, (list.has(A.pos), list.has(B.pos)), (true, false));
    expect_equal(&rt, list.add(entry(1, 9, 0))?, false);
    expect_equal(&rt, list.add(B)?, true);
    expect_equal(&rt, list.iter().count(), 2);
    Ok(())
}

/// The least time of no entry, and of one.
#[test]
fn the_least_time_of_one_entry(rt: HostRuntime) -> Result<(), Fail> {
    let mut list = TickList::new(rt.alloc());
    expect_equal(
        &rt,
        (list.soonest(), list.has_due(u32::MAX)),
        (i64::MAX, false),
    );
    list.reserve(1)?;
    list.add_new(A);
    expect_equal(&rt, list.as_slice(), [A].as_slice());
    expect_equal(&rt, list.soonest(), 9);
    Ok(())
}

/// The least time of two entries, and of the one that is left.
#[test]
fn the_least_time_of_two_entries(rt: HostRuntime) -> Result<(), Fail> {
    let mut list = TickList::new(rt.alloc());
    list.reserve(1)?;
    list.add_new(A);
    expect_equal(&rt, list.add(entry(2, -3, 0))?, true);
    expect_equal(&rt, (list.soonest(), list.has_due(0)), (-3, true));
    list.drop_due(8);
    expect_equal(&rt, list.soonest(), 9);
    expect_equal(&rt, (list.has_due(8), list.has_due(9)), (false, true));
    Ok(())
}

/// An entry of many: at z 0 to 199, due in the ticks 0, 1 and 2 by turns.
fn one_of_many(z: i32) -> Entry {
    entry(z, i64::from(z % 3), 0)
}

/// A list of 200 entries, which are so many that they have an index.
fn many(alloc: Global) -> Result<TickList, Fault> {
    let mut list = TickList::new(alloc);
    list.reserve_indexed(42)?;
    for z in 0..200 {
        list.add(one_of_many(z))?;
    }
    list.reserve_indexed(100)?;
    Ok(list)
}

#[test]
fn many_entries_are_added(rt: HostRuntime) -> Result<(), Fail> {
    let mut list = TickList::new(rt.alloc());
    for z in 0..200 {
        expect_equal(&rt, list.add(one_of_many(z))?, true);
    }
    expect_equal(&rt, (list.len(), list.soonest()), (200, 0));
    Ok(())
}

/// Each is found, and a second one of its position is refused and changes nothing.
#[test]
fn many_entries_are_found(rt: HostRuntime) -> Result<(), Fail> {
    let mut list = many(rt.alloc())?;
    for z in 0..200 {
        expect_equal(&rt, list.has(entry(z, 0, 0).pos), true);
        expect_equal(&rt, list.add(entry(z, 7, 0))?, false);
    }
    expect_equal(&rt, list.has(entry(200, 0, 0).pos), false);
    expect_equal(&rt, (list.len(), list.take_due(0)?.len()), (200, 67));
    Ok(())
}

#[test]
fn many_entries_leave(rt: HostRuntime) -> Result<(), Fail> {
    let mut list = many(rt.alloc())?;
    expect_equal(&rt, list.take_due(0)?.len(), 67);
    list.drop_due(0);
    expect_equal(&rt, (list.len(), list.soonest()), (133, 1));
    for z in 0..200 {
        expect_equal(&rt, list.has(entry(z, 0, 0).pos), z % 3 != 0);
    }
    Ok(())
}

/// Of 200 entries, each due in the tick of its z, 4 leave in tick 3. One of them can come again, behind the others.
#[test]
fn few_of_many_leave(rt: HostRuntime) -> Result<(), Fail> {
    let mut list = TickList::new(rt.alloc());
    for z in 0..200 {
        list.add(entry(z, i64::from(z), 0))?;
    }
    list.drop_due(3);
    expect_equal(&rt, (list.len(), list.soonest()), (196, 4));
    expect_equal(&rt, list.has(entry(3, 0, 0).pos), false);
    expect_equal(&rt, list.has(entry(4, 0, 0).pos), true);
    expect_equal(&rt, list.add(entry(3, 9, 0))?, true);
    expect_equal(&rt, list.has(entry(3, 0, 0).pos), true);
    expect_equal(&rt, list.iter().next().copied(), Some(entry(4, 4, 0)));
    expect_equal(&rt, list.iter().last().copied(), Some(entry(3, 9, 0)));
    Ok(())
}

/// The entry at z of 200 that are due in another order than they stand in: those due in the ticks 0 to 9 are at z 0, 143,
/// 86, 29, 172, 115, 58, 1, 144 and 87.
fn one_of_mixed(z: i32) -> Entry {
    entry(z, i64::from(z) * 7 % 200, 0)
}

/// A list of these 200 entries.
fn mixed(alloc: Global) -> Result<TickList, Fault> {
    let mut list = TickList::new(alloc);
    for z in 0..200 {
        list.add(one_of_mixed(z))?;
    }
    Ok(list)
}

/// Whether the entries at z 0 to 199 that a list has are those that are due after a tick.
fn has_later(list: &TickList, now: i64) -> bool {
    (0..200).all(|z| list.has(entry(z, 0, 0).pos) == (one_of_mixed(z).due > now))
}

/// In tick 0 one of 200 entries leaves, in tick 4 four of 199, and in tick 9 five of 195.
#[test]
fn one_four_and_five_of_many_leave(rt: HostRuntime) -> Result<(), Fail> {
    let mut list = mixed(rt.alloc())?;
    list.drop_due(0);
    expect_equal(&rt, (list.len(), list.soonest()), (199, 1));
    expect_equal(
        &rt,
        (list.has(entry(0, 0, 0).pos), list.has(entry(143, 0, 0).pos)),
        (false, true),
    );
    expect_equal(&rt, has_later(&list, 0), true);
    list.drop_due(4);
    expect_equal(&rt, (list.len(), list.soonest()), (195, 5));
    expect_equal(
        &rt,
        (
            list.has(entry(172, 0, 0).pos),
            list.has(entry(115, 0, 0).pos),
        ),
        (false, true),
    );
    expect_equal(&rt, has_later(&list, 4), true);
    list.drop_due(9);
    expect_equal(&rt, (list.len(), list.soonest()), (190, 10));
    expect_equal(
        &rt,
        (list.has(entry(87, 0, 0).pos), list.has(entry(30, 0, 0).pos)),
        (false, true),
    );
    expect_equal(&rt, has_later(&list, 9), true);
    expect_equal(&rt, list.iter().next().copied(), Some(entry(2, 14, 0)));
    expect_equal(&rt, list.iter().last().copied(), Some(entry(199, 193, 0)));
    Ok(())
}

/// Of 200 entries, 67 are due in tick 0, at z 0, 3 and so on to 198. One of them can come again, behind those that stayed.
#[test]
fn one_of_many_that_left_comes_again(rt: HostRuntime) -> Result<(), Fail> {
    let mut list = many(rt.alloc())?;
    list.drop_due(0);
    expect_equal(&rt, list.has(entry(198, 0, 0).pos), false);
    expect_equal(&rt, list.has(entry(199, 0, 0).pos), true);
    expect_equal(&rt, list.add(entry(199, 7, 0))?, false);
    expect_equal(&rt, list.add(entry(198, 7, 0))?, true);
    expect_equal(&rt, list.has(entry(198, 0, 0).pos), true);
    expect_equal(&rt, list.len(), 134);
    expect_equal(&rt, list.iter().next().copied(), Some(one_of_many(1)));
    expect_equal(&rt, list.iter().last().copied(), Some(entry(198, 7, 0)));
    Ok(())
}

#[test]
fn made_entries_go_by_maker_and_number(rt: HostRuntime) -> Result<(), Fail> {
    let first = [made(2, 0), made(2, 1)].to_vec(rt.alloc())?;
    let second = [made(0, 0), made(5, 0)].to_vec(rt.alloc())?;
    let all = merge_made(rt.alloc(), [first, second].as_slice())?;
    let want = [made(0, 0), made(2, 0), made(2, 1), made(5, 0)];
    expect_equal(&rt, all.as_slice(), want.as_slice());
    Ok(())
}
