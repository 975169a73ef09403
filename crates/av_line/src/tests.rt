//! Numbers that fit a limit, put and taken by one thread and by four.
ghost use Rattle.std.specs.Prelude.{◌≡◌, ◌+◌, ◌≤◌, ◌<◌, IfOk, All};

use crate::{Fits, Line, LinePass};
use std::alloc::{AllocError, Global};
use std::sync::Wait;
use std::test::Fail;
use std::thread;
use std::thread::Threads;

/// A plan: the most that a number may be.
#[derive(Drop)]
struct Limit {
    most: u32,
}

impl Fits<Limit> for u32 {
    ghost use Rattle.std.specs.Prelude.{◌≤◌};

    ghost fits = { λ limit n. n ≤ limit.most };
}

impl<'a> Fits<&'a Limit> for u32 {
    ghost use Rattle.std.specs.Prelude.{◌≤◌};

    ghost fits = { λ limit n. n ≤ limit.now.most };
}

type Numbers = Line<u32, Limit>;

type NumbersPass = LinePass<u32, Limit>;

/// What a thread took.
type Part = Result<Vec<u32>, AllocError>;

/// Puts a number in, and takes out others while the line is full.
fn put_one<R: Wait>(
    rt: &R,
    line: &Numbers,
    pass: &mut NumbersPass,
    number: u32,
    taken: &mut Vec<u32>,
) -> Result<(), AllocError>
    requires line { pass.old.line ≡ line.now.line }
    requires fits { number ≤ pass.old.plan.most }
    requires taken { All (λ n. n ≤ pass.old.plan.most) taken.old.items }
    ensures pass { pass.new ≡ pass.old }
    ensures taken { All (λ n. n ≤ pass.old.plan.most) taken.new.items }
{
    for _ in rt.forever() {
        taken.reserve(1)?;
        if line.put(rt, pass, number).is_ok() {
            return Ok(());
        }
        if let Some(other) = line.take(rt, pass) {
            taken.push_reserved(other);
        }
    }
    unreachable!()
}

/// Takes out what is there, 1,000 numbers at most.
fn take_all<R: Wait>(
    rt: &R,
    line: &Numbers,
    pass: &mut NumbersPass,
    taken: &mut Vec<u32>,
) -> Result<(), AllocError>
    requires line { pass.old.line ≡ line.now.line }
    requires taken { All (λ n. n ≤ pass.old.plan.most) taken.old.items }
    ensures pass { pass.new ≡ pass.old }
    ensures taken { All (λ n. n ≤ pass.old.plan.most) taken.new.items }
{
    for _ in 0..1_000 {
        taken.reserve(1)?;
        let Some(number) = line.take(rt, pass) else {
            break;
        };
        taken.push_reserved(number);
    }
    Ok(())
}

/// Puts 250 numbers in, from this one on, and takes what is there.
fn exchange<R: Wait>(
    rt: &R,
    alloc: Global,
    line: &Numbers,
    mut pass: NumbersPass,
    first: u32,
) -> Part
    requires line { pass.line ≡ line.now.line }
    requires fits { (first < 1000) × (first + 250 ≤ pass.plan.most) }
    ensures { IfOk result (λ taken. All (λ n. n ≤ pass.plan.most) taken.items) }
{
    let mut taken = Vec::new(alloc);
    for number in first..first + 250 {
        put_one(rt, line, &mut pass, number, &mut taken)?;
    }
    take_all(rt, line, &mut pass, &mut taken)?;
    Ok(taken)
}

/// Four threads put 250 numbers each in, and take what is there. What they took fits the plan too.
fn exchange_in_threads<R: Threads + Wait + Sync>(
    rt: &R,
    alloc: Global,
    line: &Numbers,
    passes: Vec<(NumbersPass, u32)>,
) -> Result<Vec<Part>, AllocError>
    requires { All (λ p. (p.0.line ≡ line.now.line) × (p.0.plan.most ≡ 1000) × (p.1 ≤ 750))
        passes.items }
    ensures { IfOk result (λ parts. All (λ r. IfOk r (λ taken. All (λ n. n ≤ 1000) taken.items))
        parts.items) }
{
    thread::map_vec(
        rt,
        passes,
        &|p: (NumbersPass, u32)| -> Part
            requires { (p.0.line ≡ line.now.line) × (p.0.plan.most ≡ 1000) × (p.1 ≤ 750) }
            ensures { IfOk result (λ taken. All (λ n. n ≤ 1000) taken.items) }
        { exchange(rt, alloc, line, p.0, p.1) },
    )
}

/// The numbers that four threads took, in order.
fn exchanged<R: Threads + Wait + Sync>(rt: &R, alloc: Global, room: usize) -> Part {
    let (line, mut pass) = Line::open(rt, alloc, Limit { most: 1_000 }, room)?;
    let second = line.another(&mut pass);
    let third = line.another(&mut pass);
    let fourth = line.another(&mut pass);
    let passes = vec![in alloc; (pass, 0), (second, 250), (third, 500), (fourth, 750)]?;
    let mut all = Vec::new(alloc);
    for taken in exchange_in_threads(rt, alloc, &line, passes)? {
        all.append(&mut taken?)?;
    }
    all.sort()?;
    Ok(all)
}

/// 0 to 999.
fn thousand(alloc: Global) -> Result<Vec<u32>, AllocError> {
    let mut numbers = Vec::new(alloc);
    for number in 0..1_000 {
        numbers.push(number)?;
    }
    Ok(numbers)
}

#[test]
fn two_come_out_in_order_and_then_none(rt: HostRuntime) -> Result<(), Fail> {
    let (line, mut pass) = Line::open(&rt, rt.alloc(), Limit { most: 9 }, 2)?;
    assert_eq!(rt; line.put(&rt, &mut pass, 9), Ok(()));
    assert_eq!(rt; line.put(&rt, &mut pass, 3), Ok(()));
    assert_eq!(rt; line.take(&rt, &mut pass), Some(9));
    assert_eq!(rt; line.take(&rt, &mut pass), Some(3));
    assert_eq!(rt; line.take(&rt, &mut pass), None);
    Ok(())
}

#[test]
fn a_full_line_hands_the_item_back(rt: HostRuntime) -> Result<(), Fail> {
    let (line, mut pass) = Line::open(&rt, rt.alloc(), Limit { most: 9 }, 1)?;
    assert_eq!(rt; line.put(&rt, &mut pass, 3), Ok(()));
    assert_eq!(rt; line.put(&rt, &mut pass, 4), Err(4));
    assert_eq!(rt; line.take(&rt, &mut pass), Some(3));
    assert_eq!(rt; line.put(&rt, &mut pass, 4), Ok(()));
    assert_eq!(rt; line.take(&rt, &mut pass), Some(4));
    Ok(())
}

#[test]
fn no_room_is_room_for_one(rt: HostRuntime) -> Result<(), Fail> {
    let (line, mut pass) = Line::open(&rt, rt.alloc(), Limit { most: 9 }, 0)?;
    assert_eq!(rt; line.put(&rt, &mut pass, 3), Ok(()));
    assert_eq!(rt; line.put(&rt, &mut pass, 4), Err(4));
    Ok(())
}

#[test]
fn four_threads_take_each_of_a_thousand_numbers_once(rt: HostRuntime) -> Result<(), Fail> {
    assert_eq!(rt;
        exchanged(&rt, rt.alloc(), 8)?.as_slice(),
        thousand(rt.alloc())?.as_slice()
    );
    Ok(())
}

#[test]
fn a_thousand_numbers_wait_in_a_long_line(rt: HostRuntime) -> Result<(), Fail> {
    assert_eq!(rt;
        exchanged(&rt, rt.alloc(), 1_000)?.as_slice(),
        thousand(rt.alloc())?.as_slice()
    );
    Ok(())
}

#[test]
fn a_plan_may_be_borrowed(rt: HostRuntime) -> Result<(), Fail> {
    let limit = Limit { most: 9 };
    let (line, mut pass) = Line::open(&rt, rt.alloc(), &limit, 1)?;
    assert_eq!(rt; line.put(&rt, &mut pass, 9), Ok(()));
    let taken = line.take(&rt, &mut pass).unwrap_or(0);
    assert_eq!(rt; taken + limit.most, 18);
    Ok(())
}
