//! Indices that threads deal among themselves.
ghost use Rattle.std.specs.Prelude.{◌≡◌, length, replicate, None, IfOk};
ghost use Rattle.std.specs.List.{All};
ghost use Rattle.av_dealt.specs.Dealt.{AreAtIndices, IsDealt, IsTaken};

use crate::maker::Maker;
use std::alloc::{AllocError, Global};
use std::sync::atomic::AtomicU64;
use std::sync::atomic::Ordering::SeqCst;

/// A thing, and its index.
#[derive(Drop)]
pub struct Dealt<T> {
    index: usize,
    thing: T,
}

/// The things that this thread makes, until all indices are taken. The threads share the count of those that are.
pub fn taken<M: Maker>(
    alloc: Global,
    maker: &M,
    next: &AtomicU64,
) -> Result<Vec<Dealt<M::Thing>>, AllocError>
where
    M::Thing: Drop,
    M::Bench: Drop,
    ensures { IsTaken (M.count maker.now) (M.is_of maker.now) result }
{
    let count = maker.count();
    let mut bench = maker.bench();
    let mut things = Vec::new(alloc);
    for _ in 0..count {
        let index = next.fetch_add(1, SeqCst) as usize;
        if index >= count {
            break;
        }
        if let Some(thing) = maker.make(alloc, index, &mut bench)? {
            things.push(Dealt { index, thing })?;
        }
    }
    Ok(things)
}

/// So many slots, all empty.
fn empty_slots<T: Drop>(alloc: Global, count: usize) -> Result<Vec<Option<T>>, AllocError>
    ensures { IfOk result (λ slots. slots.items ≡ replicate count None) }
{
    let mut slots = Vec::with_capacity(alloc, count)?;
    for _ in 0..count {
        slots.push(None)?;
    }
    Ok(slots)
}

/// Puts things into the slots of their indices.
fn put_all<M: Maker>(maker: &M, mut things: Vec<Dealt<M::Thing>>, slots: &mut Vec<Option<M::Thing>>)
where
    M::Thing: Drop,
    requires each { All (IsDealt (M.count maker.now) (M.is_of maker.now)) things.items }
    requires long { length slots.old.items ≡ M.count maker.now }
    requires own { AreAtIndices (M.is_of maker.now) slots.old.items }
    ensures long { length slots.new.items ≡ M.count maker.now }
    ensures own { AreAtIndices (M.is_of maker.now) slots.new.items }
{
    while let Some(Dealt { index, thing }) = things.pop() {
        slots[index] = Some(thing);
    }
}

/// The things of several threads, each in the slot of its index. No thread knows what the others took, so an empty slot says nothing.
pub fn gathered<M: Maker>(
    alloc: Global,
    maker: &M,
    mut taken: Vec<Result<Vec<Dealt<M::Thing>>, AllocError>>,
) -> Result<Vec<Option<M::Thing>>, AllocError>
where
    M::Thing: Drop,
    requires { All (IsTaken (M.count maker.now) (M.is_of maker.now)) taken.items }
    ensures long { IfOk result (λ slots. length slots.items ≡ M.count maker.now) }
    ensures own { IfOk result (λ slots. AreAtIndices (M.is_of maker.now) slots.items) }
{
    let mut slots = empty_slots(alloc, maker.count())?;
    while let Some(things) = taken.pop() {
        put_all(maker, things?, &mut slots);
    }
    Ok(slots)
}
